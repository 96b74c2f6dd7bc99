// The words that a program knows, as a table.

/// What follows the name of an option; or that it is no option, but words in their order.
#[derive(Clone, Copy)]
pub enum Takes {
    /// Nothing: `--name`.
    Nothing,
    /// A number from the first to the second: `--name N`.
    Number(u64, u64),
    /// Any text: `--name TEXT`.
    Text,
    /// One of these words: `--name WORD`.
    OneOf(&'static [&'static str]),
    /// Any text that stands after a `=`, or this one if nothing does: `--name=TEXT`, `--name`.
    Maybe(&'static str),
    /// Like `Maybe`, but one of these words.
    MaybeOneOf(&'static str, &'static [&'static str]),
    /// Any text at each of its uses, also by this letter: `--name TEXT -n TEXT`. The texts are the `words` of what is asked.
    Each(char),
    /// No option: a word that has to be there.
    Word,
    /// No option: all other words, at least this many. They are the `words` of what is asked.
    Words(usize),
}

/// An option: a row of the table of a program.
#[derive(Clone, Copy)]
pub struct OptionSpec {
    /// Its name, without the `--`.
    pub name: &'static str,
    pub takes: Takes,
    /// What help calls its value; if this is empty, by its name.
    pub value: &'static str,
    /// What help says of it.
    pub help: &'static str,
    /// The names of the options beside which it is refused.
    pub beside: &'static [&'static str],
    /// The name of the option without which it is refused; if this is empty, there is none.
    pub with: &'static str,
}

/// A task of a program that has several: its first word, with options of its own.
#[derive(Clone, Copy)]
pub struct TaskSpec {
    pub name: &'static str,
    /// What help says of it.
    pub about: &'static str,
    pub options: &'static [OptionSpec],
}

/// What a program makes of the faults of calls of the system.
#[derive(Clone, Copy)]
pub enum SystemFaults {
    /// A failed write is a `write fault`, and if nobody reads what is written nothing is told, with status 141. Other faults are told in
    /// the system's words.
    Writes,
    /// If nobody reads what is written nothing is told, with status 141. Other faults are told in the system's words.
    Pipes,
    /// Like `Pipes`, but refused memory is told as it is elsewhere in the program.
    PipesAndMemory,
}

/// A program.
#[derive(Clone, Copy)]
pub struct Program {
    pub name: &'static str,
    /// What help says of it.
    pub about: &'static str,
    /// How it is called.
    pub usage: &'static str,
    pub options: &'static [OptionSpec],
    /// Its tasks; if there is one, a task has to be there.
    pub tasks: &'static [TaskSpec],
    pub faults: SystemFaults,
}
