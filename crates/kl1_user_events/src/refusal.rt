// Why an account refuses an event.

/// Why an account refuses an event.
#[derive(Clone, Copy)]
pub enum Refusal {
    /// A number, a goal or a length that the language does not allow.
    Syntax,
    /// The text is no module: the line, from 1, on which its first bad item begins.
    Source { line: u64 },
    /// A module of that name is loaded.
    Exists,
    /// There is no shoen of that number, or the console did not start it.
    NoShoen,
    /// The shoen has ended.
    Ended,
    /// The goal can't take that clause now.
    Step,
    /// The account would use too many names.
    Names,
    /// A limit of the account would be passed.
    Limit,
    /// The journal is full.
    Journal,
    /// A session more than may be open, or one fewer than none.
    Sessions,
    /// There is no such report, no substitute waits by it, or an answer tells a variable that doesn't stand in its goal; or what is to be
    /// let go can't be.
    Answer,
}
