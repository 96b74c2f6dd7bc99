// Lines of a prompt.

use kl1_command::Command;
use kl1_term::Term;

/// What is shown of an account.
#[derive(Clone, Copy)]
pub enum Table {
    /// Its goals.
    Goals,
    /// The goals that wait, with what they wait for, and what else stands still.
    Waits,
    /// Its shoens.
    Shoens,
    /// What it has of what is limited.
    Used,
}

/// What a line asks for.
#[derive(Drop)]
pub enum Line {
    /// Nothing.
    Blank,
    /// This goal is started, and runs.
    Goal(Term),
    /// What should be a goal is none.
    NoGoal,
    /// At most this number of steps.
    Step(u64),
    /// At most this number of steps, and each is told.
    Trace(u64),
    /// A command of the account.
    Command(Command),
    /// This is shown.
    Show(Table),
    /// The module in the file of this name is loaded.
    Load(Vec<u8>),
    /// The account begins anew, with the files as they are now.
    Reload,
    /// Help on a command, or on all of them if the word is empty.
    Help(Vec<u8>),
    /// The end.
    Quit,
    /// No command is called so, or this one isn't written so.
    Unknown,
}
