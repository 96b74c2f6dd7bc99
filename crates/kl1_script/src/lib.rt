//! Scripts and replays of journals: what their records do to accounts, and the bytes that are written for them.
#![tactic(auto)]

ghost use Rattle.kl1_script.specs.Files.{TextsStay};

mod accounts;
mod answers;
mod last_lines;
mod names;
mod replay_replies;
mod replayed;
mod replays;
mod script_replies;
mod scripts;

pub use accounts::accounts_in;
pub use kl1_command::{
    Command, Parsed, Performed, command_in, parse, perform, put_lines, put_reply,
};
pub use kl1_lines::{DeviceFailed, FailureCounter, Request, ScriptFault, Sink, Source};
pub use replays::{replay_file, replay_over, run_replay, run_replay_over};
pub use scripts::{answer_over, run_script, run_script_over};

/// A text that begins with the first line of a journal is replayed as it stands, whatever else may be replayed. It does nothing: its
/// contract is this law.
pub fn journals_are_replayed()
    ensures { TextsStay }
{}
