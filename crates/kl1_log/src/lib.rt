//! The journal of an account in a file, each line with its sum: what is written so that a crash at any moment leaves a front of it, and what
//! is read again.
#![tactic(auto)]

ghost use Rattle.kl1_log.specs.laws.LogLaws.{CutsAreFronts, TornIsDropped, AppendsAreFronts, ReplaysOfFronts, EventsGrow, GrowthBegins, GrowthGoesOn};

mod batch;
mod change;
mod disk;
mod folder_file;
mod growth;
mod log_error;
mod log_file;
mod making;
mod mark;
mod memory;
mod noting;
mod receipt;
mod recovery;
mod reopening;
mod room;
mod scribe;
mod snapshot;
mod waiting;

pub use batch::Batch;
pub use change::Change;
pub use disk::Disk;
pub use folder_file::FolderFile;
pub use growth::{Growth, begun, grown};
pub use log_error::LogError;
pub use log_file::LogFile;
pub use mark::Mark;
pub use memory::Memory;
pub use receipt::{Receipt, Unsent};
pub use recovery::{Found, recover};
pub use reopening::restore;
pub use room::Room;
pub use waiting::Waiting;

/// Of a journal's file that is cut at any byte after its opening there is recovered a front of the journal, with each entry whose line is
/// whole; what is after the last line feed is never an entry, whatever it is; a file that is made longer loses nothing meanwhile; and the
/// replay of a front is the account after so many deeds. It does nothing: its contract is this law.
pub fn fronts_are_recovered()
    ensures cuts { CutsAreFronts }
    ensures torn { TornIsDropped }
    ensures appends { AppendsAreFronts }
    ensures replays { ReplaysOfFronts }
{}

/// Between two resets a journal grows: by each event, and so by any number of them. It does nothing: its contract is this law.
pub fn journals_grow()
    ensures events { EventsGrow }
    ensures begin { GrowthBegins }
    ensures go_on { GrowthGoesOn }
{}
