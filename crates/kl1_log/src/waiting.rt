// What of a journal waits for its file.

ghost use Rattle.std.specs.Prelude.{◌≡◌, []};
ghost use Rattle.kl1_model_server.specs.JournalText.{lines_of};
ghost use Rattle.kl1_log.specs.Batches.{bytes_of};

use crate::change::Change;
use crate::mark::Mark;
use std::alloc::Global;

/// What of an account's journal waits for its file. It stands under the account's lock.
#[derive(Drop)]
pub struct Waiting {
    pub(crate) account: u32,
    pub(crate) mark: Mark,
    pub(crate) change: Change,
    /// How many changes were taken, and how many were noted.
    pub(crate) taken: u64,
    pub(crate) noted: u64,
    pub(crate) alloc: Global,
    ghost whole: { (lines_of (bytes_of change)).rest ≡ [] },
}
