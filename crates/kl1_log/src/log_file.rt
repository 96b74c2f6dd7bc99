// The file of an account's journal.

ghost use Rattle.std.specs.Prelude.{IsTrue};
ghost use Rattle.kl1_log.specs.Batches.{text_of};
ghost use Rattle.kl1_log.specs.Files.{is_at_rest};
ghost use Rattle.kl1_log.specs.LastSums.{is_last_sum};

use crate::disk::Disk;
use kl1_sums::Sum;

/// The file of an account's journal: all that was written is on disk, as long as no call of it has failed.
pub struct LogFile<D: Disk> {
    pub(crate) disk: D,
    pub(crate) account: u32,
    /// How many changes are on disk.
    pub(crate) changes: u64,
    /// The sum of its last line; `None` if it isn't known, and is to be read from the file.
    pub(crate) last: Option<Sum>,
    ghost at_rest: { IsTrue (D.is_usable disk) → IsTrue (is_at_rest (D.known disk)) },
    ghost sum: { IsTrue (D.is_usable disk) → IsTrue (is_last_sum last (text_of (D.known disk))) },
}

/// Not derived, so that crates above don't prove the drop of each part again.
impl<D: Disk + Drop> Drop for LogFile<D> {
    fn drop(self) {
        let LogFile {
            disk,
            account: _,
            changes: _,
            last: _,
        } = self;
        let _ = disk;
    }
}
