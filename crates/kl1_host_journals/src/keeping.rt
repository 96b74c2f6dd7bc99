// What was on disk, and what the next start reads.

ghost use Rattle.std.specs.Prelude.{◌≡◌, ◌≤◌, IsTrue};
ghost use Rattle.kl1_log.specs.Files.{IfKnown};
ghost use Rattle.kl1_log.specs.LogFiles.{disk_of};
ghost use Rattle.kl1_host_journals.specs.Keeping.{CrashesKeepDeeds, Keeps};
ghost use Rattle.kl1_host_journals.specs.KeptFiles.{file_of, place_of as place_of_file};
ghost use Rattle.kl1_host_journals.specs.Places.{account_of, log_of, edition_of};
ghost use Rattle.kl1_host_journals.specs.StoredPlaces.{place_of};

use crate::history::Naming;
use crate::kept_file::KeptFile;
use crate::stored::Stored;
use kl1_log::Disk;

/// While bytes are put after those of a file, each crash leaves what the next start reads with all deeds of a journal whose file stood at
/// its beginning. It does nothing: its contract is this law.
pub fn crashes_keep_deeds()
    ensures { CrashesKeepDeeds }
{}

impl<D: Disk, J: Naming> KeptFile<D, J> {
    /// That whatever a crash leaves of the file now, the next start reads what was noted up to a receipt of this account.
    pub fn shows_kept(&self, stored: &Stored<J>)
        requires usable { IsTrue (D.is_usable (disk_of (file_of self.now))) }
        requires account { account_of (place_of stored.now) ≡ account_of (place_of_file self.now) }
        requires number { (edition_of (place_of stored.now)).number ≤ (edition_of (place_of_file self.now)).number }
        ensures { IfKnown (D.known (disk_of (file_of self.now))) (Keeps (log_of (place_of stored.now)) (log_of (place_of_file self.now))) }
    {
        stored.place.shows_stands(&self.place);
        stored.place.shows_dated();
        self.place.shows_dated();
    }
}
