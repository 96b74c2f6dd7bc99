// A file of which all is on disk.

ghost use Rattle.std.specs.Prelude.{IsTrue};
ghost use Rattle.kl1_log.specs.Files.{is_at_rest};

use kl1_log::Disk;

/// The file of a journal, no call of which has failed, and all of which is on disk.
#[derive(Drop)]
pub struct RestingFile<D: Disk> {
    disk: D,
    ghost usable: { IsTrue (D.is_usable disk) },
    ghost at_rest: { IsTrue (is_at_rest (D.known disk)) },
}

impl<D: Disk> RestingFile<D> {
    /// A file of which all is on disk.
    pub(crate) fn new(disk: D) -> Self
        requires usable { IsTrue (D.is_usable disk) }
        requires at_rest { IsTrue (is_at_rest (D.known disk)) }
    {
        RestingFile { disk }
    }

    /// The file.
    pub(crate) fn into_disk(self) -> D
        ensures usable { IsTrue (D.is_usable result) }
        ensures at_rest { IsTrue (is_at_rest (D.known result)) }
    {
        self.disk
    }
}
