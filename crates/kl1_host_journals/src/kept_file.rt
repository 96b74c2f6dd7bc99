// The file of an account, with what it holds.

ghost use Rattle.std.specs.Prelude.{◌≡◌, ◌≤◌, IfOk, OnOk, IfErr, IsTrue, IsErr, true, false, option_map};
ghost use Rattle.std.proofs.Props.{props};
ghost use Rattle.kl1_log.specs.Files.{AtAnyMoment, is_at_rest};
ghost use Rattle.kl1_log.specs.Batches.{text_of, IsLeftOfKnown};
ghost use Rattle.kl1_log.specs.LogFiles.{disk_of, account_of as account_of_file, changes_of, IsKept, IsFailed};
ghost use Rattle.kl1_log.specs.Receipts as receipts;
ghost use Rattle.kl1_host_journals.specs.Places.{account_of, log_of, edition_of};
ghost use Rattle.kl1_host_journals.specs.Parcels.{batch_of, end_of};
ghost use Rattle.kl1_host_journals.specs.StoredPlaces.{receipt_of, place_of as stored_place_of};
ghost use Rattle.kl1_host_journals.specs.Texts.{IsTextOf};

use crate::history::Naming;
use crate::parcel::Parcel;
use crate::place::Place;
use crate::stored::Stored;
use kl1_log::{Disk, LogError, LogFile};

/// The file of an account with what it holds, as long as no call of it has failed.
pub struct KeptFile<D: Disk, J: Naming> {
    pub(crate) file: LogFile<D>,
    pub(crate) place: Place<J>,
    ghost account: { account_of place ≡ account_of_file file },
    ghost number: { (edition_of place).number ≡ changes_of file },
    ghost text: { IsTrue (D.is_usable (disk_of file)) → text_of (D.known (disk_of file)) ≡ option_map (λ _. (edition_of place).text) (D.known (disk_of file)) } by { Prim.hlevel props },
}

/// Not derived, so that crates above don't prove the drop of each part again.
impl<D: Disk + Drop, J: Naming> Drop for KeptFile<D, J> {
    fn drop(self) {
        let KeptFile { file, place } = self;
        let _ = (file, place);
    }
}

impl<D: Disk, J: Naming> KeptFile<D, J> {
    /// The file.
    pub fn file(&self) -> &LogFile<D>
        ensures { result.now ≡ self.now.file }
    {
        &self.file
    }

    /// The file alone.
    pub fn into_file(self) -> LogFile<D>
        ensures { result ≡ self.file }
    {
        let KeptFile { file, place } = self;
        let _ = place;
        file
    }

    /// What was noted for it so far, as far as it is written.
    pub fn place(&self) -> &Place<J>
        ensures { result.now ≡ self.now.place }
    {
        &self.place
    }

    /// Sees that there is room for a reset, if there is any.
    pub fn make_ready(&mut self)
        ensures known { D.known (disk_of self.new.file) ≡ D.known (disk_of self.old.file) }
        ensures usable { D.is_usable (disk_of self.new.file) ≡ D.is_usable (disk_of self.old.file) }
        ensures place { log_of self.new.place ≡ log_of self.old.place }
    {
        self.file.make_ready();
    }

    /// Whether it has all that was noted when this was taken.
    pub(crate) fn has(&self, parcel: &Parcel<J>) -> bool
        ensures { result ≡ true → (edition_of (end_of parcel.now)).number ≤ (edition_of self.now.place).number }
    {
        self.file.changes() == parcel.batch.noted
    }

    /// Writes what was taken, and has it on disk. On an error nothing that isn't on disk is told; after one of a call the file gets nothing more,
    /// and after one of memory it may be written again.
    #[tactic(auto, using(crate::proofs::KeptFiles::written_text, crate::proofs::KeptFiles::still_text))]
    pub fn write(&mut self, parcel: &Parcel<J>) -> Result<Stored<J>, LogError>
        ensures stored { IfOk result (λ s. log_of (stored_place_of s) ≡ log_of (end_of parcel.now)) }
        ensures receipt { IfOk result (λ s. (receipts.account_of (receipt_of s) ≡ account_of self.new.place) × (receipts.changes_of (receipt_of s) ≡ (edition_of self.new.place).number)) }
        ensures place { OnOk result (log_of self.new.place ≡ log_of (end_of parcel.now)) }
        ensures on_disk { OnOk result (IsTrue (is_at_rest (D.known (disk_of self.new.file))) × IsTextOf (D.known (disk_of self.new.file)) (edition_of (end_of parcel.now)).text) }
        ensures account { account_of self.new.place ≡ account_of self.old.place }
        ensures err { IsErr result → log_of self.new.place ≡ log_of self.old.place }
        ensures usable { OnOk result (D.is_usable (disk_of self.new.file) ≡ true) }
        ensures any_moment { AtAnyMoment (D.known (disk_of self.old.file)) (D.known (disk_of self.new.file)) (IsLeftOfKnown (D.known (disk_of self.old.file)) (batch_of parcel.now).change) }
        ensures kept { IfErr result (λ e. IsKept e (D.is_usable (disk_of self.new.file) ≡ true)) }
        ensures failed { IsFailed result → D.is_usable (disk_of self.new.file) ≡ false }
    {
        let receipt = self.file.write(&parcel.batch)?;
        // What the file held is what the batch was made for.
        self.place.shows_same(&parcel.from);
        self.place = parcel.to.again();
        Ok(Stored {
            receipt,
            place: parcel.to.again(),
        })
    }
}
