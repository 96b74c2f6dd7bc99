// What the scribe does to the file of an account's journal.

ghost use Rattle.std.specs.Prelude.{◌≡◌, IfOk, IfErr, OnOk, IsErr, IsTrue, true, false, option_map, MatchResult};
ghost use Rattle.kl1_log.specs.Files.{AtAnyMoment, is_at_rest};
ghost use Rattle.kl1_log.specs.Batches.{text_after, text_of, IsLeftOfKnown};
ghost use Rattle.kl1_log.specs.LogFiles.{account_of, changes_of, disk_of, IsCause, IsKept, IsFailed, IsUntouched};
ghost use Rattle.kl1_log.specs.Receipts as receipts;

use crate::batch::Batch;
use crate::disk::Disk;
use crate::log_error::LogError;
use crate::log_file::LogFile;
use crate::making::make;
use crate::receipt::Receipt;

impl<D: Disk> LogFile<D> {
    /// The file of this account, of which nothing was written yet that isn't on disk.
    pub fn new(disk: D, account: u32) -> Self
        requires { IsTrue (is_at_rest (D.known disk)) }
        ensures disk { disk_of result ≡ disk }
        ensures account { account_of result ≡ account }
        ensures changes { changes_of result ≡ 0 }
    {
        LogFile {
            disk,
            account,
            changes: 0,
            last: None,
        }
    }

    /// The disk.
    pub fn disk(&self) -> &D
        ensures { result.now ≡ disk_of self.now }
    {
        &self.disk
    }

    /// How many changes are on disk.
    pub fn changes(&self) -> u64
        ensures { result ≡ changes_of self.now }
    {
        self.changes
    }

    /// Sees that there is room for a reset, if there is any.
    pub fn make_ready(&mut self)
        ensures known { D.known (disk_of self.new) ≡ D.known (disk_of self.old) }
        ensures usable { D.is_usable (disk_of self.new) ≡ D.is_usable (disk_of self.old) }
        ensures account { account_of self.new ≡ account_of self.old }
        ensures changes { changes_of self.new ≡ changes_of self.old }
    {
        self.disk.make_ready();
    }

    /// Writes a batch, each line with its sum, and has it on disk. On an error nothing that isn't on disk is
    /// told; after one of a call the file gets nothing more, and after one of memory the batch may be written again.
    #[tactic(auto, using(crate::proofs::LastSums::unmade_rests, crate::proofs::LastSums::unmade_last, crate::proofs::LastSums::unmade_cause, crate::proofs::LastSums::unmade_kept, crate::proofs::LastSums::unmade_failed))]
    pub fn write(&mut self, batch: &Batch) -> Result<Receipt, LogError>
        ensures receipt { IfOk result (λ r. (receipts.account_of r ≡ batch.now.account) × (receipts.changes_of r ≡ batch.now.noted)) }
        ensures next { OnOk result ((batch.now.account ≡ account_of self.old) × (batch.now.taken ≡ changes_of self.old)) }
        ensures on_disk { OnOk result (IsTrue (is_at_rest (D.known (disk_of self.new))) × (text_of (D.known (disk_of self.new)) ≡ option_map (λ text. text_after text batch.now.change) (text_of (D.known (disk_of self.old))))) }
        ensures usable { OnOk result (D.is_usable (disk_of self.new) ≡ true) }
        ensures any_moment { AtAnyMoment (D.known (disk_of self.old)) (D.known (disk_of self.new)) (IsLeftOfKnown (D.known (disk_of self.old)) batch.now.change) }
        ensures stopped { D.is_usable (disk_of self.old) ≡ false → IsErr result × (D.known (disk_of self.new) ≡ D.known (disk_of self.old)) × (D.is_usable (disk_of self.new) ≡ false) }
        ensures cause { IfErr result (IsCause (D.is_usable (disk_of self.old)) ((batch.now.account ≡ account_of self.old) × (batch.now.taken ≡ changes_of self.old))) }
        ensures kept { IfErr result (λ e. IsKept e ((D.known (disk_of self.new) ≡ D.known (disk_of self.old)) × (D.is_usable (disk_of self.new) ≡ true))) }
        ensures untouched { IsUntouched result → (D.known (disk_of self.new) ≡ D.known (disk_of self.old)) × (D.is_usable (disk_of self.new) ≡ D.is_usable (disk_of self.old)) }
        ensures failed { IsFailed result → D.is_usable (disk_of self.new) ≡ false }
        ensures count { (account_of self.new ≡ account_of self.old) × MatchResult result (λ r. changes_of self.new ≡ receipts.changes_of r) (λ _. changes_of self.new ≡ changes_of self.old) }
    {
        if !self.disk.may_be_used() {
            return Err(LogError::Stopped);
        }
        if batch.account != self.account || batch.taken != self.changes {
            return Err(LogError::NotNext);
        }
        self.last = make(&mut self.disk, &self.last, &batch.change)?;
        self.changes = batch.noted;
        Ok(Receipt::new(self.account, self.changes))
    }
}
