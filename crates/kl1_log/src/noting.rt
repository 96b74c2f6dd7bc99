// How what waits for a file comes together, and is taken.

ghost use Rattle.std.specs.Prelude.{◌≡◌, ◌+◌, [], ℕ, List, IfOk, OnOk, OnErr};
ghost use mathlib.Core.List.{IsPrefix};
ghost use Rattle.kl1_model_server.specs.Journal as model;
ghost use Rattle.kl1_sums.specs.Sums.{summed_text};
ghost use Rattle.kl1_log.specs.Deeds.{shut_text};
ghost use Rattle.kl1_log.specs.Later.{IsLater};
ghost use Rattle.kl1_log.specs.Batches.{text_after};
ghost use Rattle.kl1_log.specs.Waits.{account_of, taken_of, noted_of, mark_of, change_of, IsCounted, IsUpTo, CountsOn, Keeps, IsTaken};

use crate::batch::Batch;
use crate::change::Change;
use crate::growth::{Growth, begun, grown};
use crate::waiting::Waiting;
use kl1_journal_entries::Journal;
use kl1_sums::{Sum, with_sums};
use std::alloc::{AllocError, Global};
use std::mem;

/// How many changes are noted after one by which the file gets these bytes: it is none if there are none.
fn noted_after(noted: u64, bytes: &[u8]) -> Result<u64, AllocError>
    ensures { IfOk result (λ n. IsCounted noted bytes.now n) }
{
    if bytes.is_empty() {
        return Ok(noted);
    }
    noted.checked_add(1).ok_or(AllocError)
}

impl Waiting {
    /// What waits for a file of this account that has the bytes `text`: nothing, if they are the text of the journal with no session open, each
    /// line with its sum, and otherwise that the file is begun anew.
    pub fn over(
        alloc: Global,
        account: u32,
        text: &[u8],
        journal: &Journal,
    ) -> Result<Self, AllocError>
        ensures file { IfOk result (λ w. IsUpTo w text.now journal.now.journal) }
        ensures same { IfOk result (λ w. text.now ≡ summed_text [] (shut_text journal.now.journal) → noted_of w ≡ 0) }
        ensures account { IfOk result (λ w. (account_of w ≡ account) × (taken_of w ≡ 0)) }
    {
        let Growth { bytes, mark } = begun(alloc, journal)?;
        if text == with_sums(alloc, Sum::none(), &bytes)?.bytes.as_slice() {
            return Ok(Waiting {
                account,
                mark,
                change: Change::Appends(Vec::new(alloc)),
                taken: 0,
                noted: 0,
                alloc,
            });
        }
        Ok(Waiting {
            account,
            mark,
            change: Change::Begins(bytes),
            taken: 0,
            noted: 1,
            alloc,
        })
    }

    /// Notes what has come to the journal by events that are no reset. If nothing has, no change is counted.
    #[tactic(auto, using(crate::proofs::Waits::counted_on))]
    pub fn note(&mut self, journal: &Journal) -> Result<(), AllocError>
        ensures ok { OnOk result ((text : List ℕ) (old : model.Journal) → IsUpTo self.old text old → IsLater old journal.now.journal → IsUpTo self.new text journal.now.journal) }
        ensures count { OnOk result (CountsOn self.old self.new) }
        ensures longer { OnOk result ((text : List ℕ) → IsPrefix (text_after text (change_of self.old)) (text_after text (change_of self.new))) }
        ensures err { OnErr result (Keeps self.old self.new) }
    {
        let Growth { bytes, mark } = grown(self.alloc, journal, self.mark)?;
        let noted = noted_after(self.noted, bytes.as_slice())?;
        self.change.extend(&bytes)?;
        self.mark = mark;
        self.noted = noted;
        Ok(())
    }

    /// Notes that the journal has begun anew.
    pub fn note_reset(&mut self, journal: &Journal) -> Result<(), AllocError>
        ensures ok { OnOk result ((text : List ℕ) → IsUpTo self.new text journal.now.journal) }
        ensures count { OnOk result (CountsOn self.old self.new) }
        ensures one { OnOk result (noted_of self.new ≡ noted_of self.old + 1) }
        ensures err { OnErr result (Keeps self.old self.new) }
    {
        let Growth { bytes, mark } = begun(self.alloc, journal)?;
        self.noted = self.noted.checked_add(1).ok_or(AllocError)?;
        self.change = Change::Begins(bytes);
        self.mark = mark;
        Ok(())
    }

    /// Takes what waits, after which nothing does.
    #[tactic(auto, using(crate::proofs::Waits::taken_file, crate::proofs::Waits::taken_fits))]
    pub fn take(&mut self) -> Batch
        ensures file { (text : List ℕ) (j : model.Journal) → IsUpTo self.old text j → IsUpTo self.new (text_after text result.change) j }
        ensures taken { IsTaken self.old self.new result }
        ensures none { (text : List ℕ) → text_after text (change_of self.new) ≡ text }
        ensures mark { mark_of self.new ≡ mark_of self.old }
    {
        let change = mem::replace(&mut self.change, Change::Appends(Vec::new(self.alloc)));
        let taken = self.taken;
        self.taken = self.noted;
        Batch {
            account: self.account,
            taken,
            noted: self.noted,
            change,
        }
    }

    /// How many bytes wait.
    pub fn bytes(&self) -> usize {
        self.change.len()
    }

    /// The account that it is for.
    pub(crate) fn account(&self) -> u32
        ensures { result ≡ account_of self.now }
    {
        self.account
    }

    /// How many changes were noted.
    pub(crate) fn noted(&self) -> u64
        ensures { result ≡ noted_of self.now }
    {
        self.noted
    }
}
