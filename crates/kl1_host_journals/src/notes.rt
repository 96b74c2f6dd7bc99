// What of an account's journal waits for its file, with its generation.

ghost use Rattle.std.specs.Prelude.{◌≡◌, ℕ, List, OnOk, OnErr};
ghost use Rattle.kl1_model_server.specs.Journal as model;
ghost use Rattle.kl1_log.specs.Batches.{text_after};
ghost use Rattle.kl1_log.specs.Waits.{IsTaken, IsUpTo, mark_of};
ghost use Rattle.kl1_host_journals.specs.Notes.{waiting_of, generation_of, change_of, TakesIn, KeepsAll};

use kl1_journal_entries::Journal;
use kl1_log::{Batch, Waiting};
use std::alloc::AllocError;

/// What of an account's journal waits for its file; and the generation of the journal that was noted last, which is how many events the
/// journals had that resets ended.
#[derive(Drop)]
pub struct Notes {
    pub(crate) waiting: Waiting,
    pub(crate) generation: u64,
}

impl Notes {
    /// What waits for a journal of this generation.
    pub fn new(waiting: Waiting, generation: u64) -> Self
        ensures waiting { waiting_of result ≡ waiting }
        ensures generation { generation_of result ≡ generation }
    {
        Notes {
            waiting,
            generation,
        }
    }

    /// Notes what has come to the journal, or that it has begun anew if it is of another generation.
    pub fn take_in(&mut self, journal: &Journal, generation: u64) -> Result<(), AllocError>
        ensures ok { OnOk result (TakesIn self.old self.new journal.now.journal generation) }
        ensures err { OnErr result (KeepsAll self.old self.new) }
    {
        if generation == self.generation {
            self.waiting.note(journal)?;
            return Ok(());
        }
        self.waiting.note_reset(journal)?;
        self.generation = generation;
        Ok(())
    }

    /// How many bytes wait.
    pub fn bytes(&self) -> usize {
        self.waiting.bytes()
    }

    /// Takes what waits, after which nothing does.
    pub fn take(&mut self) -> Batch
        ensures taken { IsTaken (waiting_of self.old) (waiting_of self.new) result }
        ensures file { (text : List ℕ) (j : model.Journal) → IsUpTo (waiting_of self.old) text j → IsUpTo (waiting_of self.new) (text_after text result.change) j }
        ensures none { (text : List ℕ) → text_after text (change_of self.new) ≡ text }
        ensures mark { mark_of (waiting_of self.new) ≡ mark_of (waiting_of self.old) }
        ensures generation { generation_of self.new ≡ generation_of self.old }
    {
        self.waiting.take()
    }
}
