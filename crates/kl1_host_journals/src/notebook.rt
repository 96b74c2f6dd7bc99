// What of an account's journal was noted for its file, in its history.

ghost use Rattle.std.specs.Prelude.{◌≡◌, ◌≤◌, true, Some, slice_get, length, IfOk, IfErr, IfSome, IsTrue};
ghost use Rattle.std.specs.Coded.{codes};
ghost use Rattle.kl1_journal_entries.specs.Codes.{journal_code};
ghost use Rattle.kl1_journal_stamps.specs.Stamps.{ComesAfter, IsAfter, IsStampOf};
ghost use Rattle.kl1_log.specs.Waits.{account_of as account_of_waiting, taken_of, noted_of, mark_of};
ghost use Rattle.kl1_log.specs.Batches.{text_after};
ghost use Rattle.kl1_log.specs.Deeds.{HasSums};
ghost use Rattle.kl1_log.specs.Receipts.{waits_for};
ghost use Rattle.kl1_host_journals.specs.Notes.{waiting_of, generation_of, number_of, change_of, TakesIn, KeepsAll};
ghost use Rattle.kl1_host_journals.specs.Editions.{last_of, lines_of, run_of, IsNoteOf};
ghost use Rattle.kl1_host_journals.specs.Notings.{IsNotedOver, IsMarked};
ghost use Rattle.kl1_host_journals.specs.Places.{account_of, log_of, edition_of, account_of_history, log_of_history};
ghost use Rattle.kl1_host_journals.specs.Parcels.{begin_of, end_of};
ghost use Rattle.kl1_host_journals.specs.Outgoings.{IsHeld, IsNotedFor};

use crate::drafts::{Draft, GoOn};
use crate::held::Held;
use crate::history::{History, Naming};
use crate::leave::{Connecting, SendPermit};
use crate::notes::Notes;
use crate::outgoing::Outgoing;
use crate::parcel::Parcel;
use crate::place::Place;
use kl1_journal_entries::Journal;
use kl1_journal_stamps::Stamp;
use kl1_log::Unsent;
use std::alloc::AllocError;
use std::snapshot::Snapshot;

/// What of an account's journal waits for its file, with the account's history: the file is to hold what was noted last, once it has got
/// what waits. The stamp is that of the journal that was noted last.
#[derive(Drop)]
pub struct Notebook<J: Naming> {
    pub(crate) notes: Notes,
    pub(crate) history: History<J>,
    /// What had been noted when a change was taken last.
    pub(crate) taken: Place<J>,
    pub(crate) stamp: Stamp,
    ghost account: { account_of_history history ≡ account_of_waiting (waiting_of notes) },
    ghost taken_account: { account_of taken ≡ account_of_waiting (waiting_of notes) },
    ghost some: { 1 ≤ length (log_of_history history) },
    ghost number: { (last_of (log_of_history history)).number ≡ number_of notes },
    ghost taken_number: { (edition_of taken).number ≡ taken_of (waiting_of notes) },
    ghost generation: { (last_of (log_of_history history)).generation ≡ generation_of notes },
    ghost text: { (last_of (log_of_history history)).text ≡ text_after (edition_of taken).text (change_of notes) },
    ghost sums: { HasSums (edition_of taken).text },
    ghost lines: { (mark_of (waiting_of notes)).lines ≡ lines_of (last_of (log_of_history history)) },
    ghost run: { (mark_of (waiting_of notes)).run ≡ run_of (last_of (log_of_history history)) },
    ghost stamp_history: { slice_get J.histories (account_of_waiting (waiting_of notes)) ≡ Some stamp.history },
    ghost stamp_journal: { stamp.journal ≡ (last_of (log_of_history history)).journal.journal } by { Prim.hlevel (codes, journal_code) },
    ghost stamp_generation: { stamp.generation ≡ generation_of notes },
}

impl<J: Naming> Notebook<J> {
    /// What is noted with a journal that `notes`, which were `old`, have just taken in. An error if the history has other editions, which never
    /// is so.
    fn edited(
        old: Snapshot<Notes>,
        notes: Notes,
        history: History<J>,
        taken: Place<J>,
        journal: &Journal,
        generation: u64,
        stamp: &Stamp,
    ) -> Result<Self, AllocError>
        requires account { (account_of_history history ≡ account_of_waiting (waiting_of notes)) × (account_of taken ≡ account_of_waiting (waiting_of notes)) }
        requires taken { (edition_of taken).number ≡ taken_of (waiting_of notes) }
        requires some { 1 ≤ length (log_of_history history) }
        requires over { IsNotedOver (edition_of taken).text old.value (last_of (log_of_history history)) }
        requires marked { IsMarked old.value (log_of_history history) }
        requires sums { HasSums (edition_of taken).text }
        requires takes { TakesIn old.value notes journal.now.journal generation }
        requires later { ComesAfter (last_of (log_of_history history)).generation (last_of (log_of_history history)).journal.journal generation journal.now.journal }
        requires history { slice_get J.histories (account_of_waiting (waiting_of notes)) ≡ Some stamp.now.history }
        requires stamp { IsStampOf journal.now.journal generation stamp.now }
        ensures { IfOk result (λ n. IsNoteOf (last_of (log_of_history n.history)) journal.now.journal generation) }
    {
        let _ = (old, generation);
        let mut history = history;
        // That the last text is a file of the journal that was noted last.
        history.place().shows_dated();
        let draft = Draft {
            notes: Snapshot::of(&notes),
            journal: Snapshot::of(journal),
            taken: taken.seen.again(),
        };
        match history.add::<Draft, GoOn>(&draft) {
            Ok(()) => Ok(Notebook {
                notes,
                history,
                taken,
                stamp: stamp.again(),
            }),
            Err(refused) => Err(refused),
        }
    }

    /// Whether the stamp of a journal of this account comes after that of the journal that was noted last.
    fn is_followed_by(&self, account: usize, stamp: &Stamp) -> bool
        requires { slice_get J.histories account ≡ Some stamp.now.history }
        ensures account { IsTrue result → account ≡ account_of_waiting (waiting_of self.now.notes) }
        ensures after { IsTrue result → IsAfter self.now.stamp stamp.now }
    {
        if self.taken.account() as usize != account {
            return false;
        }
        stamp.comes_after(&self.stamp)
    }

    /// What is noted once this journal of this account was taken in. On an error memory was refused, or it is of another account, or was
    /// shown before the one that was noted last, which never is so; then all is left as it was. `None` with it if the history has other
    /// editions, which never is so.
    fn taken_in(
        self,
        account: usize,
        journal: &Journal,
        generation: u64,
        stamp: &Stamp,
    ) -> Result<Self, Option<Self>>
        requires history { slice_get J.histories account ≡ Some stamp.now.history }
        requires stamp { IsStampOf journal.now.journal generation stamp.now }
        ensures ok { IfOk result (λ n. IsNoteOf (last_of (log_of_history n.history)) journal.now.journal generation) }
        ensures err { IfErr result (λ left. IfSome left (λ n. KeepsAll self.notes n.notes × (log_of_history n.history ≡ log_of_history self.history))) }
    {
        if !self.is_followed_by(account, stamp) {
            return Err(Some(self));
        }
        let Notebook {
            notes,
            history,
            taken,
            stamp: before,
        } = self;
        let mut notes = notes;
        let old = Snapshot::of(&notes);
        match notes.take_in(journal, generation) {
            Ok(()) => match Notebook::edited(
                old, notes, history, taken, journal, generation, stamp,
            ) {
                Ok(notebook) => Ok(notebook),
                Err(_) => Err(None),
            },
            Err(_) => Err(Some(Notebook {
                notes,
                history,
                taken,
                stamp: before,
            })),
        }
    }

    /// How many bytes wait.
    pub(crate) fn bytes(&self) -> usize {
        self.notes.bytes()
    }

    /// Whether all was noted that was noted up to a place, which always is so of the same account.
    pub(crate) fn has(&self, noted: &Place<J>) -> bool
        ensures { result ≡ true → (edition_of noted.now).number ≤ (last_of (log_of_history self.now.history)).number }
    {
        self.history.has(noted)
    }

    /// What is noted once all that waits was taken, which is nothing new, and what was taken.
    #[tactic(auto, using(crate::proofs::Noting::dated_sums))]
    pub(crate) fn taken(self) -> (Self, Parcel<J>)
        ensures log { log_of_history result.0.history ≡ log_of_history self.history }
        ensures begin { begin_of result.1 ≡ self.taken }
        ensures end { log_of (end_of result.1) ≡ log_of_history self.history }
    {
        let Notebook {
            notes,
            history,
            taken,
            stamp,
        } = self;
        let mut notes = notes;
        let batch = notes.take();
        let to = history.place();
        // That what the file is to hold then is a file of a journal.
        to.shows_dated();
        let parcel = Parcel {
            batch,
            from: taken,
            to: to.again(),
        };
        (
            Notebook {
                notes,
                history,
                taken: to,
                stamp,
            },
            parcel,
        )
    }

    /// A leave to write that waits until all is on disk that was noted.
    fn waiting<C: Connecting>(&self, unsent: Unsent<SendPermit<C>>) -> Outgoing<J, C>
        requires { waits_for unsent ≡ (account_of_waiting (waiting_of self.now.notes), noted_of (waiting_of self.now.notes)) }
        ensures { IsHeld (log_of_history self.now.history) result }
    {
        Outgoing::Waits(Held {
            unsent,
            place: self.history.place(),
        })
    }

    /// Lets the leave to write wait until all is on disk that was noted. It is lost if it waits for another account.
    fn hold<C: Connecting>(&self, outgoing: Outgoing<J, C>) -> Outgoing<J, C>
        ensures { IsHeld (log_of_history self.now.history) result }
    {
        match outgoing {
            Outgoing::Free(permit) => self.waiting(Unsent::new(permit, &self.notes.waiting)),
            Outgoing::Waits(held) => match held.unsent.renewed(&self.notes.waiting) {
                Ok(unsent) => self.waiting(unsent),
                Err(_) => Outgoing::Lost,
            },
            Outgoing::Lost => Outgoing::Lost,
        }
    }

    /// What is noted once this journal of this account was taken in, and the leave to write, which waits until all is on disk that was noted.
    /// If memory is refused, the leave is lost.
    pub(crate) fn note_for<C: Connecting>(
        self,
        account: usize,
        journal: &Journal,
        generation: u64,
        stamp: &Stamp,
        outgoing: Outgoing<J, C>,
    ) -> (Option<Self>, Outgoing<J, C>)
        requires history { slice_get J.histories account ≡ Some stamp.now.history }
        requires stamp { IsStampOf journal.now.journal generation stamp.now }
        ensures { IsNotedFor journal.now.journal generation result.1 }
    {
        match self.taken_in(account, journal, generation, stamp) {
            Ok(notebook) => {
                let outgoing = notebook.hold(outgoing);
                (Some(notebook), outgoing)
            }
            Err(notebook) => (notebook, Outgoing::Lost),
        }
    }
}
