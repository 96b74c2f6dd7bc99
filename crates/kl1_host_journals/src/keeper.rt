// What of an account waits for its file, under a lock, and how far it is on disk.

ghost use Rattle.std.specs.Prelude.{◌≡◌, ◌≤◌, Some, slice_get, IfSome};
ghost use Rattle.kl1_journal_stamps.specs.Stamps.{IsStampOf};
ghost use Rattle.kl1_host_journals.specs.Outgoings.{IsNotedFor};
ghost use Rattle.kl1_host_journals.specs.Parcels.{end_of};
ghost use Rattle.kl1_host_journals.specs.Places.{edition_of};

use crate::bell::Bell;
use crate::history::Naming;
use crate::leave::Connecting;
use crate::notebook::Notebook;
use crate::on_disk::OnDisk;
use crate::outgoing::Outgoing;
use crate::parcel::Parcel;
use crate::place::Place;
use crate::written::Written;
use kl1_journal_entries::Journal;
use kl1_journal_stamps::Stamp;
use std::mem;
use std::sync::atomic::{AtomicBool, Ordering};
use std::sync::{Mutex, Wait};

/// What of an account waits for its file, and how far it is on disk. Its lock is held for short, and no other is taken meanwhile: it may be
/// taken under the account's lock.
pub struct Keeper<J: Naming> {
    /// None if the account's history couldn't go on, which never is so.
    notebook: Mutex<Option<Notebook<J>>>,
    on_disk: OnDisk<J>,
    /// What wakes the account's scribe.
    bell: Bell,
    /// Whether the scribe asks whoever commands the account next to note it.
    is_due: AtomicBool,
}

/// Not derived, so that crates above don't prove the drop of each part again.
impl<J: Naming> Drop for Keeper<J> {
    fn drop(self) {
        let Keeper {
            notebook,
            on_disk,
            bell,
            is_due,
        } = self;
        let _ = (notebook, on_disk, bell, is_due);
    }
}

impl<J: Naming> Keeper<J> {
    /// A keeper of this notebook, of which all is on disk that this tells.
    pub fn new(notebook: Notebook<J>, written: Written<J>) -> Self {
        Keeper {
            notebook: Mutex::new(Some(notebook)),
            on_disk: OnDisk::new(written),
            bell: Bell::new(),
            is_due: AtomicBool::new(false),
        }
    }

    /// How far the account is on disk.
    pub fn on_disk(&self) -> &OnDisk<J> {
        &self.on_disk
    }

    /// What wakes the account's scribe.
    pub fn bell(&self) -> &Bell {
        &self.bell
    }

    /// Notes what has come to the journal of this account, which was shown with this stamp, and lets the leave to write wait until that is
    /// on disk. The leave is lost if memory is refused, or if the notes are of another account or of a journal that was shown later, which
    /// never is so.
    pub fn note_for<W: Wait, C: Connecting>(
        &self,
        rt: &W,
        account: usize,
        journal: &Journal,
        generation: u64,
        stamp: &Stamp,
        outgoing: Outgoing<J, C>,
    ) -> Outgoing<J, C>
        requires history { slice_get J.histories account ≡ Some stamp.now.history }
        requires stamp { IsStampOf journal.now.journal generation stamp.now }
        ensures { IsNotedFor journal.now.journal generation result }
    {
        let mut guard = self.notebook.lock(rt);
        let Some(notebook) = mem::replace(&mut *guard, None) else {
            return Outgoing::Lost;
        };
        let (notebook, outgoing) = notebook.note_for(account, journal, generation, stamp, outgoing);
        *guard = notebook;
        outgoing
    }

    /// How many bytes wait.
    pub fn waiting_bytes<W: Wait>(&self, rt: &W) -> usize {
        match &*self.notebook.lock(rt) {
            Some(notebook) => notebook.bytes(),
            None => 0,
        }
    }

    /// Takes what waits, which may be nothing: then all is taken that was noted up to a place. `None` if the account's history couldn't go on,
    /// which never is so.
    pub(crate) fn take<W: Wait>(&self, rt: &W, noted: &Place<J>) -> Option<Parcel<J>>
        ensures { IfSome result (λ p. (edition_of noted.now).number ≤ (edition_of (end_of p)).number) }
    {
        let mut guard = self.notebook.lock(rt);
        let notebook = mem::replace(&mut *guard, None)?;
        let has_all = notebook.has(noted);
        let (notebook, parcel) = notebook.taken();
        *guard = Some(notebook);
        if has_all { Some(parcel) } else { None }
    }

    /// Asks whoever commands the account next to note it.
    pub fn call_for_notes(&self) {
        self.is_due.store(true, Ordering::SeqCst);
    }

    /// Whether the account is to be noted, which isn't asked again then.
    pub fn is_called(&self) -> bool {
        self.is_due.load(Ordering::SeqCst) && self.is_due.swap(false, Ordering::SeqCst)
    }
}
