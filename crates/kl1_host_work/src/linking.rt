// The file of an account, which comes with the account and is linked with its journal.

ghost use Rattle.std.specs.Prelude.{◌≡◌, IfOk};
ghost use Rattle.kl1_journal_stamps.specs.Stamps.{IsStampOf};
ghost use Rattle.kl1_host_work.specs.Linkages.{IsOwnOf, IsRead, Takes};

use crate::account_place::AccountPlace;
use crate::histories::OwnHistory;
use kl1_host_journals::{LinkFault, Linked, Naming, OpenedFile, RestingFile, link};
use kl1_journal_entries::Journal;
use kl1_journal_stamps::Stamp;
use kl1_log::Disk;
use kl1_pool::{JournalReader, Meter, Newcomer};
use std::alloc::Global;
use std::mem;

/// How far it is with a file.
#[derive(Drop)]
pub(crate) enum Linkage<D: Disk, J: Naming> {
    /// It isn't linked yet. The history is that of its account, and begins with it.
    Unlinked(RestingFile<D>, OwnHistory<J>),
    /// It is linked with the journal that was shown.
    Linked(Linked<D, J>),
    /// It can't be linked.
    Failed(LinkFault),
}

/// Comes with an account: with the journal of its file, which is linked with the account's journal. The place is told how far it is.
#[derive(Drop)]
pub(crate) struct Linking<'p, D: Disk, J: Naming> {
    alloc: Global,
    place: &'p AccountPlace,
    pub(crate) opened: OpenedFile<D>,
    linkage: Linkage<D, J>,
}

/// Links a file with a journal, if it isn't linked yet.
fn linked<D: Disk + Drop, J: Naming>(
    alloc: Global,
    linkage: Linkage<D, J>,
    journal: &Journal,
    ended: u64,
    stamp: &Stamp,
) -> Linkage<D, J>
    requires takes { Takes linkage stamp.now }
    requires stamp { IsStampOf journal.now.journal ended stamp.now }
    ensures { IsRead linkage result journal.now.journal ended }
{
    match linkage {
        Linkage::Unlinked(file, own) => {
            let OwnHistory { account, fresh, .. } = own;
            match link(alloc, file, account, journal, ended, fresh, stamp) {
                Ok(linked) => Linkage::Linked(linked),
                Err(fault) => Linkage::Failed(fault),
            }
        }
        Linkage::Linked(linked) => Linkage::Linked(linked),
        Linkage::Failed(fault) => Linkage::Failed(fault),
    }
}

/// How far it is with a file of this history, if there is one.
fn unlinked<D: Disk + Drop, J: Naming>(
    file: Option<RestingFile<D>>,
    own: OwnHistory<J>,
) -> Linkage<D, J>
    ensures { IsOwnOf own.account result }
{
    match file {
        Some(file) => Linkage::Unlinked(file, own),
        None => Linkage::Failed(LinkFault::Memory),
    }
}

impl<D: Disk + Drop, J: Naming> JournalReader for Linking<'_, D, J> {
    ghost use Rattle.kl1_host_work.specs.Linkages.{IsRead, Takes};

    ghost takes = { λ l s. Takes l.linkage s };

    ghost reads = { λ before after journal ended. IsRead before.linkage after.linkage journal ended };

    fn read(&mut self, journal: &Journal, ended: u64, stamp: &Stamp) {
        let linkage = mem::replace(&mut self.linkage, Linkage::Failed(LinkFault::Memory));
        self.linkage = linked(self.alloc, linkage, journal, ended, stamp);
    }
}

impl<D: Disk + Drop, J: Naming> Meter for Linking<'_, D, J> {
    fn goes_on(&self, events: u64) -> bool {
        self.place.goes_on(events)
    }
}

impl<D: Disk + Drop, J: Naming> Newcomer for Linking<'_, D, J> {
    ghost brings = { λ l. l.opened.journal };

    fn journal(&self) -> &Journal {
        self.opened.journal()
    }
}

impl<'p, D: Disk + Drop, J: Naming> Linking<'p, D, J> {
    /// The file of the account of a place, with its history, which begins with it. A file that was taken before can't be linked.
    pub(crate) fn new(
        alloc: Global,
        place: &'p AccountPlace,
        opened: OpenedFile<D>,
        own: OwnHistory<J>,
    ) -> Self
        ensures account { IsOwnOf own.account result.linkage }
        ensures journal { result.opened.journal ≡ opened.journal }
    {
        let mut opened = opened;
        let file = opened.take_file();
        Linking {
            alloc,
            place,
            opened,
            linkage: unlinked(file, own),
        }
    }

    /// The file, with what waits for it.
    pub(crate) fn into_linked(self) -> Result<Linked<D, J>, LinkFault>
        ensures { IfOk result (λ l. self.entry.linkage ≡ Linkage.Linked l) }
    {
        let Linking { linkage, .. } = self;
        match linkage {
            Linkage::Linked(linked) => Ok(linked),
            Linkage::Failed(fault) => Err(fault),
            Linkage::Unlinked(..) => Err(LinkFault::Memory),
        }
    }
}
