// Files in memory with their keepers.

ghost use Rattle.std.specs.Prelude.{◌≡◌, Some, slice_get};
ghost use Rattle.kl1_host_journals.specs.FreshHistories.{books_of};

use crate::journals::growing::{Growing, NewAccount};
use crate::sums::{file_of, text_in};
use kl1_host_journals::{
    FaultTeller, Keeper, KeeperPlace, KeptFile, LinkFault, Linked, Naming, Scribe, link, open_file,
};
use kl1_journal_entries::Journal;
use kl1_log::{LogError, Memory};
use kl1_model::Rules;
use std::alloc::{AllocError, Global};
use std::sync::Wait;
use std::sync::atomic::{AtomicU64, Ordering};

/// What a file costs that does all that is asked of it.
pub(crate) const ENOUGH: usize = 10_000;

/// The text of an account in which nothing has happened.
pub(crate) const FRESH: &[u8] = b"journal 4 0 0\n";

/// Counts the faults that are told, as the sum of 1 for account 0, 10 for account 1 and so on.
#[derive(Drop)]
pub(crate) struct Faults {
    pub(crate) told: AtomicU64,
}

impl Faults {
    /// None was told.
    pub(crate) fn new() -> Self {
        Faults {
            told: AtomicU64::new(0),
        }
    }

    /// What was told.
    pub(crate) fn told(&self) -> u64 {
        self.told.load(Ordering::SeqCst)
    }
}

impl FaultTeller for Faults {
    fn tell(&self, account: usize, _error: LogError) {
        let weight = if account == 0 { 1 } else { 10 };
        self.told.fetch_add(weight, Ordering::SeqCst);
    }
}

/// The journal that a text is.
pub(crate) fn journal_of(alloc: Global, text: &[u8]) -> Result<Journal, AllocError> {
    match Journal::read(alloc, text)? {
        Some(journal) => Ok(journal),
        None => Err(AllocError),
    }
}

/// A file in memory with these bytes, which does `left` calls and bytes, opened and linked with the journal of this text, of generation 0;
/// and that journal. None if a call of it failed.
pub(crate) fn linked<J: Naming>(
    alloc: Global,
    account: u32,
    bytes: &[u8],
    text: &[u8],
    left: usize,
    start: NewAccount,
) -> Result<Option<(Linked<Memory, J>, Growing<J>)>, AllocError>
    requires books { books_of start.fresh ≡ J.books account }
    requires history { slice_get J.histories account ≡ Some start.shown.history }
{
    let NewAccount { fresh, shown } = start;
    let mut growing = Growing::<J>::new(account, journal_of(alloc, text)?, shown);
    let Some(stamp) = growing.show() else {
        return Ok(None);
    };
    let disk = Memory::new(alloc, Vec::from_slice(alloc, bytes)?, left);
    let Ok(opened) = open_file(alloc, disk, Rules::Four, false) else {
        return Ok(None);
    };
    let mut opened = opened;
    let Some(file) = opened.take_file() else {
        return Ok(None);
    };
    match link(alloc, file, account, growing.journal(), 0, fresh, &stamp) {
        Ok(linked) => Ok(Some((linked, growing))),
        Err(LinkFault::Memory) => Err(AllocError),
        Err(_) => Ok(None),
    }
}

/// Files, keepers and journals of accounts.
#[derive(Drop)]
pub(crate) struct Shelf<J: Naming> {
    pub(crate) files: Vec<KeptFile<Memory, J>>,
    pub(crate) keepers: Vec<KeeperPlace<J>>,
    pub(crate) journals: Vec<Growing<J>>,
}

impl<J: Naming> Shelf<J> {
    /// No account.
    pub(crate) fn new(alloc: Global) -> Self {
        Shelf {
            files: Vec::new(alloc),
            keepers: Vec::new(alloc),
            journals: Vec::new(alloc),
        }
    }

    /// Puts a fresh account after the others, whose file does `left` calls and bytes; whether they were enough for its start.
    pub(crate) fn add<R: Wait>(
        &mut self,
        rt: &R,
        alloc: Global,
        account: u32,
        left: usize,
        start: NewAccount,
    ) -> Result<bool, AllocError>
        requires books { books_of start.fresh ≡ J.books account }
        requires history { slice_get J.histories account ≡ Some start.shown.history }
    {
        let bytes = file_of(alloc, FRESH)?;
        let Some((linked, journal)) = linked(alloc, account, bytes.as_slice(), FRESH, left, start)?
        else {
            return Ok(false);
        };
        let Linked {
            file,
            notebook,
            written,
        } = linked;
        self.files.push(file)?;
        let place = KeeperPlace::new();
        place.put(rt, Keeper::new(notebook, written));
        self.keepers.push(place)?;
        self.journals.push(journal)?;
        Ok(true)
    }
}

/// The keeper of the first account.
pub(crate) fn first_keeper<J: Naming>(keepers: &[KeeperPlace<J>]) -> Option<&Keeper<J>> {
    keepers.first()?.get()
}

/// The scribe of a shelf that has one account.
pub(crate) fn only_scribe<J: Naming>(
    keepers: &[KeeperPlace<J>],
    files: Vec<KeptFile<Memory, J>>,
) -> Option<Scribe<'_, Memory, J>> {
    let mut files = files;
    let file = files.pop()?;
    let keeper = first_keeper(keepers)?;
    Some(Scribe::new(0, keeper, file))
}

/// Has a scribe write what waits.
pub(crate) fn write<R: Wait, J: Naming>(
    rt: &R,
    scribe: &mut Scribe<'_, Memory, J>,
    faults: &Faults,
) {
    let noted = scribe.file().place().again();
    scribe.write(rt, faults, &noted);
}

/// The bytes that are surely on the disk of a file.
pub(crate) fn bytes_on_disk<J: Naming>(file: &KeptFile<Memory, J>) -> Result<Vec<u8>, AllocError> {
    match file.file().disk().left_by_crash(0, false)? {
        Some(bytes) => Ok(bytes),
        None => Err(AllocError),
    }
}

/// The text of the journal that is surely on the disk of a file, if each of its lines has its sum; else the bytes there.
pub(crate) fn on_disk<J: Naming>(
    alloc: Global,
    file: &KeptFile<Memory, J>,
) -> Result<Vec<u8>, AllocError> {
    text_in(alloc, bytes_on_disk(file)?)
}
