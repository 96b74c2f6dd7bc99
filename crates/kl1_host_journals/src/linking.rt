// A journal's file with what waits for it.

ghost use Rattle.std.specs.Prelude.{◌≡◌, Some, slice_get, IfOk, IfErr};
ghost use Rattle.kl1_journal_stamps.specs.Stamps.{IsStampOf};
ghost use Rattle.kl1_log.specs.Batches.{text_of};
ghost use Rattle.kl1_log.specs.LogFiles.{disk_of, account_of as account_of_file, changes_of as changes_of_file};
ghost use Rattle.kl1_log.specs.Receipts.{account_of, changes_of};
ghost use Rattle.kl1_log.specs.Waits.{taken_of, noted_of};
ghost use Rattle.kl1_host_journals.specs.Editions.{IsNoteOf};
ghost use Rattle.kl1_host_journals.specs.KeptFiles.{file_of, place_of as place_of_file};
ghost use Rattle.kl1_host_journals.specs.Notebooks.{notes_of};
ghost use Rattle.kl1_host_journals.specs.Notes.{waiting_of, generation_of};
ghost use Rattle.kl1_host_journals.specs.Places.{log_of, edition_of};
ghost use Rattle.kl1_host_journals.specs.StoredPlaces.{receipt_of, place_of};
ghost use Rattle.kl1_host_journals.specs.Writtens.{stored_of};
ghost use Rattle.kl1_host_journals.specs.FreshHistories.{books_of};
ghost use Rattle.kl1_host_journals.specs.Links.{IsUpToIf, IsOfFile};

use crate::drafts::{Begin, FirstDraft};
use crate::fresh_history::FreshHistory;
use crate::history::{History, Naming};
use crate::kept_file::KeptFile;
use crate::notebook::Notebook;
use crate::notes::Notes;
use crate::resting_file::RestingFile;
use crate::stored::Stored;
use crate::written::Written;
use kl1_journal_entries::Journal;
use kl1_journal_stamps::Stamp;
use kl1_log::{Disk, LogError, LogFile, Waiting};
use std::alloc::{AllocError, Global};
use std::io;
use std::snapshot::Snapshot;

/// The file of an account's journal, what waits for it, and the first receipt.
#[derive(Drop)]
pub struct Linked<D: Disk, J: Naming> {
    pub file: KeptFile<D, J>,
    pub notebook: Notebook<J>,
    pub written: Written<J>,
}

/// Why a file isn't linked with a journal.
#[derive(Drop)]
pub enum LinkFault {
    /// It can't be read.
    Unread(io::Error),
    /// It can't be written.
    Unwritten(LogError),
    /// Memory was refused.
    Memory,
}

impl From<AllocError> for LinkFault {
    ghost use Rattle.kl1_host_journals.specs.declared.linking.LinkFault.TheVariants.{Memory};

    ghost from_gives = { λ _ e. e ≡ Memory };

    fn from(_refused: AllocError) -> Self
        ensures { result ≡ LinkFault.Memory }
    {
        LinkFault::Memory
    }
}

/// The file of this account with what waits for it, which is nothing: it is one of `journal`, in this generation. If its bytes aren't the
/// text of the journal, each line with its sum, it is begun anew. `fresh` is the account's history, which begins with it,
/// and `stamp` the journal's.
#[tactic(auto, using(crate::proofs::KeptFiles::read_text, crate::proofs::KeptFiles::written_text, crate::proofs::Resting::same_rests))]
pub fn link<D: Disk + Drop, J: Naming>(
    alloc: Global,
    resting: RestingFile<D>,
    account: u32,
    journal: &Journal,
    generation: u64,
    fresh: FreshHistory,
    stamp: &Stamp,
) -> Result<Linked<D, J>, LinkFault>
    requires fresh { books_of fresh ≡ J.books account }
    requires history { slice_get J.histories account ≡ Some stamp.now.history }
    requires stamp { IsStampOf journal.now.journal generation stamp.now }
    ensures link { IfOk result (λ l. IsUpToIf (waiting_of (notes_of l.notebook)) (text_of (D.known (disk_of (file_of l.file)))) journal.now.journal) }
    ensures generation { IfOk result (λ l. generation_of (notes_of l.notebook) ≡ generation) }
    ensures account { IfOk result (λ l. (account_of_file (file_of l.file) ≡ account) × (account_of (receipt_of (stored_of l.written)) ≡ account)) }
    ensures changes { IfOk result (λ l. (changes_of (receipt_of (stored_of l.written)) ≡ noted_of (waiting_of (notes_of l.notebook))) × (changes_of_file (file_of l.file) ≡ noted_of (waiting_of (notes_of l.notebook))) × (taken_of (waiting_of (notes_of l.notebook)) ≡ noted_of (waiting_of (notes_of l.notebook)))) }
    ensures note { IfOk result (λ l. IsNoteOf (edition_of (place_of (stored_of l.written))) journal.now.journal generation × (log_of (place_of_file l.file) ≡ log_of (place_of (stored_of l.written)))) }
    ensures fault { IfErr result IsOfFile }
{
    let mut disk = resting.into_disk();
    let bytes = match disk.read(alloc) {
        Ok(bytes) => bytes,
        Err(error) => return Err(LinkFault::Unread(error)),
    };
    let waiting = Waiting::over(alloc, account, bytes.as_slice(), journal)?;
    let mut notes = Notes::new(waiting, generation);
    let mut history = History::new(fresh, account);
    history.add::<FirstDraft, Begin>(&FirstDraft {
        notes: Snapshot::of(&notes),
        journal: Snapshot::of(journal),
        bytes: Snapshot::of(&bytes),
    })?;
    let place = history.place();
    let mut file = LogFile::new(disk, account);
    match file.write(&notes.take()) {
        Ok(receipt) => Ok(Linked {
            file: KeptFile {
                file,
                place: place.again(),
            },
            notebook: Notebook {
                notes,
                history,
                taken: place.again(),
                stamp: stamp.again(),
            },
            written: Written {
                stored: Stored { receipt, place },
                is_stopped: false,
            },
        }),
        Err(error) => Err(LinkFault::Unwritten(error)),
    }
}
