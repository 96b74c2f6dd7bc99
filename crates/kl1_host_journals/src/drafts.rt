// Of what editions are made.

use crate::edition::Edition;
use crate::history::Law;
use crate::notes::Notes;
use kl1_journal_entries::Journal;
use logbook::{Plain, Seen};
use std::snapshot::Snapshot;

/// The first edition: a journal that was noted of a file of these bytes.
#[derive(Drop)]
pub struct FirstDraft {
    pub(crate) notes: Snapshot<Notes>,
    pub(crate) journal: Snapshot<Journal>,
    pub(crate) bytes: Snapshot<Vec<u8>>,
}

/// A step that begins a history.
pub struct Begin;

impl Plain<FirstDraft, Edition, u64> for Begin {
    ghost use Rattle.std.specs.Prelude.{None};
    ghost use Rattle.kl1_host_journals.specs.Drafts.{first_edition};

    ghost ask = { λ draft. first_edition draft };

    ghost state = { λ draft. None };
}

/// A later edition: a journal that was noted of a file that is to hold what was noted last when a change was taken.
#[derive(Drop)]
pub struct Draft {
    pub(crate) notes: Snapshot<Notes>,
    pub(crate) journal: Snapshot<Journal>,
    pub(crate) taken: Seen<Edition, u64, Law>,
}

/// A step that goes on with a history.
pub struct GoOn;

impl Plain<Draft, Edition, u64> for GoOn {
    ghost use Rattle.std.specs.Prelude.{None};
    ghost use Rattle.kl1_host_journals.specs.Drafts.{next_edition};

    ghost ask = { λ draft. next_edition draft };

    ghost state = { λ draft. None };
}
