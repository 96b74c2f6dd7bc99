// Journals that were shown, and the rule that they keep to. They exist in proofs alone.

use kl1_journal_entries::Journal;
use logbook::{Gain, Plain, Play, Rule};
use std::snapshot::Snapshot;

/// A journal that was shown, with its generation: how many events the journals had that resets ended.
pub struct ShownJournal {
    pub generation: u64,
    pub journal: Journal,
}

/// The rule of a history of shown journals.
pub struct Law;

impl Rule<ShownJournal, u64> for Law {
    ghost use Rattle.std.specs.Prelude.{[]};
    ghost use base.Fml.{ftrue};
    ghost use Rattle.kl1_journal_stamps.specs.Histories.{IsKept};

    ghost holds = { λ cells log. IsKept cells log };

    ghost first = { [] };

    ghost hinted = { λ n log. Unit {0} };

    ghost shows = { λ log. [] };

    ghost keeps = { λ names log. ftrue };

    ghost moves = { λ ask before after answer. Unit {0} };
}

/// Who adds to a history trades nothing for it.
pub struct Nothing;

impl Gain<ShownJournal, u64> for Nothing {
    ghost use base.Fml.{ftrue};

    ghost after = { λ names about answer. ftrue };
}

/// What a shown journal is made of.
#[derive(Drop)]
pub struct Draft {
    pub(crate) generation: Snapshot<u64>,
    pub(crate) journal: Snapshot<Journal>,
}

/// A step that adds a journal.
pub struct Add;

impl Play<ShownJournal, u64> for Add {
    ghost use Rattle.kl1_journal_stamps.specs.Histories.{Adds};

    ghost then = { Adds };
}

impl Plain<Draft, ShownJournal, u64> for Add {
    ghost use Rattle.std.specs.Prelude.{None};
    ghost use Rattle.kl1_journal_stamps.specs.Histories.{shown_by};

    ghost ask = { λ draft. shown_by draft };

    ghost state = { λ draft. None };
}
