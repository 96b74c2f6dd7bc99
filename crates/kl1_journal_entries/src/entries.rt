// The entries of a journal, one after another.

ghost use Rattle.std.specs.Prelude.{◌≡◌, [], ◌∷◌, IfSome, IsNone};
ghost use Rattle.kl1_journal_entries.specs.Shown.{entry_shown, HasPrint};

use crate::entry::{Entry, shown_at};
use crate::journal::Journal;
use crate::long_entry::LongEntry;
use crate::packed_entry::PackedEntry;
use std::marker::Model;

/// The entries of a journal that are still to come.
#[derive(Drop)]
pub struct Entries<'a> {
    slots: &'a [PackedEntry],
    wholes: &'a [LongEntry],
}

impl<'a> Model for Entries<'a> {
    ghost use Rattle.std.specs.Prelude.{List, map, length};
    ghost use Rattle.std.specs.Coded.{coded_list};
    ghost use Rattle.std.specs.List.{AllByRecursion};
    ghost use Rattle.kl1_model_server.specs.Journal.{Entry};
    ghost use Rattle.kl1_journal_entries.specs.Codes.{entry_code};
    ghost use Rattle.kl1_journal_entries.specs.Slots.{entry_at, IsPlace, IsPrinted};

    ghost Value = { List Entry };

    ghost coded = { coded_list entry_code };

    ghost view = { λ e. map (entry_at e.wholes.now) e.slots.now };

    ghost invariant = { λ e. AllByRecursion (IsPlace (length e.wholes.now)) e.slots.now × AllByRecursion IsPrinted e.wholes.now };
}

impl<'a> Entries<'a> {
    /// The next entry, and `None` after the last.
    pub fn next(&mut self) -> Option<Entry<'a>>
        ensures none { IsNone result → self.old ≡ [] }
        ensures some { IfSome result (λ e. self.old ≡ entry_shown e ∷ self.new) }
        ensures printed { IfSome result HasPrint }
    {
        let wholes = self.wholes;
        match self.slots {
            [] => None,
            [first, rest @ ..] => {
                self.slots = rest;
                Some(shown_at(wholes, *first))
            }
        }
    }
}

impl Journal {
    /// The entries, in order. It takes no memory.
    pub fn entries(&self) -> Entries<'_>
        ensures { result ≡ self.now.journal.entries }
    {
        Entries {
            slots: self.slots.as_slice(),
            wholes: self.wholes.as_slice(),
        }
    }
}
