// Stamps of shown journals.

ghost use Rattle.std.specs.Prelude.{◌≡◌, IsTrue};
ghost use Rattle.kl1_journal_stamps.specs.Stamps.{IsAfter};

use crate::shown_journal::{Law, ShownJournal};
use logbook::Seen;
use std::marker::Model;

/// The stamp of a journal that was shown of an account. But for a number, how many were shown up to it, it exists in proofs alone.
/// Contracts see to which history it belongs, and the journal with its generation.
pub struct Stamp {
    pub(crate) count: u64,
    pub(crate) seen: Seen<ShownJournal, u64, Law>,
}

/// Not derived, so that crates above don't prove the drop again.
impl Drop for Stamp {
    fn drop(self) {
        let Stamp { count: _, seen } = self;
        let _ = seen;
    }
}

impl Model for Stamp {
    ghost use Rattle.std.specs.Prelude.{◌≡◌, ◌≤◌, length};
    ghost use Rattle.std.specs.Coded.{codes};
    ghost use Rattle.logbook.specs.Pages.{book_coded};
    ghost use Rattle.kl1_journal_entries.specs.Codes.{journal_code};
    ghost use Rattle.kl1_journal_stamps.specs.Stamps.{StampValue};
    ghost use Rattle.kl1_journal_stamps.specs.Histories.{last_of};

    ghost Value = { StampValue };

    ghost coded = { Prim.hlevel (codes, book_coded, journal_code) };

    ghost view = { λ s. record { history = s.seen.book; generation = (last_of s.seen.log).generation; journal = (last_of s.seen.log).journal.journal } };

    ghost invariant = { λ s. (s.count ≡ length s.seen.log) × (1 ≤ length s.seen.log) };
}

impl Stamp {
    /// The same once more.
    pub fn again(&self) -> Self
        ensures { result ≡ self.now }
    {
        Stamp {
            count: self.count,
            seen: self.seen.again(),
        }
    }

    /// Whether the journal was shown after that of another stamp of the same history, or is the same. If so, its generation is later, or it
    /// is the same and the other journal has grown into it.
    pub fn comes_after(&self, earlier: &Stamp) -> bool
        requires { self.now.history ≡ earlier.now.history }
        ensures { IsTrue result → IsAfter earlier.now self.now }
    {
        let mut both = self.seen.again();
        both.learn(&earlier.seen);
        earlier.count <= self.count
    }
}
