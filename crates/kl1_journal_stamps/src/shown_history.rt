// Which journals of an account were shown.

ghost use Rattle.std.specs.Prelude.{◌≡◌, Some, None, IfSome, IsNone};
ghost use Rattle.kl1_journal_stamps.specs.Histories.{head_of};
ghost use Rattle.kl1_journal_stamps.specs.Stamps.{MayFollow};

use crate::shown_journal::{Add, Draft, Law, Nothing, ShownJournal};
use crate::stamp::Stamp;
use kl1_journal_entries::Journal;
use logbook::{Offer, Seen, Start, Word};
use std::marker::Model;
use std::snapshot::Snapshot;

/// All journals that were shown of an account. But for how many they are, it exists in proofs alone. Contracts see which history it is, and
/// the journal that was shown last, with its generation.
pub struct ShownHistory {
    count: u64,
    head: Word<ShownJournal, u64, Law>,
    seen: Seen<ShownJournal, u64, Law>,
}

/// Not derived, so that crates above don't prove the drop again.
impl Drop for ShownHistory {
    fn drop(self) {
        let ShownHistory {
            count: _,
            head,
            seen,
        } = self;
        let _ = (head, seen);
    }
}

impl Model for ShownHistory {
    ghost use Rattle.std.specs.Prelude.{◌≡◌, length};
    ghost use Rattle.std.specs.Coded.{codes};
    ghost use Rattle.logbook.specs.Pages.{book_coded};
    ghost use Rattle.kl1_journal_entries.specs.Codes.{journal_code};
    ghost use Rattle.kl1_journal_stamps.specs.Stamps.{ShownValue};
    ghost use Rattle.kl1_journal_stamps.specs.Histories.{head_of, last_shown};

    ghost Value = { ShownValue };

    ghost coded = { Prim.hlevel (codes, book_coded, journal_code) };

    ghost view = { λ h. record { history = h.seen.book; last = last_shown h.seen.log } };

    ghost invariant = { λ h. (h.count ≡ length h.seen.log) × (h.head ≡ head_of h.seen.book) };
}

impl ShownHistory {
    /// A history of its own, of an account of which no journal was shown.
    pub fn new() -> Self
        ensures { result.last ≡ None }
    {
        let (seen, mut first, _second) = Seen::open(Start::alone(), 0, 0);
        ShownHistory {
            count: 0,
            head: Word::tracked(0, &mut first),
            seen,
        }
    }

    /// The stamp of a journal that is shown now, in this generation: it is one of a later generation than the last one, or the last one has
    /// grown into it. `None` if other journals were shown, which never is so, or if there are too many.
    pub fn show(&mut self, journal: &Journal, generation: u64) -> Option<Stamp>
        requires { MayFollow self.old.last generation journal.now.journal }
        ensures stamp { IfSome result (λ s. s ≡ record { history = self.old.history; generation = generation; journal = journal.now.journal }) }
        ensures shown { IfSome result (λ s. self.new ≡ record { history = self.old.history; last = Some (generation, journal.now.journal) }) }
        ensures none { IsNone result → self.new ≡ self.old }
    {
        if self.count == u64::MAX {
            return None;
        }
        let count = self.count + 1;
        let draft = Draft {
            generation: Snapshot::of(&generation),
            journal: Snapshot::of(journal),
        };
        let mut seen = self.seen.again();
        let mut offer: Offer<ShownJournal, u64, Law, Nothing> = seen.plain::<Nothing, Draft, Add>(
            &draft,
        );
        let mut pen = seen.no_pen();
        let found = self
            .head
            .compare_exchange::<Add, Nothing>(self.count, count, &mut seen, &mut offer, &mut pen);
        if found != self.count {
            return None;
        }
        self.count = count;
        self.seen = seen.again();
        Some(Stamp { count, seen })
    }
}
