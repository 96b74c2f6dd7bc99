// A leave to write that waits for the disk.

ghost use Rattle.std.specs.Prelude.{◌≡◌, ◌↔◌, IsTrue};
ghost use Rattle.kl1_log.specs.Receipts.{waits_for, reply_of, Covers};
ghost use Rattle.kl1_host_journals.specs.Editions.{StandsIn, IsUpToDate};
ghost use Rattle.kl1_host_journals.specs.Places.{account_of, log_of, edition_of};
ghost use Rattle.kl1_host_journals.specs.StoredPlaces.{receipt_of, place_of as stored_place_of};

use crate::history::Naming;
use crate::leave::{Connecting, SendPermit};
use crate::place::Place;
use crate::stored::Stored;
use kl1_log::Unsent;

/// A leave to write that waits until all is on disk that was noted up to a moment.
#[derive(Drop)]
pub struct Held<J: Naming, C: Connecting> {
    pub(crate) unsent: Unsent<SendPermit<C>>,
    pub(crate) place: Place<J>,
    ghost account: { account_of place ≡ (waits_for unsent).0 },
    ghost number: { (edition_of place).number ≡ (waits_for unsent).1 },
}

impl<J: Naming, C: Connecting> Held<J, C> {
    /// The number of the account for whose file it waits.
    pub fn account(&self) -> u32
        ensures { result ≡ account_of self.now.place }
    {
        self.place.account()
    }

    /// Whether all is on disk for which it waits.
    pub fn is_covered(&self, stored: &Stored<J>) -> bool
        ensures { IsTrue result ↔ Covers (receipt_of stored.now) self.now.unsent }
    {
        self.unsent.is_covered(stored.receipt)
    }

    /// The leave: what was noted for it stands in what was on disk.
    pub fn hand_out(self, stored: &Stored<J>) -> SendPermit<C>
        requires { Covers (receipt_of stored.now) self.unsent }
        ensures reply { result ≡ reply_of self.unsent }
        ensures stands { StandsIn (edition_of self.place) (edition_of (stored_place_of stored.now)) }
        ensures dated { IsUpToDate (log_of self.place) }
    {
        let Held { unsent, place } = self;
        place.shows_stands(&stored.place);
        place.shows_dated();
        unsent.hand_out(stored.receipt)
    }
}
