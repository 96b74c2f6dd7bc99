// How far the file of an account is on disk, with what it holds.

ghost use Rattle.std.specs.Prelude.{◌≡◌};
ghost use Rattle.kl1_log.specs.Receipts as receipts;
ghost use Rattle.kl1_host_journals.specs.Places.{account_of, edition_of};

use crate::history::Naming;
use crate::place::Place;
use kl1_log::Receipt;

/// A receipt with what the file held on disk when it was given.
#[derive(Drop)]
pub struct Stored<J: Naming> {
    pub(crate) receipt: Receipt,
    pub(crate) place: Place<J>,
    ghost account: { account_of place ≡ receipts.account_of receipt },
    ghost number: { (edition_of place).number ≡ receipts.changes_of receipt },
}

impl<J: Naming> Stored<J> {
    /// The same once more.
    pub fn again(&self) -> Self
        ensures receipt { result.receipt ≡ self.now.receipt }
        ensures account { result.place.account ≡ self.now.place.account }
        ensures seen { result.place.seen ≡ self.now.place.seen }
    {
        Stored {
            receipt: self.receipt,
            place: self.place.again(),
        }
    }
}
