// The book of one account.

ghost use Rattle.std.specs.Prelude.{◌≡◌, ◌≤◌};

use crate::view::View;
use atomic_table::Badge;
use std::marker::Model;

/// The book of one account: how many events it had, and how many of them were steps. Contracts see which tally it is of, the
/// account's number, and both counts.
#[derive(Drop)]
pub struct BookSeat {
    pub(crate) badge: Badge<View>,
    pub(crate) account: usize,
    pub(crate) events: u64,
    pub(crate) steps: u64,
}

impl Model for BookSeat {
    ghost use Rattle.std.specs.Prelude.{◌<◌};
    ghost use Rattle.kl1_tally.specs.declared.amounts.TheConstants.{MOST_ACCOUNTS};
    ghost use Rattle.kl1_tally.specs.Seats.{Book};

    ghost Value = { Book };

    ghost use Rattle.kl1_tally.specs.Keeping.{IsBook};

    ghost view = { λ seat. record { tally = seat.badge.table_id; account = seat.account; events = seat.events; steps = seat.steps } };

    ghost invariant = { λ seat. (seat.account < MOST_ACCOUNTS) × IsBook seat.badge.views seat.account seat.events seat.steps };
}

impl BookSeat {
    /// The number of the account.
    pub fn account(&self) -> usize
        ensures { result ≡ self.now.account }
    {
        self.account
    }

    /// How many events the account had.
    pub fn events(&self) -> u64
        ensures { result ≡ self.now.events }
    {
        self.events
    }

    /// How many of them were steps.
    pub fn steps(&self) -> u64
        ensures { result ≡ self.now.steps }
    {
        self.steps
    }
}
