// What one thread counted.

ghost use Rattle.std.specs.Prelude.{◌≡◌, length};
ghost use Rattle.kl1_tally.specs.declared.amounts.TheConstants.{MOST_ACCOUNTS};

use crate::amounts::Amounts;
use crate::view::View;
use atomic_table::Badge;
use std::marker::Model;

/// What one thread counted of each account. Contracts see which tally it is of, and its events and steps, both at the accounts'
/// numbers.
#[derive(Drop)]
pub struct ShareSeat {
    pub(crate) badge: Badge<View>,
    pub(crate) amounts: Amounts,
}

impl Model for ShareSeat {
    ghost use Rattle.std.specs.Prelude.{◌≡◌, length};
    ghost use Rattle.kl1_tally.specs.declared.amounts.TheConstants.{MOST_ACCOUNTS};
    ghost use Rattle.kl1_tally.specs.Seats.{Share};

    ghost Value = { Share };

    ghost use Rattle.kl1_tally.specs.Keeping.{IsShare};

    ghost view = { λ seat. record { tally = seat.badge.table_id; events = seat.amounts.events; steps = seat.amounts.steps } };

    ghost invariant = { λ seat. (length seat.amounts.events ≡ MOST_ACCOUNTS) × (length seat.amounts.steps ≡ MOST_ACCOUNTS) × IsShare seat.badge.views seat.amounts.events seat.amounts.steps };
}

impl ShareSeat {
    /// What the thread counted so far.
    pub fn amounts(&self) -> Amounts
        ensures events { result.events ≡ self.now.events }
        ensures steps { result.steps ≡ self.now.steps }
    {
        self.amounts
    }

    /// Does nothing: it shows that there is a number for each account.
    pub fn has_places(&self)
        ensures events { length self.now.events ≡ MOST_ACCOUNTS }
        ensures steps { length self.now.steps ≡ MOST_ACCOUNTS }
    {
        let _amounts = self.amounts;
    }
}
