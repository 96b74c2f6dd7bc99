// Events and steps of each account.

ghost use Rattle.std.specs.Prelude.{◌≡◌, ◌+◌, ◌<◌, ◌^◌, true, cond, length, replicate, slice_index, slice_set};

use kl1_model::limits;

/// The most accounts that a tally has books of: as many as there are.
pub const MOST_ACCOUNTS: usize = limits::MOST_ACCOUNTS;

/// Events of each account, and how many of them are steps; both at the account's number.
#[derive(Clone, Copy)]
pub struct Amounts {
    pub events: [u64; MOST_ACCOUNTS],
    pub steps: [u64; MOST_ACCOUNTS],
}

impl Amounts {
    /// Nothing of any account.
    pub(crate) fn zero() -> Amounts
        ensures events { result.events ≡ replicate MOST_ACCOUNTS 0 }
        ensures steps { result.steps ≡ replicate MOST_ACCOUNTS 0 }
    {
        Amounts {
            events: [0; MOST_ACCOUNTS],
            steps: [0; MOST_ACCOUNTS],
        }
    }

    /// Adds one event of an account, and one step if it is one.
    pub(crate) fn add(&mut self, account: usize, step: bool)
        requires within { account < MOST_ACCOUNTS }
        requires events { slice_index self.old.events account < 2 ^ 63 }
        requires steps { slice_index self.old.steps account < 2 ^ 63 }
        ensures events { self.new.events ≡ slice_set self.old.events account (slice_index self.old.events account + 1) }
        ensures steps { self.new.steps ≡ slice_set self.old.steps account (slice_index self.old.steps account + cond step 1 0) }
    {
        self.events[account] += 1;
        self.steps[account] += u64::from(step);
    }
}
