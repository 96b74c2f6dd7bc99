// The rule of the tally, and what each step on it tells.

ghost use Rattle.std.specs.Prelude.{◌≡◌, true, false};
ghost use Rattle.kl1_tally.specs.Rule.{Even};
ghost use Rattle.kl1_tally.specs.Views.{whole, own_part, other_part, joint_view, spent_view};
ghost use Rattle.kl1_tally.specs.Plays.{RaisesBy};

use crate::view::View;
use atomic_table::{Join, Play, Split, TableRule};

/// How many books and shares a tally was made with.
#[derive(Clone, Copy)]
pub struct Sizes {
    pub accounts: u64,
    pub shares: u64,
}

/// The rule of the tally; the key is how many books and shares there are.
pub struct Law;

impl TableRule<(), View, Sizes> for Law {
    ghost holds = { λ sizes. Even sizes.accounts sizes.shares };

    ghost first = { λ sizes. whole sizes.accounts sizes.shares };
}

/// An event that is no step.
pub struct RaiseEvent;

impl Play<(), View> for RaiseEvent {
    ghost then = { RaisesBy false };
}

/// An event that is a step.
pub struct RaiseStep;

impl Play<(), View> for RaiseStep {
    ghost then = { RaisesBy true };
}

/// A look that makes a seat with nothing.
pub struct Enter;

impl Play<(), View> for Enter {
    ghost then = { λ step before found after. after.0 ≡ spent_view };
}

/// A seat cut in two: the book of one account, and the rest.
pub struct Parted;

impl Split<View> for Parted {
    ghost left = { own_part };

    ghost right = { other_part };
}

/// Two seats made one.
pub struct Joined;

impl Join<View> for Joined {
    ghost both = { joint_view };

    ghost spent = { spent_view };
}
