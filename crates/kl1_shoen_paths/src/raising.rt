// Charges along a path.

ghost use Rattle.std.specs.Prelude.{ℕ, suc, get_or, if◌then◌else◌, ◌≡◌, ◌<◌, ◌≤◌, ◌+◌, ◌-◌, ◌^◌, ◌||◌, ◌∷◌, length, set};
ghost use Rattle.std.specs.List.{list_any};
ghost use Rattle.kl1_shoen_paths.specs.Paths.{AreNumbered, AreLower, path_in, is_on_path_in, may_be_charged, reaches_in};

use crate::parents::{lent, parent_of};
use crate::shoen::Shoen;
use crate::tracked::TrackedList;
use kl1_text::NameValue;

/// A step of a charge along a path: the number of the shoen's parent, and whether the shoen has reached its allowance by the charge.
#[derive(Clone, Copy)]
struct Raised {
    up: u64,
    reaches: bool,
}

/// Charges one reduction more to each shoen on the path of one, and tells whether one of them has reached its allowance by it.
pub fn raise<N: NameValue>(shoens: &[Shoen<N>], charges: &mut TrackedList<u64>, number: u64) -> bool
    requires numbered { AreNumbered 0 shoens.now }
    requires lower { AreLower shoens.now }
    requires count { length charges.old.now ≡ length shoens.now }
    requires within { number ≤ length shoens.now }
    requires few { (k : ℕ) → get_or charges.old.now k 0 < 2 ^ 63 }
    requires changes { number ≤ charges.old.changes }
    ensures charged { (k : ℕ) → get_or charges.new.now k 0 ≡ (if is_on_path_in shoens.now (suc k) number then 1 else 0) + get_or charges.old.now k 0 }
    ensures reaches { result ≡ list_any (reaches_in shoens.now charges.old.now) (path_in shoens.now number) }
    ensures count { length charges.new.now ≡ length charges.old.now }
    ensures kept { charges.new.kept ≡ charges.old.kept }
    ensures room { charges.new.room ≡ charges.old.room }
{
    let mut reaches = false;
    let mut at = number;
    while at > 0 {
        let step = raise_at(shoens, charges, at);
        reaches = is_either(reaches, step.reaches);
        at = step.up;
    }
    reaches
}

/// Whether one of two holds.
fn is_either(one: bool, other: bool) -> bool
    ensures { result ≡ (one || other) }
{
    one || other
}

/// Whether shoen `number` may be charged just this.
fn may_be_charged<N: NameValue>(shoens: &[Shoen<N>], number: u64, charged: u64) -> bool
    requires { AreNumbered 0 shoens.now }
    ensures { result ≡ may_be_charged shoens.now number charged }
{
    let Some(shoen) = lent(shoens, number) else {
        return false;
    };
    shoen.allowance == charged
}

/// Charges one reduction more to shoen `number` alone.
fn raise_at<N: NameValue>(
    shoens: &[Shoen<N>],
    charges: &mut TrackedList<u64>,
    number: u64,
) -> Raised
    requires numbered { AreNumbered 0 shoens.now }
    requires lower { AreLower shoens.now }
    requires some { 0 < number }
    requires within { number ≤ length charges.old.now }
    requires few { get_or charges.old.now (number - 1) 0 ≤ 2 ^ 63 }
    requires changes { 0 < charges.old.changes }
    ensures charged { charges.new.now ≡ set charges.old.now (number - 1) (get_or charges.old.now (number - 1) 0 + 1) }
    ensures below { result.up < number }
    ensures path { path_in shoens.now number ≡ number ∷ path_in shoens.now result.up }
    ensures reaches { result.reaches ≡ reaches_in shoens.now charges.old.now number }
    ensures kept { charges.new.kept ≡ charges.old.kept }
    ensures room { charges.new.room ≡ charges.old.room }
    ensures changes { charges.new.changes + 1 ≡ charges.old.changes }
{
    let place = (number - 1) as usize;
    let charged = charges.items()[place] + 1;
    charges.put(place, charged);
    Raised {
        up: parent_of(shoens, number),
        reaches: may_be_charged(shoens, number, charged),
    }
}
