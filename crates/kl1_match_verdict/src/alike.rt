// The terms at the places of each variable of a head, two at a time.

ghost use Rattle.std.specs.Prelude.{IfOk, OnOk, IsTrue};
ghost use Rattle.kl1_store.specs.Held.{IsIn};
ghost use Rattle.kl1_store.specs.Remembers.{Remembers};
ghost use Rattle.kl1_match.specs.Instances.{AreThere};
ghost use Rattle.kl1_match_verdict.specs.Rising.{AreRising};
ghost use Rattle.kl1_match_verdict.specs.Outcomes.{TwoCome, OneComes, EachComes};

use kl1_match::Place;
use kl1_store::{SameScratch, Store};
use kl1_text::NameValue;
use std::alloc::AllocError;

/// Whether two places may be alike: false if they are of one variable, and their terms clash. Else `awaited` gets the variables
/// that this waits for, after those in it.
#[inline]
fn compare_two<N: NameValue>(
    store: &Store<N>,
    left: Place<N>,
    right: Place<N>,
    same: &mut SameScratch,
    awaited: &mut Vec<u32>,
) -> Result<bool, AllocError>
    requires left { IsIn store.now.held left.cell }
    requires right { IsIn store.now.held right.cell }
    requires remembers { Remembers N.built store.now.held same.old }
    ensures come { IfOk result (TwoCome N.built store.now.held left right awaited.old.items awaited.new.items) }
    ensures remembers { OnOk result (Remembers N.built store.now.held same.new) }
{
    if left.variable != right.variable {
        return Ok(true);
    }
    store.may_be_same(left.cell, right.cell, same, awaited)
}

/// Whether one place may be alike with each of others, as `compare_two` tells.
fn compare_one<N: NameValue>(
    store: &Store<N>,
    place: Place<N>,
    others: &[Place<N>],
    same: &mut SameScratch,
    awaited: &mut Vec<u32>,
) -> Result<bool, AllocError>
    requires place { IsIn store.now.held place.cell }
    requires others { AreThere store.now.held others.now }
    requires remembers { Remembers N.built store.now.held same.old }
    ensures comes { IfOk result (OneComes N.built store.now.held place others.now awaited.old.items awaited.new.items) }
    ensures remembers { OnOk result (Remembers N.built store.now.held same.new) }
{
    let mut rest = others;
    while let [other, more @ ..] = rest {
        let other = *other;
        if !compare_two(store, place, other, same, awaited)? {
            return Ok(false);
        }
        rest = more;
    }
    Ok(true)
}

/// Whether the variables of places stand in order of their numbers, so that each stands once.
#[inline]
pub(crate) fn are_rising<N: NameValue>(places: &[Place<N>]) -> bool
    ensures { IsTrue result → AreRising 0 places.now }
{
    let mut last: u64 = 0;
    let mut rest = places;
    while let [first, more @ ..] = rest {
        if first.variable <= last {
            return false;
        }
        last = first.variable;
        rest = more;
    }
    true
}

/// Whether each two places may be alike, as `compare_two` tells.
pub(crate) fn compare_each<N: NameValue>(
    store: &Store<N>,
    places: &[Place<N>],
    same: &mut SameScratch,
    awaited: &mut Vec<u32>,
) -> Result<bool, AllocError>
    requires places { AreThere store.now.held places.now }
    requires remembers { Remembers N.built store.now.held same.old }
    ensures comes { IfOk result (EachComes N.built store.now.held places.now awaited.old.items awaited.new.items) }
    ensures remembers { OnOk result (Remembers N.built store.now.held same.new) }
{
    if are_rising(places) {
        return Ok(true);
    }
    let mut rest = places;
    while let [first, more @ ..] = rest {
        let first = *first;
        if !compare_one(store, first, more, same, awaited)? {
            return Ok(false);
        }
        rest = more;
    }
    Ok(true)
}
