// The elements of lists.

ghost use Rattle.std.specs.Prelude.{◌≡◌, ℕ, List, drop, MatchOption};
ghost use Rattle.kl1_model.specs.Asking.{elements_of};
ghost use Rattle.kl1_text.specs.Reading.{Reads};
ghost use Rattle.kl1_store.specs.Held.{IsIn};
ghost use Rattle.kl1_store.specs.Meaning.{term_of};
ghost use Rattle.kl1_store.specs.Fingers.{IsFinger};
ghost use Rattle.kl1_stream.specs.Elements.{HasNoElement, HasElement};

use crate::tops::{Top, is_built_in, top_of};
use kl1_model::BuiltIn;
use kl1_store::{Cell, Finger, Store};
use kl1_text::NameValue;

/// How many elements are between two places of a list that are kept.
const KEPT_APART: u64 = 1_024;

/// The most elements that are walked over at once to keep places.
const MOST_WALKED: u64 = 65_536;

/// The first element of a list and the rest after it, if the cell is a list cell.
pub fn next_element<N: NameValue>(store: &Store<N>, cell: Cell<N>) -> Option<(Cell<N>, Cell<N>)>
    requires { IsIn store.now.held cell }
    ensures { MatchOption result (HasNoElement N.built store.now.held cell) (HasElement N.built store.now.held cell) }
{
    match top_of(store, cell) {
        Top::Variable(_variable) => None,
        Top::Integer(_number) => None,
        Top::Atom(_name) => None,
        Top::One(_name, _first) => None,
        Top::Two(name, element, rest) => {
            if is_built_in(name, BuiltIn::ListCell) {
                return Some((element, rest));
            }
            None
        }
        Top::Other => None,
    }
}

/// What is left of a list after `skip` elements; if it has no more than these, what follows its last element.
pub fn nth_cell<N: NameValue>(store: &Store<N>, cell: Cell<N>, skip: u64) -> Cell<N>
    requires { IsIn store.now.held cell }
    ensures inside { IsIn store.now.held result }
    ensures elements { (f : N → List ℕ) → Reads N.built f → elements_of (term_of f store.now.held result) ≡ drop skip (elements_of (term_of f store.now.held cell)) }
{
    let finger = store.finger(cell, skip);
    let mut at = finger.rest;
    let mut left = skip - finger.count;
    while 0 < left {
        match next_element(store, at) {
            Some((_element, rest)) => at = rest,
            None => return at,
        }
        left -= 1;
    }
    at
}

/// Lets the store keep a place in a list, if it is one of those that are kept.
fn keep_some<N: NameValue>(store: &mut Store<N>, finger: Finger<N>)
    requires { IsFinger N.built store.old.held finger }
    ensures held { store.new.held ≡ store.old.held }
    ensures room { store.new.room ≡ store.old.room }
    ensures hooks { store.new.hooks ≡ store.old.hooks }
    ensures hook_room { store.new.hook_room ≡ store.old.hook_room }
{
    if finger.count % KEPT_APART == 0 {
        store.keep_finger(finger);
    }
}

/// A place in a list, one element further; if there is none, the place as it is.
fn one_further<N: NameValue>(store: &Store<N>, finger: Finger<N>) -> Finger<N>
    requires { IsFinger N.built store.now.held finger }
    ensures { IsFinger N.built store.now.held result }
{
    let Some((_element, rest)) = next_element(store, finger.rest) else {
        return finger;
    };
    match finger.count.checked_add(1) {
        None => finger,
        Some(count) => Finger {
            count,
            rest,
            ..finger
        },
    }
}

/// Lets the store keep places in a list, from the furthest that it keeps on, as far as the list goes now; what it holds is as before.
pub fn keep_places<N: NameValue>(store: &mut Store<N>, list: Cell<N>)
    requires { IsIn store.old.held list }
    ensures held { store.new.held ≡ store.old.held }
    ensures room { store.new.room ≡ store.old.room }
    ensures hooks { store.new.hooks ≡ store.old.hooks }
    ensures hook_room { store.new.hook_room ≡ store.old.hook_room }
{
    let mut finger = store.finger(list, u64::MAX);
    let mut left = MOST_WALKED;
    while 0 < left {
        let next = one_further(store, finger);
        if next.count == finger.count {
            return;
        }
        keep_some(store, next);
        finger = next;
        left -= 1;
    }
}
