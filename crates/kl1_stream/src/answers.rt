// What reports say of substitutes.

ghost use Rattle.std.specs.Prelude.{◌≡◌, ℕ, List, IfSome, option_map};
ghost use Rattle.kl1_model.specs.Answering.{asked};
ghost use Rattle.kl1_text.specs.Reading.{Reads};
ghost use Rattle.kl1_store.specs.Held.{IsIn};
ghost use Rattle.kl1_store.specs.Meaning.{term_of};
ghost use Rattle.kl1_stream.specs.Askings.{asked_of, asked_in, IsAskingIn};

use crate::elements::{next_element, nth_cell};
use crate::tops::is_built_in;
use kl1_model::BuiltIn;
use kl1_store::{Cell, Store};
use kl1_text::NameValue;

/// An exception that a substitute waits by: its goal, and the variable that the substitute waits for.
#[derive(Clone, Copy)]
pub struct Asking<N> {
    pub goal: Cell<N>,
    pub new: u32,
}

/// The exception that a substitute waits by, if a report is one.
pub(crate) fn asked<N: NameValue>(store: &Store<N>, report: Cell<N>) -> Option<Asking<N>>
    requires { IsIn store.now.held report }
    ensures inside { IfSome result (IsAskingIn store.now.held) }
    ensures asking { (f : N → List ℕ) → Reads N.built f → asked (term_of f store.now.held report) ≡ option_map (asked_of f store.now.held) result }
{
    // Only for the proof: what the store holds is formed.
    let _formed = store.mark();
    let Cell::Structure(structure) = store.walk(report) else {
        return None;
    };
    let head = store.look(structure);
    if head.count != 3 {
        return None;
    }
    if !is_built_in(head.name, BuiltIn::Exception) {
        return None;
    }
    let Some(new) = store.walk(store.argument(structure, 2)).variable() else {
        return None;
    };
    Some(Asking {
        goal: store.argument(structure, 1),
        new,
    })
}

/// The exception that a substitute waits by, if the report at place `place` of a stream, the first being 0, is one.
pub fn asked_at<N: NameValue>(store: &Store<N>, reports: Cell<N>, place: u64) -> Option<Asking<N>>
    requires reports { IsIn store.now.held reports }
    ensures inside { IfSome result (IsAskingIn store.now.held) }
    ensures asking { (f : N → List ℕ) → Reads N.built f → asked_in (term_of f store.now.held reports) place ≡ option_map (asked_of f store.now.held) result }
{
    let (element, _rest) = next_element(store, nth_cell(store, reports, place))?;
    asked(store, element)
}
