// The goals of a clause that a goal commits to.

ghost use Rattle.std.specs.Prelude.{◌≡◌, ℕ, ◌<◌, List, length, OnOk};
ghost use Rattle.kl1_model.specs.Match.{Candidate};
ghost use Rattle.kl1_text.specs.Reading.{Reads};
ghost use Rattle.kl1_store.specs.InModules.{AreQualifiedIn};
ghost use Rattle.kl1_store.specs.Sound.{Grown};
ghost use Rattle.kl1_clause.specs.Predicates.{AreSome};
ghost use Rattle.kl1_match.specs.Instances.{AreThere};
ghost use Rattle.kl1_goals_moves.specs.Moves.{taken_places, IsCandidate};
ghost use Rattle.kl1_goals_moves.specs.Bodies.{IsBody};

use crate::needs::nth;
use crate::trial::Trial;
use kl1_clause::Predicate;
use kl1_match::{put_instance, put_kept_instance};
use kl1_store::{Qualified, Store};
use kl1_text::NameValue;
use std::alloc::AllocError;

/// Puts in place of `goals` those of the body of the clause at a place of a predicate, with the terms at the trial's places in
/// them, as a move that commits leaves them. Other variables are the next of the store, and no variable is bound. If memory
/// is refused, the store may have grown, and `goals` is of no use.
pub fn commit<N: NameValue>(
    store: &mut Store<N>,
    predicate: Predicate<'_, N>,
    place: usize,
    trial: &mut Trial<N>,
    goals: &mut Vec<Qualified<N>>,
) -> Result<(), AllocError>
    requires place { place < length predicate.clauses.now }
    requires predicate { AreSome predicate.names.now predicate.clauses.now }
    requires places { AreThere store.old.held (taken_places trial.old) }
    requires some { 0 < store.old.held.variables }
    ensures grown { Grown store.old.held store.new.held }
    ensures hooks { store.new.hooks ≡ store.old.hooks }
    ensures bindings { store.new.held.bindings ≡ store.old.held.bindings }
    ensures inside { OnOk result (AreQualifiedIn store.new.held goals.new.items) }
    ensures goals { OnOk result ((f : N → List ℕ) → Reads N.built f → (k : Candidate) → IsCandidate f store.old.held predicate.entry place (taken_places trial.old) k → IsBody f k store.old.held store.new.held goals.new.items) }
{
    if trial.is_in_order {
        return put_kept_instance(
            store,
            predicate.names,
            nth(predicate.clauses, place),
            &mut trial.scratch,
            goals,
        );
    }
    put_instance(
        store,
        predicate.names,
        nth(predicate.clauses, place),
        trial.places.as_slice(),
        &mut trial.scratch,
        goals,
    )
}
