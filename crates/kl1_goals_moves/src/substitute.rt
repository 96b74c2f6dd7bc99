// What substitutes can do.

ghost use Rattle.std.specs.Prelude.{◌≡◌, ℕ, List, Some, OnOk, IfOk};
ghost use Rattle.kl1_model.specs.Term.{Term};
ghost use Rattle.kl1_text.specs.Reading.{Reads};
ghost use Rattle.kl1_store.specs.Held.{Held, IsIn};
ghost use Rattle.kl1_store.specs.Meaning.{term_of};
ghost use Rattle.kl1_clause.specs.declared.predicate.Predicate.{Predicate};
ghost use Rattle.kl1_match.specs.declared.place.Place.{Place};
ghost use Rattle.kl1_match.specs.Waiting.{AreUnbound};
ghost use Rattle.kl1_goals.specs.Readies.{clause_in};
ghost use Rattle.kl1_goals_moves.specs.Judged.{SubstituteDoes};
ghost use Rattle.kl1_goals_moves.specs.Moves.{MoveIn};
ghost use Rattle.kl1_goals_moves.specs.Substitutes.{giving_way, SubstituteMoves, SubstituteStands};

use crate::look::Look;
use crate::moves::Move;
use crate::order::look_at_goal;
use crate::trial::Trial;
use kl1_goals::Standing;
use kl1_model::BuiltIn;
use kl1_store::{Cell, Store};
use kl1_text::NameValue;
use std::alloc::AllocError;

/// What a substitute does by the look at what it waits for, or nothing while it waits.
fn giving_way<N: Copy>(look: Look) -> Option<Move<N>>
    ensures { result ≡ giving_way look }
{
    match look {
        Look::Right => Some(Move::GivesWay),
        Look::Waits(_) => None,
        Look::Wrong => Some(Move::Raises(BuiltIn::IllegalInput)),
    }
}

/// What a substitute for what a cell is can do by the clause numbered `clause`, or nothing if that isn't allowed.
pub fn substitute_move<N: NameValue>(
    store: &Store<N>,
    term: Cell<N>,
    clause: u64,
) -> Option<Move<N>>
    requires { IsIn store.now.held term }
    ensures { (f : N → List ℕ) → Reads N.built f → SubstituteMoves (term_of f store.now.held term) clause result }
{
    if clause != 0 {
        return None;
    }
    giving_way(look_at_goal(store, term))
}

/// What a substitute for what a cell is can do. The trial gets the variable that it waits for, which is unbound.
pub fn substitute_standing<N: NameValue>(
    store: &Store<N>,
    term: Cell<N>,
    trial: &mut Trial<N>,
) -> Result<Standing, AllocError>
    requires { IsIn store.now.held term }
    ensures unbound { OnOk result (AreUnbound store.now.held trial.new.awaited.items) }
    ensures standing { IfOk result (λ standing. (f : N → List ℕ) → Reads N.built f → SubstituteStands (term_of f store.now.held term) trial.new.awaited.items standing) }
{
    trial.awaited.clear();
    match look_at_goal(store, term) {
        Look::Right => Ok(Standing::GivesWay),
        Look::Waits(variable) => {
            trial.awaited.push(variable)?;
            Ok(Standing::Waits)
        }
        Look::Wrong => Ok(Standing::Misuses),
    }
}

/// What a substitute does that stands so.
pub fn substitute_as_judged<N: Copy>(standing: Standing) -> Option<Move<N>>
    ensures inside { (h : Held N) (p : Predicate N) (places : List (Place N)) (text : List ℕ) → MoveIn h p places text result }
    ensures moves { (t : Term) → SubstituteDoes t standing → clause_in standing ≡ Some 0 → SubstituteMoves t 0 result }
{
    match standing {
        Standing::GivesWay => Some(Move::GivesWay),
        Standing::Misuses => Some(Move::Raises(BuiltIn::IllegalInput)),
        Standing::Waits => None,
        Standing::Commits(_, _) => None,
        Standing::Fails => None,
        Standing::Unifies => None,
        Standing::Becomes(_) => None,
        Standing::Overflows => None,
        Standing::Names => None,
        Standing::Opens => None,
        Standing::Goes => None,
        Standing::Reads => None,
    }
}
