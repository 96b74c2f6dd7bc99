// By which clause goals can step, and what they wait for.

ghost use Rattle.std.specs.Prelude.{◌≡◌, ℕ, List, IfOk, OnOk};
ghost use Rattle.kl1_model.specs.Module.{Module};
ghost use Rattle.kl1_model.specs.Term.{Term};
ghost use Rattle.kl1_text.specs.Reading.{Reads};
ghost use Rattle.kl1_store.specs.Remembers.{Remembers};
ghost use Rattle.kl1_clause.specs.Predicates.{AreSome};
ghost use Rattle.kl1_match.specs.Waiting.{AreUnbound};
ghost use Rattle.kl1_goals_moves.specs.Kinds.{IsKind, KindIn};
ghost use Rattle.kl1_goals_moves.specs.Moves.{HasPredicate};
ghost use Rattle.kl1_goals_moves.specs.Standing.{standing_by, becoming, StandsAs};

use crate::kind::Kind;
use crate::look::Look;
use crate::order::{look_at_order, order_at};
use crate::spelling::{Spelling, spell};
use crate::trial::Trial;
use kl1_clause::Predicate;
use kl1_goals::Standing;
use kl1_match_guard::{Evaluated, evaluate_cell};
use kl1_match_verdict::choose;
use kl1_model::{Number, Rules};
use kl1_store::Store;
use kl1_text::NameValue;
use std::alloc::AllocError;

/// What a call does by the least clause that accepts it, of the predicate at a place.
fn called(clause: Option<u64>, place: u64) -> Standing
    ensures { result ≡ standing_by clause place }
{
    match clause {
        None => Standing::Waits,
        Some(number) => {
            if number == 0 {
                return Standing::Fails;
            }
            Standing::Commits(number, place)
        }
    }
}

/// What a goal does whose first argument becomes a number.
fn becoming(number: Number) -> Standing
    ensures { result ≡ becoming number }
{
    match number {
        Number::Value(integer) => Standing::Becomes(integer),
        Number::Overflow => Standing::Overflows,
        Number::ZeroDivisor => Standing::Misuses,
    }
}

/// What a goal of a kind can do by the rules of its account, by the least clause by which it can step, if its predicate stands at a
/// place among the modules. The trial gets the variables that it waits for; they are unbound.
#[inline(always)]
pub fn standing_of<N: NameValue>(
    store: &Store<N>,
    rules: Rules,
    kind: Kind<N>,
    predicate: Predicate<'_, N>,
    place: u64,
    trial: &mut Trial<N>,
) -> Result<Standing, AllocError>
    requires kind { KindIn store.now.held kind }
    requires predicate { AreSome predicate.names.now predicate.clauses.now }
    ensures unbound { OnOk result (AreUnbound store.now.held trial.new.awaited.items) }
    ensures remembers { OnOk result (Remembers N.built store.now.held trial.new.scratch.same) }
    ensures standing { IfOk result (λ standing. (f : N → List ℕ) → Reads N.built f → (modules : List Module) (t : Term) → IsKind f store.now.held t kind → HasPredicate f store.now.held modules kind predicate.entry → StandsAs rules modules t trial.new.awaited.items standing) }
{
    trial.awaited.clear();
    store.forget(&mut trial.scratch.same);
    match kind {
        Kind::Calls(call) => {
            let clause = choose(
                store,
                predicate.names,
                predicate.clauses,
                call.cell(),
                &mut trial.scratch,
                &mut trial.awaited,
            )?;
            Ok(called(clause, place))
        }
        Kind::Unifies(_, _) => Ok(Standing::Unifies),
        Kind::Assigns(_, right) => match evaluate_cell(store, right, &mut trial.guard)? {
            Evaluated::ComesTo(number) => Ok(becoming(number)),
            Evaluated::Awaits(first) => {
                trial.awaited.push(first)?;
                Ok(Standing::Waits)
            }
            Evaluated::IsNoExpression => Ok(Standing::Misuses),
        },
        Kind::Spells(codes, _) => match spell(store, rules, codes, &mut trial.text) {
            Spelling::Spelled => Ok(Standing::Names),
            Spelling::Waits(code) => {
                trial.awaited.push(code)?;
                Ok(Standing::Waits)
            }
            Spelling::Misspelled => Ok(Standing::Misuses),
        },
        Kind::Executes(structure) => match look_at_order(store, order_at(store, structure)) {
            Look::Right => Ok(Standing::Opens),
            Look::Waits(argument) => {
                trial.awaited.push(argument)?;
                Ok(Standing::Waits)
            }
            Look::Wrong => Ok(Standing::Misuses),
        },
        Kind::Goes => Ok(Standing::Goes),
        Kind::Waits(variable) => {
            trial.awaited.push(variable)?;
            Ok(Standing::Waits)
        }
        Kind::Nothing => Ok(Standing::Waits),
    }
}
