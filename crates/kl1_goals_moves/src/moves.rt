// What goals can do.

ghost use Rattle.std.specs.Prelude.{◌≡◌, ℕ, ◌<◌, List, map, Some, IfOk};
ghost use Rattle.kl1_model.specs.Module.{Clause, Module};
ghost use Rattle.kl1_model.specs.Term.{Term};
ghost use Rattle.kl1_text.specs.Reading.{Reads};
ghost use Rattle.kl1_store.specs.Held.{IsIn};
ghost use Rattle.kl1_clause.specs.Clauses.{AreCompiled};
ghost use Rattle.kl1_clause.specs.Predicates.{AreSome};
ghost use Rattle.kl1_goals_moves.specs.Calls.{cell_of};
ghost use Rattle.kl1_goals_moves.specs.Kinds.{IsKind, KindIn};
ghost use Rattle.kl1_goals_moves.specs.Moves.{taken_places, HasPredicate, MoveIn, FailsAs, CommitsAs, MovesAs};

use crate::assigning::assigned;
use crate::call::Call;
use crate::kind::Kind;
use crate::opening::{naming, opening};
use crate::order::{look_at_order, order_at};
use crate::spelling::spell;
use crate::trial::Trial;
use kl1_clause::Predicate;
use kl1_match_guard::evaluate_cell;
use kl1_match_verdict::{choose, is_candidate};
use kl1_model::{BuiltIn, Rules};
use kl1_store::{Cell, Store};
use kl1_text::NameValue;
use std::alloc::AllocError;

/// What a goal can do: commit to the clause at a place among those of its predicate, from 0; raise an exception of the kind of a
/// name; unify two terms; use the text in the trial as a name and unify a term with it; open a shoen by the order that a structure
/// of six arguments is; nothing but go; or, as a substitute, give way to a goal of what it waited for.
#[derive(Clone, Copy)]
pub enum Move<N> {
    Commits(usize),
    Raises(BuiltIn),
    Unifies(Cell<N>, Cell<N>),
    Names(Cell<N>),
    Opens(u32),
    Goes,
    GivesWay,
}

/// What a goal of a kind can do by the clause numbered `clause` and the rules of its account, or nothing if that isn't allowed. If
/// it commits, the cells at the places of the clause's head are in the trial, and if it uses a name, its text is; otherwise nothing
/// is said of what is there.
pub fn move_of<N: NameValue>(
    store: &Store<N>,
    rules: Rules,
    kind: Kind<N>,
    predicate: Predicate<'_, N>,
    clause: u64,
    trial: &mut Trial<N>,
) -> Result<Option<Move<N>>, AllocError>
    requires kind { KindIn store.now.held kind }
    requires predicate { AreSome predicate.names.now predicate.clauses.now }
    ensures inside { IfOk result (MoveIn store.now.held predicate.entry (taken_places trial.new) trial.new.text) }
    ensures moves { IfOk result (λ found. (f : N → List ℕ) → Reads N.built f → (modules : List Module) (t : Term) → IsKind f store.now.held t kind → HasPredicate f store.now.held modules kind predicate.entry → MovesAs f store.now.held rules modules t clause predicate.entry (taken_places trial.new) trial.new.text found) }
{
    match kind {
        Kind::Calls(call) => {
            if clause == 0 {
                return failing(store, call, predicate, trial);
            }
            committing(store, call, predicate, clause, trial)
        }
        Kind::Unifies(left, right) => {
            if clause == 0 {
                return Ok(Some(Move::Unifies(left, right)));
            }
            Ok(None)
        }
        Kind::Assigns(left, right) => {
            if clause == 0 {
                let value = evaluate_cell(store, right, &mut trial.guard)?;
                return Ok(assigned(left, value));
            }
            Ok(None)
        }
        Kind::Spells(codes, target) => {
            if clause == 0 {
                return Ok(naming(target, spell(store, rules, codes, &mut trial.text)));
            }
            Ok(None)
        }
        Kind::Executes(structure) => {
            if clause == 0 {
                let look = look_at_order(store, order_at(store, structure));
                return Ok(opening(structure, look));
            }
            Ok(None)
        }
        Kind::Goes => {
            if clause == 0 {
                return Ok(Some(Move::Goes));
            }
            Ok(None)
        }
        Kind::Waits(_) => Ok(None),
        Kind::Nothing => Ok(None),
    }
}

/// The move of a call that fails, or nothing.
fn failing<N: NameValue>(
    store: &Store<N>,
    call: Call<N>,
    predicate: Predicate<'_, N>,
    trial: &mut Trial<N>,
) -> Result<Option<Move<N>>, AllocError>
    requires call { IsIn store.now.held (cell_of call) }
    requires predicate { AreSome predicate.names.now predicate.clauses.now }
    ensures inside { IfOk result (MoveIn store.now.held predicate.entry (taken_places trial.new) trial.new.text) }
    ensures fails { IfOk result (λ found. (f : N → List ℕ) → Reads N.built f → (cs : List Clause) → AreCompiled (map f predicate.entry.names.now) predicate.entry.clauses.now cs → FailsAs f store.now.held call cs found) }
{
    trial.awaited.clear();
    match choose(
        store,
        predicate.names,
        predicate.clauses,
        call.cell(),
        &mut trial.scratch,
        &mut trial.awaited,
    )? {
        None => Ok(None),
        Some(number) => {
            if number == 0 {
                return Ok(Some(Move::Raises(BuiltIn::Failure)));
            }
            Ok(None)
        }
    }
}

/// The move of a call by the clause numbered `number`, from 1, or nothing.
fn committing<N: NameValue>(
    store: &Store<N>,
    call: Call<N>,
    predicate: Predicate<'_, N>,
    number: u64,
    trial: &mut Trial<N>,
) -> Result<Option<Move<N>>, AllocError>
    requires call { IsIn store.now.held (cell_of call) }
    requires number { 0 < number }
    requires predicate { AreSome predicate.names.now predicate.clauses.now }
    ensures inside { IfOk result (MoveIn store.now.held predicate.entry (taken_places trial.new) trial.new.text) }
    ensures commits { IfOk result (λ found. (f : N → List ℕ) → Reads N.built f → (cs : List Clause) → AreCompiled (map f predicate.entry.names.now) predicate.entry.clauses.now cs → CommitsAs f store.now.held call predicate.entry cs number (taken_places trial.new) found) }
{
    let place = (number - 1) as usize;
    if place >= predicate.clauses.len() {
        return Ok(None);
    }
    trial.awaited.clear();
    trial.is_in_order = false;
    if is_candidate(
        store,
        predicate.names,
        predicate.clauses,
        place,
        call.cell(),
        &mut trial.scratch,
        &mut trial.places,
        &mut trial.awaited,
    )? {
        return Ok(Some(Move::Commits(place)));
    }
    Ok(None)
}
