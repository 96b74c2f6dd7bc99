// What goals do that were judged: no clause is tried, no expression is reckoned, and no order is looked at again.

ghost use Rattle.std.specs.Prelude.{◌≡◌, ℕ, ◌<◌, List, Some, IfOk, IfSome, MatchOption, length};
ghost use Rattle.kl1_model.specs.Term.{Term};
ghost use Rattle.kl1_model.specs.Module.{Module};
ghost use Rattle.kl1_model.specs.declared.rules.Rules.{Rules};
ghost use Rattle.kl1_model.specs.code.Waits.{term_clause};
ghost use Rattle.kl1_text.specs.Reading.{Reads};
ghost use Rattle.kl1_store.specs.Held.{IsIn, arguments_of};
ghost use Rattle.kl1_store.specs.Meaning.{term_of};
ghost use Rattle.kl1_store.specs.InModules.{qualified_term};
ghost use Rattle.kl1_clause.specs.declared.predicate.Predicate.{Predicate};
ghost use Rattle.kl1_clause.specs.Predicates.{AreSome};
ghost use Rattle.kl1_match.specs.declared.place.Place.{Place};
ghost use Rattle.kl1_goals.specs.Readies.{clause_in};
ghost use Rattle.kl1_goals_moves.specs.declared.kind.Kind.TheVariants.{Calls};
ghost use Rattle.kl1_model.specs.Look as model;
ghost use Rattle.kl1_goals_moves.specs.declared.order.ExecuteArguments.{ExecuteArguments};
ghost use Rattle.kl1_goals_moves.specs.Calls.{cell_of, CalledBetween, CalledInside};
ghost use Rattle.kl1_goals_moves.specs.Kinds.{IsCall};
ghost use Rattle.kl1_goals_moves.specs.Orders.{IsOrder, order_at};
ghost use Rattle.kl1_goals_moves.specs.Judged.{IsCalling, DoesAs, IsNoCommit, order_goal};
ghost use Rattle.kl1_model.specs.Meaning.{pair};
ghost use Rattle.kl1_goals_moves.specs.Moves.{taken_places, HasPredicate, MoveIn, MovesAs};

use crate::call::Call;
use crate::calling::{Callee, called, called_in};
use crate::moves::Move;
use crate::opening::naming;
use crate::shape::{Shape, shape_of};
use crate::spelling::spell;
use crate::trial::Trial;
use kl1_clause::Predicate;
use kl1_goals::Standing;
use kl1_match_verdict::find_places;
use kl1_model::{BuiltIn, Rules};
use kl1_store::{Cell, Qualified, Store};
use kl1_text::NameValue;
use std::alloc::AllocError;

/// The two arguments of a goal, if it has two.
#[inline(always)]
fn two_of<N: NameValue>(store: &Store<N>, goal: Cell<N>) -> Option<(Cell<N>, Cell<N>)>
    requires { IsIn store.now.held goal }
    ensures inside { IfSome result (λ two. IsIn store.now.held two.0 × IsIn store.now.held two.1) }
    ensures two { (f : N → List ℕ) (name : List ℕ) (a b : Term) → term_of f store.now.held goal ≡ pair name a b → MatchOption result ⊥ (λ two. (term_of f store.now.held two.0 ≡ a) × (term_of f store.now.held two.1 ≡ b)) }
{
    match shape_of(store, goal) {
        Shape::Two(_, left, right) => Some((left, right)),
        Shape::Variable(_) => None,
        Shape::Atom(_) => None,
        Shape::Other => None,
    }
}

/// What is called by a goal that is in no module of a name, if it has two arguments.
#[inline(never)]
fn callee_of_whole<N: NameValue>(store: &Store<N>, goal: Cell<N>) -> Callee<N>
    requires { IsIn store.now.held goal }
    ensures inside { CalledInside store.now.held result }
    ensures called { (f : N → List ℕ) (name : List ℕ) (a b : Term) → term_of f store.now.held goal ≡ pair name a b → CalledBetween f store.now.held a b result }
{
    match two_of(store, goal) {
        None => Callee::Nothing,
        Some((left, right)) => called(store, left, right),
    }
}

/// What is called by a goal.
#[inline(always)]
fn callee_of<N: NameValue>(store: &Store<N>, goal: Qualified<N>) -> Callee<N>
    requires { IsIn store.now.held goal.cell }
    ensures inside { CalledInside store.now.held result }
    ensures called { (f : N → List ℕ) (name : List ℕ) (a b : Term) → qualified_term f store.now.held goal ≡ pair name a b → CalledBetween f store.now.held a b result }
{
    match goal.module_name {
        None => callee_of_whole(store, goal.cell),
        Some(name) => called_in(store, name, goal.cell),
    }
}

/// The call that a goal is which was judged to be one.
#[inline(always)]
pub fn call_at<N: NameValue>(store: &Store<N>, goal: Qualified<N>) -> Option<Call<N>>
    requires { IsIn store.now.held goal.cell }
    ensures inside { IfSome result (λ call. IsIn store.now.held (cell_of call)) }
    ensures call { (f : N → List ℕ) → Reads N.built f → IsCalling (qualified_term f store.now.held goal) → MatchOption result ⊥ (IsCall f store.now.held (qualified_term f store.now.held goal)) }
{
    match callee_of(store, goal) {
        Callee::Calls(call) => Some(call),
        Callee::Waits(_) => None,
        Callee::Nothing => None,
    }
}

/// The move of a call by the clause numbered `number`, from 1, of which it is known to be the least that accepts the call; of another
/// clause nothing is said.
#[inline(always)]
pub fn commit_as_judged<N: NameValue>(
    store: &Store<N>,
    call: Call<N>,
    predicate: Predicate<'_, N>,
    number: u64,
    trial: &mut Trial<N>,
) -> Result<Option<Move<N>>, AllocError>
    requires call { IsIn store.now.held (cell_of call) }
    requires predicate { AreSome predicate.names.now predicate.clauses.now }
    ensures inside { IfOk result (MoveIn store.now.held predicate.entry (taken_places trial.new) trial.new.text) }
    ensures moves { IfOk result (λ found. (f : N → List ℕ) → Reads N.built f → (rules : Rules) (modules : List Module) (t : Term) → IsCall f store.now.held t call → HasPredicate f store.now.held modules (Calls call) predicate.entry → 0 < number → term_clause rules modules t ≡ Some number → MovesAs f store.now.held rules modules t number predicate.entry (taken_places trial.new) trial.new.text found) }
{
    let place = number.wrapping_sub(1) as usize;
    if place >= predicate.clauses.len() {
        return Ok(None);
    }
    trial.is_in_order = find_places(
        store,
        predicate.names,
        predicate.clauses,
        place,
        call.cell(),
        &mut trial.scratch,
        &mut trial.places,
        &mut trial.awaited,
    )?;
    Ok(Some(Move::Commits(place)))
}

/// The structure of the six arguments of an order that a goal gives, if it gives one.
fn order_of<N: NameValue>(store: &Store<N>, goal: Qualified<N>) -> Option<u32>
    requires { IsIn store.now.held goal.cell }
    ensures inside { IfSome result (λ s. (s < length store.now.held.structures) × (length (arguments_of store.now.held s) ≡ 6)) }
    ensures order { (f : N → List ℕ) (o : model.ExecuteArguments) → qualified_term f store.now.held goal ≡ order_goal o → MatchOption result ⊥ (λ s. (x : ExecuteArguments N) → IsOrder store.now.held s x → order_at f store.now.held x ≡ o) }
{
    // Only for the proof: what the store holds is formed.
    let _ = store.mark();
    let Callee::Calls(call) = callee_of(store, goal) else {
        return None;
    };
    if call.count != 6 {
        return None;
    }
    call.structure
}

/// What a goal does that was judged and stands so, if it doesn't commit to a clause.
#[inline(always)]
pub fn move_as_judged<N: NameValue>(
    store: &Store<N>,
    rules: Rules,
    goal: Qualified<N>,
    standing: Standing,
    trial: &mut Trial<N>,
) -> Option<Move<N>>
    requires { IsIn store.now.held goal.cell }
    ensures inside { (p : Predicate N) (places : List (Place N)) → MoveIn store.now.held p places trial.new.text result }
    ensures moves { (f : N → List ℕ) → Reads N.built f → IsNoCommit standing → DoesAs rules (qualified_term f store.now.held goal) standing → (modules : List Module) (number : ℕ) → clause_in standing ≡ Some number → term_clause rules modules (qualified_term f store.now.held goal) ≡ Some number → (p : Predicate N) (places : List (Place N)) → MovesAs f store.now.held rules modules (qualified_term f store.now.held goal) number p places trial.new.text result }
{
    match standing {
        Standing::Waits => None,
        Standing::Commits(_, _) => None,
        Standing::Fails => Some(Move::Raises(BuiltIn::Failure)),
        Standing::Unifies => {
            let (left, right) = two_of(store, goal.cell)?;
            Some(Move::Unifies(left, right))
        }
        Standing::Becomes(value) => {
            let (left, _) = two_of(store, goal.cell)?;
            Some(Move::Unifies(left, Cell::Integer(value)))
        }
        Standing::Overflows => Some(Move::Raises(BuiltIn::Overflow)),
        Standing::Misuses => Some(Move::Raises(BuiltIn::IllegalInput)),
        Standing::Names => {
            let (list, target) = two_of(store, goal.cell)?;
            naming(target, spell(store, rules, list, &mut trial.text))
        }
        Standing::Opens => {
            let structure = order_of(store, goal)?;
            Some(Move::Opens(structure))
        }
        Standing::Goes => Some(Move::Goes),
        Standing::Reads => None,
        Standing::GivesWay => None,
    }
}
