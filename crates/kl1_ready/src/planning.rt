// What goals are to do.

ghost use Rattle.std.specs.Prelude.{◌≡◌, ℕ, true, List, Some, IfOk, MatchOption};
ghost use Rattle.kl1_text.specs.declared.cell_name.CellName.{CellName};
ghost use Rattle.kl1_store.specs.Held.{IsIn};
ghost use Rattle.kl1_match.specs.declared.place.Place.{Place};
ghost use Rattle.kl1_text.specs.Reading.{Reads};
ghost use Rattle.kl1_clause.specs.declared.predicate.Predicate.{Predicate};
ghost use Rattle.kl1_goals.specs.declared.goal.Goal.{Goal};
ghost use Rattle.kl1_goals.specs.declared.standing.Standing.TheVariants.{Commits};
ghost use Rattle.kl1_goals.specs.Readies.{clause_in};
ghost use Rattle.kl1_goals_moves.specs.Judged.{SubstituteDoes};
ghost use Rattle.kl1_goals_moves.specs.Substitutes.{SubstituteMoves};
ghost use Rattle.kl1_goals_moves.specs.Moves.{taken_places, MoveIn};
ghost use Rattle.kl1_user_effects.specs.Fitting.{Reading, built};
ghost use Rattle.kl1_user_effects.specs.Account.{meaning};
ghost use Rattle.kl1_goals.specs.declared.task.Task.TheVariants.{Monitor, Reduces, Substitutes};
ghost use Rattle.kl1_codes.specs.Shelves.{Program};
ghost use Rattle.kl1_user_effects.specs.Kept.{IsTaskIn, AreShoensIn};
ghost use Rattle.kl1_user_effects.specs.Works.{Made};
ghost use Rattle.kl1_ready.specs.Plans.{is_read, IsPlan, DoesNothing};

use crate::call_cache::{located_or_none, predicate_of};
use kl1_codes::{CodeSource, CodedModules, Located};
use kl1_goals::{Goal, Standing, Task};
use kl1_goals_moves::{
    Kind, Move, Trial, call_at, commit_as_judged, kind_of_qualified, move_as_judged, move_of,
    substitute_as_judged, substitute_move,
};
use kl1_shoen::ShoenTree;
use kl1_store::{Cell, Qualified, Store};
use kl1_stream::{Control, read_control};
use kl1_text::CellName;
use std::alloc::AllocError;

/// A move that a goal is to make, which is this cell, and the predicate that it calls, if it calls one.
#[derive(Clone, Copy)]
pub struct PlannedMove<'a> {
    pub cell: Qualified<CellName>,
    pub located: Located<'a>,
    pub made: Move<CellName>,
}

/// What a goal is to do: a monitor reads, and any other goal makes a move.
#[derive(Clone, Copy)]
pub enum Plan<'a> {
    Reads(Control<CellName>),
    Moves(PlannedMove<'a>),
}

/// Whether a monitor reads what stands before it: it isn't a variable.
fn is_read(control: Control<CellName>) -> bool
    ensures { result ≡ is_read control }
{
    match control {
        Control::Awaits(_variable) => false,
        Control::Tells(_message, _rest) => true,
        Control::TellsOther(_element, _rest) => true,
        Control::Ends => true,
        Control::BreaksOff(_cell) => true,
    }
}

/// What a monitor is to do by a clause; nothing if it waits.
fn plan_reading<'a>(
    store: &Store<CellName>,
    shoens: &ShoenTree<CellName>,
    goal: Goal<CellName>,
    clause: u64,
) -> Option<Plan<'a>>
    requires shoens { AreShoensIn store.now.held shoens.now.shoens }
    requires monitor { goal.task ≡ Monitor }
    ensures { (program : Program) (w : Made) (places : List (Place CellName)) (text : List ℕ) → w.shoens ≡ shoens.now.shoens → MatchOption result (DoesNothing program store.now.held w goal clause) (IsPlan program store.now.held w goal clause places text) }
{
    if clause != 0 {
        return None;
    }
    let Some(shoen) = shoens.lend(goal.shoen) else {
        return None;
    };
    let control = read_control(store, shoen.control);
    if !is_read(control) {
        return None;
    }
    Some(Plan::Reads(control))
}

/// Whether this is the clause by which a goal can step.
#[inline(always)]
fn stands_by(goal: &Goal<CellName>, clause: u64) -> bool
    ensures { result ≡ true → clause_in goal.now.standing ≡ Some clause }
{
    match goal.standing.clause() {
        None => false,
        Some(own) => own == clause,
    }
}

/// What a goal for a cell is to do by a clause of its predicate, as if it had not been judged; nothing if it can do nothing by it.
#[inline(never)]
fn plan_anew<'a, C: CodeSource>(
    store: &Store<CellName>,
    modules: &'a CodedModules<'_, C>,
    trial: &mut Trial<CellName>,
    cell: Qualified<CellName>,
    clause: u64,
) -> Result<Option<Plan<'a>>, AllocError>
    requires cell { IsIn store.now.held cell.cell }
    ensures { IfOk result (λ o. (goal : Goal CellName) (w : Made) → goal.task ≡ Reduces cell → w.rules ≡ modules.now.rules → MatchOption o (DoesNothing modules.now store.now.held w goal clause) (IsPlan modules.now store.now.held w goal clause (taken_places trial.new) trial.new.text)) }
{
    let kind = kind_of_qualified(store, cell);
    let located = predicate_of(modules, kind, 0);
    let rules = modules.rules();
    let Some(made) = move_of(store, rules, kind, located.predicate, clause, trial)? else {
        return Ok(None);
    };
    Ok(Some(Plan::Moves(PlannedMove {
        cell,
        located,
        made,
    })))
}

/// What a goal that was judged to commit is to do, by a clause of the predicate at a place.
#[inline(always)]
fn plan_commit<'a, C: CodeSource>(
    store: &Store<CellName>,
    modules: &'a CodedModules<'_, C>,
    trial: &mut Trial<CellName>,
    cell: Qualified<CellName>,
    clause: u64,
    place: u64,
) -> Result<Option<Plan<'a>>, AllocError>
    requires cell { IsIn store.now.held cell.cell }
    ensures { IfOk result (λ o. (goal : Goal CellName) (w : Made) → goal.task ≡ Reduces cell → goal.standing ≡ Commits clause place → w.rules ≡ modules.now.rules → MatchOption o (DoesNothing modules.now store.now.held w goal clause) (IsPlan modules.now store.now.held w goal clause (taken_places trial.new) trial.new.text)) }
{
    let Some(call) = call_at(store, cell) else {
        return Ok(None);
    };
    let located = located_or_none(modules.find(call.module_name, call.name, call.count, place));
    let Some(made) = commit_as_judged(store, call, located.predicate, clause, trial)? else {
        return Ok(None);
    };
    Ok(Some(Plan::Moves(PlannedMove {
        cell,
        located,
        made,
    })))
}

/// What a goal for a cell is to do by a clause of its predicate; nothing if it can do nothing by it.
#[inline(always)]
fn plan_move<'a, C: CodeSource>(
    store: &Store<CellName>,
    modules: &'a CodedModules<'_, C>,
    trial: &mut Trial<CellName>,
    goal: &Goal<CellName>,
    cell: Qualified<CellName>,
    clause: u64,
) -> Result<Option<Plan<'a>>, AllocError>
    requires reduces { goal.now.task ≡ Reduces cell }
    requires cell { IsIn store.now.held cell.cell }
    ensures { IfOk result (λ o. (w : Made) → w.rules ≡ modules.now.rules → MatchOption o (DoesNothing modules.now store.now.held w goal.now clause) (IsPlan modules.now store.now.held w goal.now clause (taken_places trial.new) trial.new.text)) }
{
    if !stands_by(goal, clause) {
        return plan_anew(store, modules, trial, cell, clause);
    }
    if let Standing::Commits(number, place) = goal.standing {
        return plan_commit(store, modules, trial, cell, number, place);
    }
    let Some(made) = move_as_judged(store, modules.rules(), cell, goal.standing, trial) else {
        return Ok(None);
    };
    Ok(Some(Plan::Moves(PlannedMove {
        cell,
        located: located_or_none(None),
        made,
    })))
}

/// The move of a substitute that waits for a cell by a clause, or nothing.
fn given_way(
    store: &Store<CellName>,
    goal: &Goal<CellName>,
    term: Cell<CellName>,
    clause: u64,
) -> Option<Move<CellName>>
    requires { IsIn store.now.held term }
    ensures inside { (p : Predicate CellName) (places : List (Place CellName)) (text : List ℕ) → MoveIn store.now.held p places text result }
    ensures moves { (f : Reading) → Reads built f → SubstituteDoes (meaning f store.now.held term) goal.now.standing → SubstituteMoves (meaning f store.now.held term) clause result }
{
    if !stands_by(goal, clause) {
        return substitute_move(store, term, clause);
    }
    substitute_as_judged(goal.standing)
}

/// What a substitute that waits for a cell is to do by a clause; nothing if it waits still.
fn plan_substitute<'a>(
    store: &Store<CellName>,
    goal: &Goal<CellName>,
    term: Cell<CellName>,
    clause: u64,
) -> Option<Plan<'a>>
    requires substitutes { goal.now.task ≡ Substitutes term }
    requires cell { IsIn store.now.held term }
    ensures { (program : Program) (w : Made) (places : List (Place CellName)) (text : List ℕ) → MatchOption result (DoesNothing program store.now.held w goal.now clause) (IsPlan program store.now.held w goal.now clause places text) }
{
    let Some(made) = given_way(store, goal, term, clause) else {
        return None;
    };
    let cell = Qualified {
        module_name: None,
        cell: term,
    };
    Some(Plan::Moves(PlannedMove {
        cell,
        located: located_or_none(None),
        made,
    }))
}

/// What a goal is to do by a clause; nothing if it can do nothing by it.
pub fn plan_of<'a, C: CodeSource>(
    store: &Store<CellName>,
    shoens: &ShoenTree<CellName>,
    modules: &'a CodedModules<'_, C>,
    trial: &mut Trial<CellName>,
    goal: &Goal<CellName>,
    clause: u64,
) -> Result<Option<Plan<'a>>, AllocError>
    requires task { IsTaskIn store.now.held goal.now.task }
    requires shoens { AreShoensIn store.now.held shoens.now.shoens }
    ensures { IfOk result (λ o. (w : Made) → w.rules ≡ modules.now.rules → w.shoens ≡ shoens.now.shoens → MatchOption o (DoesNothing modules.now store.now.held w goal.now clause) (IsPlan modules.now store.now.held w goal.now clause (taken_places trial.new) trial.new.text)) }
{
    match goal.task {
        Task::Monitor => Ok(plan_reading(store, shoens, *goal, clause)),
        Task::Reduces(cell) => plan_move(store, modules, trial, goal, cell, clause),
        Task::Substitutes(term) => Ok(plan_substitute(store, goal, term, clause)),
    }
}
