// What goals can do.

ghost use Rattle.std.specs.Prelude.{◌≡◌, ◌||◌, ℕ, true, List, IfOk};
ghost use Rattle.kl1_text.specs.declared.cell_name.CellName.{CellName};
ghost use Rattle.kl1_store.specs.Held.{IsIn};
ghost use Rattle.kl1_store.specs.Hooks.{HasGrown};
ghost use Rattle.kl1_clause.specs.Predicates.{AreSome};
ghost use Rattle.kl1_goals_moves.specs.Kinds.{KindIn};
ghost use Rattle.kl1_goals.specs.declared.task.Task.TheVariants.{Monitor, Reduces, Substitutes};
ghost use Rattle.kl1_goals.specs.Lists.{is_monitor};
ghost use Rattle.kl1_shoen.specs.Shoens.{is_enabled_at};
ghost use Rattle.kl1_shoen_paths.specs.declared.shoen.Shoen.{Shoen};
ghost use Rattle.kl1_codes.specs.Shelves.{Program};
ghost use Rattle.kl1_user_effects.specs.Kept.{IsTaskIn, AreShoensIn};
ghost use Rattle.kl1_ready.specs.Ready.{IsReadyBy, IsHeardAt, IsReadyAt};

use crate::call_cache::{CallCache, predicate_of};
use kl1_codes::{CodeSource, Located};
use kl1_goals::{Goal, Rules, Standing, Task};
use kl1_goals_moves::{Kind, Trial, kind_of_qualified, standing_of, substitute_standing};
use kl1_shoen::ShoenTree;
use kl1_store::{Cell, Qualified, Store};
use kl1_store_hooks::hang_on;
use kl1_stream::{Control, read_control};
use kl1_text::CellName;
use std::alloc::AllocError;

/// What goal `number`, which is of a kind, can do by these rules and the clauses of its predicate. The number is hung on each
/// variable that the goal waits for then; if memory is refused, it may hang on some of them.
#[inline(always)]
pub(crate) fn ready_or_suspend(
    store: &mut Store<CellName>,
    rules: Rules,
    kind: Kind<CellName>,
    located: Located<'_>,
    trial: &mut Trial<CellName>,
    number: u64,
) -> Result<Standing, AllocError>
    requires kind { KindIn store.old.held kind }
    requires predicate { AreSome located.predicate.names.now located.predicate.clauses.now }
    ensures ready { IfOk result (λ standing. IsReadyBy rules store.old.held store.new.hooks kind located.entry.predicate number standing) }
    ensures held { store.new.held ≡ store.old.held }
    ensures grown { HasGrown store.old store.new }
{
    let standing = standing_of(store, rules, kind, located.predicate, located.place, trial)?;
    if !trial.awaited.is_empty() {
        store.keep_rests(&trial.scratch.same)?;
        hang_on(store, trial.awaited.as_slice(), number)?;
    }
    Ok(standing)
}

/// What goal `number` can do, which is for a cell.
#[inline(always)]
fn standing_of_goal<C: CodeSource>(
    store: &mut Store<CellName>,
    calls: &CallCache<'_, '_, C>,
    trial: &mut Trial<CellName>,
    number: u64,
    cell: Qualified<CellName>,
) -> Result<Standing, AllocError>
    requires cell { IsIn store.old.held cell.cell }
    ensures ready { IfOk result (λ standing. (shoens : List (Shoen CellName)) (shoen : ℕ) → IsReadyAt calls.now.modules.now shoens store.old.held store.new.hooks number shoen (Reduces cell) standing) }
    ensures held { store.new.held ≡ store.old.held }
    ensures grown { HasGrown store.old store.new }
{
    let kind = kind_of_qualified(store, cell);
    let located = predicate_of(calls.modules, kind, calls.hint);
    ready_or_suspend(store, calls.modules.rules(), kind, located, trial, number)
}

/// What monitor `number` can do that reads this control stream. The number is hung on the variable that it waits for then.
fn standing_of_control(
    store: &mut Store<CellName>,
    control: Cell<CellName>,
    number: u64,
) -> Result<Standing, AllocError>
    requires { IsIn store.old.held control }
    ensures ready { IfOk result (λ standing. IsHeardAt store.old.held store.new.hooks control number standing) }
    ensures held { store.new.held ≡ store.old.held }
    ensures grown { HasGrown store.old store.new }
{
    match read_control(store, control) {
        Control::Awaits(variable) => {
            hang_on(store, &[variable], number)?;
            Ok(Standing::Waits)
        }
        Control::Tells(_message, _rest) => Ok(Standing::Reads),
        Control::TellsOther(_element, _rest) => Ok(Standing::Reads),
        Control::Ends => Ok(Standing::Reads),
        Control::BreaksOff(_cell) => Ok(Standing::Reads),
    }
}

/// What the monitor of a shoen can do, as `standing_of_control` tells; it waits if there is no such shoen.
#[inline(never)]
pub(crate) fn standing_of_monitor(
    store: &mut Store<CellName>,
    shoens: &ShoenTree<CellName>,
    number: u64,
    shoen: u64,
) -> Result<Standing, AllocError>
    requires { AreShoensIn store.old.held shoens.now.shoens }
    ensures ready { IfOk result (λ standing. (program : Program) → IsReadyAt program shoens.now.shoens store.old.held store.new.hooks number shoen Monitor standing) }
    ensures held { store.new.held ≡ store.old.held }
    ensures grown { HasGrown store.old store.new }
{
    match shoens.lend(shoen) {
        None => Ok(Standing::Waits),
        Some(found) => standing_of_control(store, found.control, number),
    }
}

/// What substitute `number` can do, for what a cell is. The number is hung on the variable that it waits for then.
pub(crate) fn standing_of_substitute(
    store: &mut Store<CellName>,
    trial: &mut Trial<CellName>,
    number: u64,
    term: Cell<CellName>,
) -> Result<Standing, AllocError>
    requires term { IsIn store.old.held term }
    ensures ready { IfOk result (λ standing. (program : Program) (shoens : List (Shoen CellName)) (shoen : ℕ) → IsReadyAt program shoens store.old.held store.new.hooks number shoen (Substitutes term) standing) }
    ensures held { store.new.held ≡ store.old.held }
    ensures grown { HasGrown store.old store.new }
{
    let standing = substitute_standing(store, term, trial)?;
    if !trial.awaited.is_empty() {
        hang_on(store, trial.awaited.as_slice(), number)?;
    }
    Ok(standing)
}

/// What a goal can do. The goal's number is hung on each variable that it waits for.
#[inline(always)]
pub fn judge<C: CodeSource>(
    store: &mut Store<CellName>,
    shoens: &ShoenTree<CellName>,
    calls: &CallCache<'_, '_, C>,
    trial: &mut Trial<CellName>,
    goal: &Goal<CellName>,
) -> Result<Standing, AllocError>
    requires task { IsTaskIn store.old.held goal.now.task }
    requires shoens { AreShoensIn store.old.held shoens.now.shoens }
    ensures ready { IfOk result (λ standing. IsReadyAt calls.now.modules.now shoens.now.shoens store.old.held store.new.hooks goal.now.number goal.now.shoen goal.now.task standing) }
    ensures held { store.new.held ≡ store.old.held }
    ensures grown { HasGrown store.old store.new }
{
    match goal.task {
        Task::Monitor => standing_of_monitor(store, shoens, goal.number, goal.shoen),
        Task::Reduces(cell) => standing_of_goal(store, calls, trial, goal.number, cell),
        Task::Substitutes(term) => standing_of_substitute(store, trial, goal.number, term),
    }
}
