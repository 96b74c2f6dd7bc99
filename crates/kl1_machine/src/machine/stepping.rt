// The step of a goal.

ghost use Rattle.std.specs.Prelude.{◌≡◌, ◌+◌, ◌<◌, ◌≤◌, ◌^◌, true, length, Some, None, OnOk};
ghost use Rattle.kl1_model.specs.declared.limits.TheConstants.{MONITOR_PRIORITY};
ghost use Rattle.kl1_store.specs.Held.{IsIn};
ghost use Rattle.kl1_clause.specs.Predicates.{AreSome};
ghost use Rattle.kl1_goals_moves.specs.Moves.{taken_places, MoveIn};
ghost use Rattle.kl1_shoen.specs.Shoens.{is_enabled_at};
ghost use Rattle.kl1_user_effects.specs.Kept.{IsOwned};
ghost use Rattle.kl1_machine.specs.declared.machine.Machine.{Machine};
ghost use Rattle.kl1_machine.specs.Machines.{IsMachine};
ghost use Rattle.kl1_machine.specs.Since.{Since, StillSince};
ghost use Rattle.kl1_machine.specs.Stepping.{StepsAs};

use crate::machine::Machine;
use crate::machine::naming::Named;
use kl1_clause::Predicate;
use kl1_goals::Goal;
use kl1_goals_moves::{Move, Trial};
use kl1_store::Qualified;
use kl1_text::CellName;
use kl1_user_effects::PathScan;
use std::alloc::AllocError;

impl Machine {
    /// Runs a move of a goal that has been removed, might step and is this cell: its shoen is charged, the move is applied, and then shoens on
    /// its path report that they are exhausted, and terminate. If a variable becomes a name that is new to the account by it, this is the last
    /// binding, and a spare number stands for the name. `scan` and `cells` are of no use after it.
    pub(crate) fn step_goal(
        &mut self,
        scan: &mut PathScan,
        predicate: Predicate<'_, CellName>,
        made: Move<CellName>,
        trial: &mut Trial<CellName>,
        cells: &mut Vec<Qualified<CellName>>,
        goal: &Goal<CellName>,
        cell: Qualified<CellName>,
    ) -> Result<(), AllocError>
        requires machine { IsMachine self.old }
        requires none { self.old.name ≡ None }
        requires unspelled { self.old.spelled ≡ None }
        requires predicate { AreSome predicate.names.now predicate.clauses.now }
        requires inside { MoveIn self.old.store.held predicate (taken_places trial.old) trial.old.text (Some made) }
        requires cell { IsIn self.old.store.held cell.cell }
        requires owned { IsOwned (length self.old.shoens.shoens) goal.now }
        requires level { goal.now.priority ≤ MONITOR_PRIORITY }
        requires lets { is_enabled_at self.old.shoens.shoens self.old.shoens.work goal.now.shoen ≡ true }
        requires few { length self.old.shoens.work + 1 < 2 ^ 63 }
        ensures ok { OnOk result (StepsAs (record { predicate = predicate.entry; move = made; places = taken_places trial.old; text = trial.old.text }) goal.now cell self.old self.new) }
        ensures since { (b : Machine) → length self.old.shoens.work ≤ length b.shoens.work → Since b self.old → StillSince result b self.new }
    {
        self.charge(goal.shoen)?;
        match self.use_name(made, trial) {
            Named::Becomes(variable) => {
                // Nothing may be bound after it: what comes after the move comes first.
                self.end_path(scan, goal.shoen, Some(variable))?;
                self.bind_spare(variable)
            }
            Named::Does(found) => {
                self.apply_move(predicate, found, trial, cells, goal, cell)?;
                if self.is_calm(goal.shoen) {
                    return Ok(());
                }
                self.end_path(scan, goal.shoen, None)
            }
        }
    }
}
