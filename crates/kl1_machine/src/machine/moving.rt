// Moves of goals.

ghost use Rattle.std.specs.Prelude.{◌≤◌, length, Some, OnOk};
ghost use Rattle.kl1_model.specs.declared.limits.TheConstants.{MONITOR_PRIORITY};
ghost use Rattle.kl1_store.specs.Held.{IsIn};
ghost use Rattle.kl1_clause.specs.Predicates.{AreSome};
ghost use Rattle.kl1_goals_moves.specs.Moves.{taken_places, MoveIn};
ghost use Rattle.kl1_user_effects.specs.Kept.{IsOwned};
ghost use Rattle.kl1_machine.specs.declared.machine.Machine.{Machine};
ghost use Rattle.kl1_machine.specs.Machines.{IsMachine};
ghost use Rattle.kl1_machine.specs.Since.{Since, StillSince};
ghost use Rattle.kl1_machine.specs.Moving.{MovesAs};
ghost use Rattle.kl1_machine.specs.Naming.{IsNameless};

use crate::machine::Machine;
use kl1_clause::Predicate;
use kl1_goals::{Goal, Task};
use kl1_goals_moves::{Move, Trial, order_at};
use kl1_model::BuiltIn;
use kl1_store::{Qualified, Unified};
use kl1_store_unify::unify;
use kl1_text::CellName;
use std::alloc::AllocError;

impl Machine {
    /// Applies a move, by which no name is used, to a goal that has been removed and is this cell. If the move would pass a limit, or two
    /// terms have no unifier, the goal raises an exception. Goals that wait for a variable that is bound are told when the event ends. `cells`
    /// is of no use after it.
    pub(crate) fn apply_move(
        &mut self,
        predicate: Predicate<'_, CellName>,
        made: Move<CellName>,
        trial: &mut Trial<CellName>,
        cells: &mut Vec<Qualified<CellName>>,
        goal: &Goal<CellName>,
        cell: Qualified<CellName>,
    ) -> Result<(), AllocError>
        requires machine { IsMachine self.old }
        requires nameless { IsNameless made }
        requires predicate { AreSome predicate.names.now predicate.clauses.now }
        requires inside { MoveIn self.old.store.held predicate (taken_places trial.old) trial.old.text (Some made) }
        requires cell { IsIn self.old.store.held cell.cell }
        requires owned { IsOwned (length self.old.shoens.shoens) goal.now }
        requires level { goal.now.priority ≤ MONITOR_PRIORITY }
        ensures ok { OnOk result (MovesAs (record { predicate = predicate.entry; move = made; places = taken_places trial.old; text = trial.old.text }) goal.now cell self.old self.new) }
        ensures since { (b : Machine) → Since b self.old → StillSince result b self.new }
    {
        match made {
            Move::Commits(place) => self.commit(predicate, place, trial, cells, goal, cell),
            Move::Raises(kind) => self.raise(*goal, kind, cell),
            Move::Unifies(left, right) => match unify(&mut self.store, left, right)? {
                Unified::Bound => Ok(()),
                Unified::Clash => self.raise(*goal, BuiltIn::Failure, cell),
            },
            Move::Names(_target) => unreachable!(),
            Move::Opens(structure) => {
                // Only for the proof: which order the structure is.
                let _order = order_at(&self.store, structure);
                self.open_child(structure, *goal, cell)
            }
            Move::Goes => Ok(()),
            Move::GivesWay => self.put(goal.shoen, goal.priority, Task::Reduces(cell)),
        }
    }
}
