// Goals that commit to clauses.

ghost use Rattle.std.specs.Prelude.{◌≡◌, ◌+◌, ◌<◌, ◌≤◌, ◌&&◌, nat_le, not, length, Some, OnOk};
ghost use Rattle.std.specs.List.{count_by};
ghost use Rattle.kl1_model.specs.declared.limits.TheConstants.{MONITOR_PRIORITY};
ghost use Rattle.kl1_model.specs.Rules.{limits_of};
ghost use Rattle.kl1_store.specs.Held.{IsIn};
ghost use Rattle.kl1_store.specs.InModules.{AreQualifiedIn};
ghost use Rattle.kl1_clause.specs.Predicates.{AreSome};
ghost use Rattle.kl1_match.specs.Instances.{AreThere};
ghost use Rattle.kl1_goals_moves.specs.Moves.{taken_places};
ghost use Rattle.kl1_goals.specs.Lists.{is_monitor};
ghost use Rattle.kl1_user_effects.specs.Kept.{IsOwned};
ghost use Rattle.kl1_user_effects.specs.Moving.{priorities_by};
ghost use Rattle.kl1_machine.specs.declared.machine.Machine.{Machine};
ghost use Rattle.kl1_machine.specs.Machines.{IsMachine, Keeps};
ghost use Rattle.kl1_machine.specs.Since.{Since, StillSince};
ghost use Rattle.kl1_machine.specs.Effects.{Commits, with_goals};

use crate::machine::Machine;
use kl1_clause::Predicate;
use kl1_goals::{Goal, Task};
use kl1_goals_moves::{Needs, Trial, commit as put_body, needs_of, priorities_of};
use kl1_model::BuiltIn;
use kl1_shoen::Shoen;
use kl1_store::Qualified;
use kl1_text::CellName;
use kl1_user_effects::{is_within, priority_in};
use std::alloc::AllocError;

impl Machine {
    /// Whether what `needs` counts keeps to the limits on goals, variables and structures.
    fn has_room(&self, needs: Needs) -> bool
        ensures { result ≡ (nat_le (count_by (λ g. not (is_monitor g)) self.now.goals.goals + needs.goals) (limits_of self.now.rules).goals && nat_le (self.now.counts.variables + needs.variables) (limits_of self.now.rules).variables && nat_le (self.now.counts.nodes + needs.nodes) (limits_of self.now.rules).nodes) }
    {
        let most = self.rules.limits();
        is_within(self.goals.alive(), needs.goals, most.goals)
            && is_within(self.counts.variables, needs.variables, most.variables)
            && is_within(self.counts.nodes, needs.nodes, most.nodes)
    }

    /// Puts goals for cells after all others, of a shoen. Each has its own of these priorities, or if that is none, the one that is given.
    fn put_each(
        &mut self,
        shoen: &Shoen<CellName>,
        own: u64,
        priorities: &[Option<u64>],
        cells: &[Qualified<CellName>],
    ) -> Result<(), AllocError>
        requires machine { IsMachine self.old }
        requires low { 0 < shoen.now.number }
        requires high { shoen.now.number ≤ length self.old.shoens.shoens }
        requires level { own ≤ MONITOR_PRIORITY }
        requires least { shoen.now.low ≤ MONITOR_PRIORITY }
        requires most { shoen.now.high ≤ MONITOR_PRIORITY }
        requires cells { AreQualifiedIn self.old.store.held cells.now }
        ensures ok { OnOk result (self.new ≡ with_goals shoen.now.number (priorities_by (Some shoen.now) own priorities.now) cells.now self.old) }
        ensures machine { OnOk result (IsMachine self.new) }
        ensures since { (b : Machine) → Since b self.old → StillSince result b self.new }
    {
        let mut left = cells;
        let mut named = priorities;
        while let [cell, others @ ..] = left {
            let [priority, more @ ..] = named else {
                return Ok(());
            };
            let level = priority_in(shoen, own, *priority);
            self.put(shoen.number, level, Task::Reduces(*cell))?;
            left = others;
            named = more;
        }
        Ok(())
    }

    /// Puts the goals of the body of the clause at a place of a predicate after all others, for a goal that has been removed, which is this
    /// cell; if a limit would be passed, the goal raises an exception. `cells` is of no use after it.
    pub fn commit(
        &mut self,
        predicate: Predicate<'_, CellName>,
        place: usize,
        trial: &mut Trial<CellName>,
        cells: &mut Vec<Qualified<CellName>>,
        goal: &Goal<CellName>,
        cell: Qualified<CellName>,
    ) -> Result<(), AllocError>
        requires machine { IsMachine self.old }
        requires place { place < length predicate.clauses.now }
        requires predicate { AreSome predicate.names.now predicate.clauses.now }
        requires places { AreThere self.old.store.held (taken_places trial.old) }
        requires cell { IsIn self.old.store.held cell.cell }
        requires owned { IsOwned (length self.old.shoens.shoens) goal.now }
        requires level { goal.now.priority ≤ MONITOR_PRIORITY }
        ensures ok { OnOk result (Commits (record { predicate = predicate.entry; place = place; places = taken_places trial.old }) goal.now cell self.old self.new) }
        ensures since { (b : Machine) → Since b self.old → StillSince result b self.new }
    {
        let needs = needs_of(predicate, place);
        if !self.has_room(needs) {
            return self.raise(*goal, BuiltIn::Exhaustion, cell);
        }
        // Only for the proof: the shoens are numbered in order.
        let _numbered = self.shoens.len();
        let Some(lent) = self.shoens.lend(goal.shoen) else {
            unreachable!()
        };
        let shoen = *lent;
        put_body(&mut self.store, predicate, place, trial, cells)?;
        self.counts.variables += needs.variables;
        self.counts.nodes += needs.nodes;
        self.put_each(
            &shoen,
            goal.priority,
            priorities_of(predicate, place),
            cells,
        )
    }
}
