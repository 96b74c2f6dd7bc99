// What events do to one part of a machine.

ghost use Rattle.std.specs.Prelude.{◌≡◌, suc, ◌+◌, ◌<◌, ◌≤◌, ◌^◌, ◌∷◌, ◌++◌, [], not, true, false, Some, length, map, option_map, IfOk, OnOk};
ghost use Rattle.std.specs.List.{filter, list_any};
ghost use Rattle.kl1_model.specs.declared.limits.TheConstants.{MONITOR_PRIORITY};
ghost use Rattle.kl1_model.specs.Reduction.{grown};
ghost use Rattle.kl1_store.specs.Held.{IsIn};
ghost use Rattle.kl1_goals.specs.Lists.{is_other, is_in, is_monitor_task, is_monitor_of};
ghost use Rattle.kl1_shoen.specs.Shoens.{changed, aborted_below_in};
ghost use Rattle.kl1_shoen.specs.Changes.{with_control};
ghost use Rattle.kl1_user_effects.specs.Kept.{IsTaskIn, IsOwned, IsShoenIn};
ghost use Rattle.kl1_user_effects.specs.Reports.{left_by, leaving, torn};
ghost use Rattle.kl1_user_effects.specs.Walks.{terminated};
ghost use Rattle.kl1_machine.specs.declared.machine.Machine.{Machine};
ghost use Rattle.kl1_machine.specs.Machines.{IsMachine, Keeps};
ghost use Rattle.kl1_machine.specs.Since.{Since, AreElsewhere, HasNoMonitor, IsOnlyMonitor, StillSince};
ghost use Rattle.kl1_user_effects.specs.Drafts.{goal_at};
ghost use Rattle.kl1_machine.specs.Effects.{Puts, Becomes, Charges, any_reached, having_goals, having_shoens, shifting_shoens, with_shoen};

use crate::machine::Machine;
use kl1_goals::{Goal, Standing, Task};
use kl1_model::{BuiltIn, Life};
use kl1_shoen::Shoen;
use kl1_store::Cell;
use kl1_text::{CellName, NameValue};
use kl1_user_effects::last_of;
use std::alloc::AllocError;

impl Machine {
    /// Puts a goal of a shoen after all others, with the number after the last. It can't step as yet.
    pub(crate) fn put(
        &mut self,
        shoen: u64,
        priority: u64,
        task: Task<CellName>,
    ) -> Result<(), AllocError>
        requires machine { IsMachine self.old }
        requires task { IsTaskIn self.old.store.held task }
        requires shoen { IsOwned (length self.old.shoens.shoens) (goal_at 0 shoen priority task) }
        requires level { priority ≤ MONITOR_PRIORITY }
        requires monitor { is_monitor_task task ≡ true → list_any (is_monitor_of shoen) self.old.goals.goals ≡ false }
        ensures ok { OnOk result (Puts shoen priority task self.old self.new) }
        ensures since { (b : Machine) → Since b self.old → StillSince result b self.new }
    {
        let number = last_of(self.counts.last_goal, 1)?;
        self.goals.put(Goal {
            number,
            task,
            shoen,
            priority,
            standing: Standing::Waits,
            is_enabled: false,
        })?;
        self.counts.last_goal = number;
        Ok(())
    }

    /// Removes goal `number`, if it is there.
    pub(crate) fn remove(&mut self, number: u64) -> Result<(), AllocError>
        requires machine { IsMachine self.old }
        ensures ok { OnOk result (Becomes (having_goals (filter (is_other number) self.old.goals.goals) self.old) self.new) }
        ensures since { (b : Machine) → Since b self.old → StillSince result b self.new }
    {
        self.goals.remove(number)
    }

    /// Removes the monitor of a shoen, if it has one.
    pub(crate) fn remove_monitor(&mut self, shoen: u64) -> Result<(), AllocError>
        requires machine { IsMachine self.old }
        ensures ok { OnOk result (Becomes (having_goals (filter (λ g. not (is_monitor_of shoen g)) self.old.goals.goals) self.old) self.new) }
        ensures since { (b : Machine) → Since b self.old → StillSince result b self.new }
    {
        self.goals.remove_monitor(shoen)
    }

    /// Removes the goals of a shoen, its monitor too.
    pub(crate) fn remove_all(&mut self, shoen: u64) -> Result<(), AllocError>
        requires machine { IsMachine self.old }
        ensures ok { OnOk result (Becomes (having_goals (filter (λ g. not (is_in shoen g)) self.old.goals.goals) self.old) self.new) }
        ensures since { (b : Machine) → Since b self.old → StillSince result b self.new }
    {
        self.goals.remove_all(shoen)
    }

    /// Takes a shoen in, whose number is the next one, and whose parent is there.
    pub(crate) fn open(&mut self, shoen: Shoen<CellName>) -> Result<(), AllocError>
        requires machine { IsMachine self.old }
        requires number { shoen.number ≡ suc (length self.old.shoens.shoens) }
        requires parent { shoen.parent ≤ length self.old.shoens.shoens }
        requires inside { IsShoenIn self.old.store.held shoen }
        ensures ok { OnOk result (Becomes (with_shoen shoen self.new.shoens.room self.old) self.new) }
        ensures since { (b : Machine) → Since b self.old → StillSince result b self.new }
    {
        // Only for the proof: the shoens are numbered in order.
        let _numbered = self.shoens.len();
        self.shoens.reserve(1)?;
        self.goals.open()?;
        self.shoens.open(shoen);
        Ok(())
    }

    /// What is left of a stream on which nothing is told any more, if anything is let go by the rules.
    pub(crate) fn left(&self) -> Option<Cell<CellName>>
        ensures { result ≡ left_by self.now.rules }
    {
        if !self.rules.has_forgetting() {
            return None;
        }
        Some(Cell::Atom(CellName::of(BuiltIn::EmptyList)))
    }

    /// Breaks a shoen's report stream.
    pub(crate) fn break_stream(&mut self, number: u64) -> Result<(), AllocError>
        requires machine { IsMachine self.old }
        ensures ok { OnOk result (Becomes (having_shoens (changed number (torn self.old.rules) self.old.shoens.shoens) self.old) self.new) }
        ensures since { (b : Machine) → Since b self.old → StillSince result b self.new }
    {
        // Only for the proof: the shoens are numbered in order.
        let _numbered = self.shoens.len();
        let left = self.left();
        self.shoens.break_stream(number, left)
    }

    /// Sets the tail of the control stream that the console keeps, if the console started the shoen.
    pub(crate) fn set_origin_control(
        &mut self,
        number: u64,
        control: Cell<CellName>,
    ) -> Result<(), AllocError>
        requires machine { IsMachine self.old }
        requires inside { IsIn self.old.store.held control }
        ensures ok { OnOk result (Becomes (having_shoens (changed number (λ h. record h { origin = option_map (with_control control) h.origin }) self.old.shoens.shoens) self.old) self.new) }
        ensures since { (b : Machine) → Since b self.old → StillSince result b self.new }
    {
        // Only for the proof: the shoens are numbered in order.
        let _numbered = self.shoens.len();
        self.shoens.set_origin_control(number, control)
    }

    /// Sets what is left of a shoen's control stream. Its monitor is told, by its number.
    pub(crate) fn set_control(
        &mut self,
        monitor: u64,
        number: u64,
        control: Cell<CellName>,
    ) -> Result<(), AllocError>
        requires machine { IsMachine self.old }
        requires inside { IsIn self.old.store.held control }
        requires monitor { IsOnlyMonitor monitor number self.old.goals.goals }
        ensures ok { OnOk result (Becomes (record (having_shoens (changed number (λ h. record h { control = control }) self.old.shoens.shoens) self.old) { told = self.new.told }) self.new) }
        ensures told { OnOk result (self.new.told.items ≡ self.old.told.items ++ monitor ∷ []) }
        ensures since { (b : Machine) → Since b self.old → StillSince result b self.new }
    {
        // Only for the proof: the shoens are numbered in order.
        let _numbered = self.shoens.len();
        self.told.push(monitor)?;
        self.shoens.set_control(number, control)
    }

    /// Charges a reduction that was done in a shoen: to it, and to each of its ancestors. It tells whether one of them has reached its
    /// allowance by it. No reduction may have been charged since the event began.
    pub(crate) fn charge(&mut self, number: u64) -> Result<bool, AllocError>
        requires machine { IsMachine self.old }
        requires some { 0 < number }
        requires within { number ≤ length self.old.shoens.shoens }
        requires few { length self.old.shoens.work + 1 < 2 ^ 63 }
        ensures ok { IfOk result (Charges number self.old self.new) }
        ensures since { (b : Machine) → length self.old.shoens.work ≤ length b.shoens.work → Since b self.old → StillSince result b self.new }
    {
        // Only for the proof: the shoens are numbered in order.
        let _numbered = self.shoens.len();
        let reached = self.shoens.charge(number)?;
        self.shifts |= reached;
        Ok(reached)
    }

    /// Ends the life of a shoen as terminated.
    pub(crate) fn end(&mut self, number: u64) -> Result<(), AllocError>
        requires machine { IsMachine self.old }
        ensures ok { OnOk result (Becomes (shifting_shoens (changed number terminated self.old.shoens.shoens) self.old) self.new) }
        ensures since { (b : Machine) → Since b self.old → StillSince result b self.new }
    {
        // Only for the proof: the shoens are numbered in order.
        let _numbered = self.shoens.len();
        self.shifts = true;
        self.shoens.end(number, Life::Terminated)
    }

    /// Leaves what is left of the control stream of a shoen that has ended, and has no monitor any more.
    pub(crate) fn leave(&mut self, number: u64) -> Result<(), AllocError>
        requires machine { IsMachine self.old }
        requires monitor { HasNoMonitor number self.old.goals.goals }
        ensures ok { OnOk result (Becomes (having_shoens (changed number (leaving self.old.rules) self.old.shoens.shoens) self.old) self.new) }
        ensures since { (b : Machine) → Since b self.old → StillSince result b self.new }
    {
        // Only for the proof: the shoens are numbered in order.
        let _numbered = self.shoens.len();
        let Some(left) = self.left() else {
            return Ok(());
        };
        self.shoens.leave(number, left)
    }

    /// Ends a shoen and all below it that live, as aborted. None of them may have a goal.
    pub(crate) fn abort_below(&mut self, number: u64) -> Result<(), AllocError>
        requires machine { IsMachine self.old }
        requires gone { AreElsewhere self.old.shoens.shoens number self.old.goals.goals }
        ensures ok { OnOk result (Becomes (shifting_shoens (map (aborted_below_in (left_by self.old.rules) self.old.shoens.shoens number) self.old.shoens.shoens) self.old) self.new) }
        ensures since { (b : Machine) → Since b self.old → StillSince result b self.new }
    {
        // Only for the proof: the shoens are numbered in order.
        let _numbered = self.shoens.len();
        self.shifts = true;
        let left = self.left();
        self.shoens.abort(number, left)
    }

    /// Stops a shoen, or lets it go on.
    pub(crate) fn set_stopped(&mut self, number: u64, is_stopped: bool) -> Result<(), AllocError>
        requires machine { IsMachine self.old }
        ensures ok { OnOk result (Becomes (shifting_shoens (changed number (λ h. record h { is_stopped = is_stopped }) self.old.shoens.shoens) self.old) self.new) }
        ensures since { (b : Machine) → Since b self.old → StillSince result b self.new }
    {
        // Only for the proof: the shoens are numbered in order.
        let _numbered = self.shoens.len();
        self.shifts = true;
        self.shoens.set_stopped(number, is_stopped)
    }

    /// Raises a shoen's allowance by `extra` reductions, up to the greatest there is.
    pub(crate) fn allow(&mut self, number: u64, extra: u64) -> Result<(), AllocError>
        requires machine { IsMachine self.old }
        ensures ok { OnOk result (Becomes (shifting_shoens (changed number (λ h. record h { allowance = grown h.allowance extra }) self.old.shoens.shoens) self.old) self.new) }
        ensures since { (b : Machine) → Since b self.old → StillSince result b self.new }
    {
        // Only for the proof: the shoens are numbered in order.
        let _numbered = self.shoens.len();
        self.shifts = true;
        self.shoens.allow(number, extra)
    }
}
