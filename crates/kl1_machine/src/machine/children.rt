// Shoens that open, and the children that goals open.

ghost use Rattle.std.specs.Prelude.{◌≡◌, ◌<◌, ◌≤◌, suc, length, ◌&&◌, nat_lt, OnOk};
ghost use Rattle.kl1_model.specs.declared.limits.TheConstants.{MONITOR_PRIORITY};
ghost use Rattle.kl1_model.specs.Rules.{limits_of};
ghost use Rattle.kl1_store.specs.Held.{IsIn, arguments_of};
ghost use Rattle.kl1_shoen.specs.Shoens.{path_in};
ghost use Rattle.kl1_text.specs.Reading.{Reads};
ghost use Rattle.kl1_user_effects.specs.Fitting.{Reading, built};
ghost use Rattle.kl1_user_effects.specs.Kept.{IsOwned, IsShoenIn};
ghost use Rattle.kl1_machine.specs.declared.machine.Machine.{Machine};
ghost use Rattle.kl1_machine.specs.Machines.{IsMachine, Keeps};
ghost use Rattle.kl1_machine.specs.Since.{Since, StillSince};
ghost use Rattle.kl1_machine.specs.Moving.{JoinsAs, OpensAs, OpensChild};
ghost use Rattle.kl1_machine.specs.Plain.{IsPlain, IsPlainShoen, ArePlain};

use crate::machine::Machine;
use kl1_goals::{Goal, Task};
use kl1_goals_moves::{number_at, order_at};
use kl1_model::limits::MONITOR_PRIORITY;
use kl1_model::{BuiltIn, Life};
use kl1_shoen::Shoen;
use kl1_store::{Cell, Qualified};
use kl1_text::CellName;
use kl1_user_effects::{clipped_in, last_of};
use std::alloc::AllocError;

impl Machine {
    /// Takes a shoen in, and after all other goals its monitor and its goal, which is this cell. Neither can step as yet.
    fn join(&mut self, shoen: Shoen<CellName>, goal: Cell<CellName>) -> Result<(), AllocError>
        requires machine { IsMachine self.old }
        requires number { shoen.number ≡ suc (length self.old.shoens.shoens) }
        requires parent { shoen.parent ≤ length self.old.shoens.shoens }
        requires shoen { IsShoenIn self.old.store.held shoen }
        requires goal { IsIn self.old.store.held goal }
        ensures ok { OnOk result (JoinsAs shoen goal self.old self.new) }
        ensures plain { (f g : Reading) → IsPlainShoen f g shoen → IsPlain f g goal → ArePlain f g self.old → OnOk result (ArePlain f g self.new) }
        ensures since { (b : Machine) → Since b self.old → StillSince result b self.new }
    {
        self.open(shoen)?;
        self.put(shoen.number, MONITOR_PRIORITY, Task::Monitor)?;
        let task = Task::Reduces(Qualified {
            module_name: None,
            cell: goal,
        });
        self.put(shoen.number, shoen.high, task)
    }

    /// Opens a shoen for a goal, which is this cell: it, its monitor and the goal join, and it reports that it has started, and after that,
    /// if its allowance is 0, that it is exhausted.
    pub(crate) fn open_shoen(
        &mut self,
        shoen: Shoen<CellName>,
        goal: Cell<CellName>,
    ) -> Result<(), AllocError>
        requires machine { IsMachine self.old }
        requires number { shoen.number ≡ suc (length self.old.shoens.shoens) }
        requires parent { shoen.parent ≤ length self.old.shoens.shoens }
        requires shoen { IsShoenIn self.old.store.held shoen }
        requires goal { IsIn self.old.store.held goal }
        ensures ok { OnOk result (OpensAs shoen goal self.old self.new) }
        ensures plain { (f g : Reading) → Reads built f → Reads built g → IsPlainShoen f g shoen → IsPlain f g goal → ArePlain f g self.old → OnOk result (ArePlain f g self.new) }
        ensures since { (b : Machine) → Since b self.old → StillSince result b self.new }
    {
        self.join(shoen, goal)?;
        self.report_name(shoen.number, BuiltIn::Started)?;
        if shoen.allowance != 0 {
            return Ok(());
        }
        self.report_name(shoen.number, BuiltIn::Exhausted)
    }

    /// Whether a shoen may open a child, within the limits on shoens and depth.
    fn may_open(&self, parent: u64) -> bool
        ensures { result ≡ (nat_lt (length self.now.shoens.shoens) (limits_of self.now.rules).shoens && nat_lt (length (path_in self.now.shoens.shoens parent)) (limits_of self.now.rules).depth) }
    {
        let most = self.rules.limits();
        self.shoens.len() < most.shoens && self.shoens.depth(parent) < most.depth as u64
    }

    /// Opens a child in the shoen of a goal that has been removed and is this cell, by the order that a structure is; if a limit would be
    /// passed, the goal raises an exception.
    pub(crate) fn open_child(
        &mut self,
        structure: u32,
        goal: Goal<CellName>,
        cell: Qualified<CellName>,
    ) -> Result<(), AllocError>
        requires machine { IsMachine self.old }
        requires structure { structure < length self.old.store.held.structures }
        requires six { length (arguments_of self.old.store.held structure) ≡ 6 }
        requires cell { IsIn self.old.store.held cell.cell }
        requires owned { IsOwned (length self.old.shoens.shoens) goal }
        requires level { goal.priority ≤ MONITOR_PRIORITY }
        ensures ok { OnOk result (OpensChild structure goal cell self.old self.new) }
        ensures since { (b : Machine) → Since b self.old → StillSince result b self.new }
    {
        if !self.may_open(goal.shoen) {
            return self.raise(goal, BuiltIn::Exhaustion, cell);
        }
        let number = last_of(self.shoens.len(), 1)?;
        let Some(parent) = self.shoens.lend(goal.shoen).copied() else {
            unreachable!()
        };
        let order = order_at(&self.store, structure);
        let child = Shoen {
            number,
            parent: goal.shoen,
            allowance: number_at(&self.store, order.allowance),
            low: clipped_in(&parent, number_at(&self.store, order.low)),
            high: clipped_in(&parent, number_at(&self.store, order.high)),
            control: order.control,
            tail: order.reports,
            life: Life::Living,
            is_stopped: false,
            is_broken: false,
            origin: None,
        };
        self.open_shoen(child, order.goal)
    }
}
