// Reports and shoens that the console lets go.

ghost use Rattle.std.specs.Prelude.{◌≡◌, ◌∷◌, [], map, OnOk};
ghost use Rattle.kl1_store.specs.Held.{IsIn};
ghost use Rattle.kl1_shoen.specs.Shoens.{emptied_below};
ghost use Rattle.kl1_machine.specs.declared.machine.Machine.{Machine};
ghost use Rattle.kl1_machine.specs.Machines.{IsMachine, IsBegun, Keeps};
ghost use Rattle.kl1_machine.specs.Effects.{Becomes, having_shoens};
ghost use Rattle.kl1_machine.specs.Since.{Since, StillSince};
ghost use Rattle.kl1_machine.specs.Rested.{IsRested};
ghost use Rattle.kl1_machine.specs.Forgetting.{none_left, forgetting_reports, Forgets, ForgetsReports, AreToldOf};

use crate::machine::Machine;
use kl1_codes::{CodeSource, CodedModules};
use kl1_goals_moves::Trial;
use kl1_model::BuiltIn;
use kl1_store::Cell;
use kl1_text::{CellName, NameValue};
use std::alloc::AllocError;

impl Machine {
    /// Leaves this alone of what the console keeps of the reports of shoen `number`, after its first `count`.
    fn leave_reports(
        &mut self,
        number: u64,
        count: u64,
        left: Cell<CellName>,
    ) -> Result<(), AllocError>
        requires machine { IsMachine self.old }
        requires inside { IsIn self.old.store.held left }
        ensures ok { OnOk result (Becomes (forgetting_reports number count left self.old) self.new) }
        ensures since { (b : Machine) → Since b self.old → StillSince result b self.new }
    {
        // Only for the proof: the shoens are numbered in order.
        let _numbered = self.shoens.len();
        self.shoens.forget_reports(number, count, left)
    }

    /// Lets the first `count` reports go of shoen `number`, which the console started, so that this is left. An event has begun.
    pub fn forget_reports<C: CodeSource>(
        &mut self,
        modules: &CodedModules<'_, C>,
        trial: &mut Trial<CellName>,
        number: u64,
        count: u64,
        left: Cell<CellName>,
    ) -> Result<(), AllocError>
        requires begun { IsBegun self.old }
        requires rested { IsRested modules.now self.old }
        requires left { IsIn self.old.store.held left }
        ensures ok { OnOk result (ForgetsReports number count left self.old self.new) }
        ensures rested { OnOk result (IsRested modules.now self.new) }
        ensures keeps { Keeps self.old self.new }
    {
        self.leave_reports(number, count, left)?;
        self.reschedule_anew(modules, trial)
    }

    /// Tells the monitor of a shoen, if it has one.
    fn tell_monitor(&mut self, shoen: u64) -> Result<(), AllocError>
        ensures rest { self.new ≡ record self.old { told = self.new.told } }
        ensures told { OnOk result (AreToldOf (shoen ∷ []) self.old self.new) }
    {
        match self.goals.monitor(shoen) {
            None => Ok(()),
            Some(monitor) => {
                self.told.push(monitor)?;
                Ok(())
            }
        }
    }

    /// Tells the monitors of these shoens.
    fn tell_monitors(&mut self, shoens: &[u64]) -> Result<(), AllocError>
        ensures rest { self.new ≡ record self.old { told = self.new.told } }
        ensures told { OnOk result (AreToldOf shoens.now self.old self.new) }
    {
        for shoen in shoens {
            self.tell_monitor(*shoen)?;
        }
        Ok(())
    }

    /// Leaves the places alone of shoen `number` and of all below it that have ended.
    fn empty_below(&mut self, number: u64) -> Result<(), AllocError>
        requires machine { IsMachine self.old }
        ensures ok { OnOk result (Becomes (record (having_shoens (map (emptied_below none_left self.old.shoens.shoens number) self.old.shoens.shoens) self.old) { told = self.new.told }) self.new) }
        ensures since { (b : Machine) → Since b self.old → StillSince result b self.new }
    {
        // Only for the proof: the shoens are numbered in order.
        let _numbered = self.shoens.len();
        let mut below = Vec::new(*self.told.allocator());
        self.shoens.below(number, &mut below)?;
        self.tell_monitors(below.as_slice())?;
        self.shoens
            .forget(number, Cell::Atom(CellName::of(BuiltIn::EmptyList)))
    }

    /// Lets shoen `number` go, and all below it, that have ended. An event has begun.
    pub fn forget<C: CodeSource>(
        &mut self,
        modules: &CodedModules<'_, C>,
        trial: &mut Trial<CellName>,
        number: u64,
    ) -> Result<(), AllocError>
        requires begun { IsBegun self.old }
        requires rested { IsRested modules.now self.old }
        ensures ok { OnOk result (Forgets number self.old self.new) }
        ensures rested { OnOk result (IsRested modules.now self.new) }
        ensures keeps { Keeps self.old self.new }
    {
        self.empty_below(number)?;
        self.reschedule_anew(modules, trial)
    }
}
