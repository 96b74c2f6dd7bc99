// Goals that are looked at again when a module is loaded.

ghost use Rattle.std.specs.Prelude.{◌≡◌, false, [], ◌∷◌, map, OnOk};
ghost use Rattle.kl1_codes.specs.Numbered.{number_of};
ghost use Rattle.kl1_codes.specs.Finding.{is_numbered};
ghost use Rattle.kl1_codes.specs.Shelves.{with_last};
ghost use Rattle.kl1_machine.specs.declared.machine.Machine.{Machine};
ghost use Rattle.kl1_machine.specs.Machines.{IsMachine, Keeps};
ghost use Rattle.kl1_machine.specs.Rescheduling.{Wakes, Reschedules, AllSettled, unready};

use crate::machine::Machine;
use kl1_codes::{CodeSource, CodedModule, CodedModules};
use kl1_goals_moves::Trial;
use kl1_ready::judge_beside;
use kl1_text::CellName;
use std::alloc::AllocError;

impl Machine {
    /// Like `wake`, with one module more.
    fn wake_beside<C: CodeSource>(
        &mut self,
        modules: &CodedModules<'_, C>,
        loaded: &CodedModule<'_, C>,
        trial: &mut Trial<CellName>,
        number: u64,
    ) -> Result<(), AllocError>
        requires machine { IsMachine self.old }
        requires new { is_numbered modules.now.loaded (number_of loaded.now) ≡ false }
        ensures ok { OnOk result (Wakes (with_last modules.now loaded.now) (number ∷ []) self.old self.new) }
        ensures keeps { (b : Machine) → Keeps b self.old → Keeps b self.new }
    {
        let Some(goal) = self.goals.get(number) else {
            return Ok(());
        };
        let standing = judge_beside(&mut self.store, &self.shoens, modules, loaded, trial, &goal)?;
        self.goals.set_standing(number, standing)
    }

    /// Looks at all goals, with one module more: each gets what it can do then.
    pub fn reschedule_for_load<C: CodeSource>(
        &mut self,
        modules: &CodedModules<'_, C>,
        loaded: &CodedModule<'_, C>,
        trial: &mut Trial<CellName>,
    ) -> Result<(), AllocError>
        requires machine { IsMachine self.old }
        requires new { is_numbered modules.now.loaded (number_of loaded.now) ≡ false }
        ensures ok { OnOk result (Reschedules self.old self.new) }
        ensures settled { OnOk result (AllSettled (with_last modules.now loaded.now) self.new) }
        ensures flags { OnOk result (map unready self.new.goals.goals ≡ map unready self.old.goals.goals) }
        ensures keeps { Keeps self.old self.new }
    {
        self.wake_beside(modules, loaded, trial, 0)?;
        let mut number = 0;
        while let Some(goal) = self.goals.after(number) {
            self.wake_beside(modules, loaded, trial, goal.number)?;
            number = goal.number;
        }
        Ok(())
    }
}
