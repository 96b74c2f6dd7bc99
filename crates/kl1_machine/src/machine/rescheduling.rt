// Goals that are looked at again at the end of an event.

ghost use Rattle.std.specs.Prelude.{◌≡◌, ℕ, suc, true, [], ◌∷◌, OnOk};
ghost use Rattle.std.specs.List.Sorted.{IsStrictlyIncreasing};
ghost use Rattle.kl1_model.specs.Module.{is_among};
ghost use Rattle.kl1_shoen.specs.Shoens.{is_enabled_at};
ghost use Rattle.kl1_machine.specs.declared.machine.Machine.{Machine};
ghost use Rattle.kl1_machine.specs.Machines.{IsMachine, IsBegun, Keeps};
ghost use Rattle.kl1_machine.specs.Since.{Since};
ghost use Rattle.kl1_machine.specs.Rested.{IsRested};
ghost use Rattle.kl1_machine.specs.Rescheduling.{Wakes, Schedules, Shifts, all_told, Reschedules, LetsStill};

use crate::machine::Machine;
use kl1_codes::{CodeSource, CodedModules};
use kl1_goals_moves::Trial;
use kl1_ready::{CallCache, enable_each, judge, may_step, put_in_order};
use kl1_text::CellName;
use std::alloc::AllocError;

impl Machine {
    /// Tells the numbers that hang on variables which were bound since the event began. All that are told stand in order, each once.
    fn tell_bound(&mut self) -> Result<(), AllocError>
        ensures all { OnOk result ((n : ℕ) → is_among n self.new.told.items ≡ is_among n (all_told self.old)) }
        ensures once { OnOk result (IsStrictlyIncreasing self.new.told.items) }
        ensures rest { self.new ≡ record self.old { told = self.new.told } }
    {
        let bindings = self.store.mark().sizes.bindings;
        if bindings > self.mark.sizes.bindings {
            self.store.tell(self.mark, &mut self.told)?;
        }
        put_in_order(&mut self.told);
        Ok(())
    }

    /// Looks at goal `number`, if it is there: it gets what it can do.
    fn wake<C: CodeSource>(
        &mut self,
        calls: &CallCache<'_, '_, C>,
        trial: &mut Trial<CellName>,
        number: u64,
    ) -> Result<(), AllocError>
        requires machine { IsMachine self.old }
        ensures ok { OnOk result (Wakes calls.now.modules.now (number ∷ []) self.old self.new) }
        ensures keeps { (b : Machine) → Keeps b self.old → Keeps b self.new }
    {
        let Some(goal) = self.goals.lend(number) else {
            return Ok(());
        };
        let standing = judge(&mut self.store, &self.shoens, calls, trial, goal)?;
        self.goals.set_standing(number, standing)
    }

    /// Looks at the goals that are told, monitors too.
    fn wake_affected<C: CodeSource>(
        &mut self,
        calls: &CallCache<'_, '_, C>,
        trial: &mut Trial<CellName>,
    ) -> Result<(), AllocError>
        requires machine { IsMachine self.old }
        ensures ok { OnOk result (Wakes calls.now.modules.now self.old.told.items self.old self.new) }
        ensures keeps { (b : Machine) → Keeps b self.old → Keeps b self.new }
    {
        for place in 0..self.told.len() {
            let number = self.told[place];
            self.wake(calls, trial, number)?;
        }
        Ok(())
    }

    /// Looks at goal `number`, if it is there: it gets what it can do, and may step if its shoen lets it. Shoen `running`
    /// is known to let its goals step.
    fn schedule<C: CodeSource>(
        &mut self,
        calls: &CallCache<'_, '_, C>,
        trial: &mut Trial<CellName>,
        running: u64,
        number: u64,
    ) -> Result<(), AllocError>
        requires machine { IsMachine self.old }
        requires lets { is_enabled_at self.old.shoens.shoens self.old.shoens.work running ≡ true }
        ensures ok { (n : ℕ) → number ≡ suc n → OnOk result (Schedules calls.now.modules.now n number self.old self.new) }
        ensures keeps { (b : Machine) → Keeps b self.old → Keeps b self.new }
    {
        let Some(goal) = self.goals.lend(number) else {
            return Ok(());
        };
        let standing = judge(&mut self.store, &self.shoens, calls, trial, goal)?;
        let is_enabled = may_step(&self.shoens, running, goal);
        self.goals.look(number, standing, is_enabled)
    }

    /// Looks at the goals that came since the event began, up to goal `last`: each gets what it can do, and may step if its
    /// shoen lets it. Shoen `running` is known to let its goals step.
    fn schedule_new<C: CodeSource>(
        &mut self,
        calls: &CallCache<'_, '_, C>,
        trial: &mut Trial<CellName>,
        running: u64,
        last: u64,
    ) -> Result<(), AllocError>
        requires machine { IsMachine self.old }
        requires lets { is_enabled_at self.old.shoens.shoens self.old.shoens.work running ≡ true }
        ensures ok { OnOk result (Schedules calls.now.modules.now self.old.begun.last_goal last self.old self.new) }
        ensures keeps { (b : Machine) → Keeps b self.old → Keeps b self.new }
    {
        let mut number = self.begun.last_goal;
        while number < last {
            number += 1;
            self.schedule(calls, trial, running, number)?;
        }
        Ok(())
    }

    /// Lets goals step, or holds them back, of each shoen in which that may be other than when the event began, if it may be so in any.
    fn shift(&mut self) -> Result<(), AllocError>
        ensures ok { OnOk result (Shifts self.old self.new) }
        ensures keeps { (b : Machine) → Keeps b self.old → Keeps b self.new }
    {
        if !self.shifts {
            return Ok(());
        }
        let mut shifts = Vec::new(*self.told.allocator());
        self.shoens.shifts(&mut shifts)?;
        enable_each(&mut self.goals, &shifts)
    }

    /// The number of a shoen that lets its goals step: `running`, or 0 if goals may be let or held back other than when the event began.
    fn shoen_that_lets(&self, running: u64) -> u64
        requires { LetsStill running self.now }
        ensures { is_enabled_at self.now.shoens.shoens self.now.shoens.work result ≡ true }
    {
        if self.shifts {
            return 0;
        }
        running
    }

    /// Ends an event. Looks at the goals that bindings and control streams concern, and at those that came, and lets or holds back the goals
    /// of shoens in which that may be other than when the event began. Shoen `running` let its goals step then; shoen 0 always does.
    pub fn reschedule<C: CodeSource>(
        &mut self,
        calls: &CallCache<'_, '_, C>,
        trial: &mut Trial<CellName>,
        running: u64,
    ) -> Result<(), AllocError>
        requires machine { IsMachine self.old }
        requires lets { LetsStill running self.old }
        ensures ok { OnOk result (Reschedules self.old self.new) }
        ensures rested { (b : Machine) → IsBegun b → Since b self.old → IsRested calls.now.modules.now b → OnOk result (IsRested calls.now.modules.now self.new) }
        ensures keeps { Keeps self.old self.new }
    {
        let lets = self.shoen_that_lets(running);
        self.tell_bound()?;
        self.wake_affected(calls, trial)?;
        let last = self.counts.last_goal;
        self.schedule_new(calls, trial, lets, last)?;
        self.shift()
    }

    /// Ends an event as `reschedule` does, with no place known where a predicate may stand, and no shoen known that lets its goals step.
    pub(crate) fn reschedule_anew<C: CodeSource>(
        &mut self,
        modules: &CodedModules<'_, C>,
        trial: &mut Trial<CellName>,
    ) -> Result<(), AllocError>
        requires { IsMachine self.old }
        ensures ok { OnOk result (Reschedules self.old self.new) }
        ensures rested { (b : Machine) → IsBegun b → Since b self.old → IsRested modules.now b → OnOk result (IsRested modules.now self.new) }
        ensures keeps { Keeps self.old self.new }
    {
        let calls = CallCache { modules, hint: 0 };
        self.reschedule(&calls, trial, 0)
    }
}
