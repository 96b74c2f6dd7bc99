// Reductions of goals.

ghost use Rattle.std.specs.Prelude.{◌≡◌, ℕ, ◌+◌, ◌<◌, ◌≤◌, ◌^◌, Bool, true, false, length, find, None, Some, IfOk, IfErr, OnOk, MatchOption};
ghost use Rattle.kl1_model.specs.declared.limits.TheConstants.{MONITOR_PRIORITY};
ghost use Rattle.kl1_stream.specs.Controls.{ControlIn};
ghost use Rattle.kl1_goals_moves.specs.Moves.{taken_places};
ghost use Rattle.kl1_goals.specs.declared.task.Task.TheVariants.{Monitor};
ghost use Rattle.kl1_goals.specs.Lists.{has_number};
ghost use Rattle.kl1_user_effects.specs.Naming.{AreSmall};
ghost use Rattle.kl1_machine.specs.Machines.{made, Keeps, IsBegun};
ghost use Rattle.kl1_machine.specs.Rested.{IsRested};
ghost use Rattle.kl1_machine.specs.Naming.{CanPublish};
ghost use Rattle.kl1_user_effects.specs.Settled.{AreEnabled};
ghost use Rattle.kl1_codes.specs.Shelves.{Program};
ghost use Rattle.kl1_ready.specs.Plans.{ReadsBy, IsRunnable, MovesBy};
ghost use Rattle.kl1_machine.specs.Reducing.{IsSteppable, ReadsAlike, Refuses, Reduces};

use crate::machine::Machine;
use kl1_codes::{CodeSource, CodedModules};
use kl1_goals::Goal;
use kl1_goals_moves::Trial;
use kl1_ready::{CallCache, Plan, PlannedMove, plan_of};
use kl1_store::Qualified;
use kl1_stream::Control;
use kl1_text::CellName;
use kl1_user_effects::{PathScan, are_numbers};
use kl1_user_events::Refusal;
use std::alloc::AllocError;

impl Machine {
    /// Goal `number`, which may step, if a command may have these numbers; or why its reduction by clause `clause` is refused.
    pub(crate) fn steppable(&self, number: u64, clause: u64) -> Result<Goal<CellName>, Refusal>
        ensures refused { IfErr result (λ r. (program : Program) (full : Bool) → AreEnabled self.now.shoens.shoens self.now.shoens.work self.now.goals.goals → Refuses program full number clause self.now r) }
        ensures found { IfOk result (IsSteppable self.now.goals.goals number clause) }
        ensures number { IfOk result (λ g. g.number ≡ number) }
        ensures level { IfOk result (λ g. g.priority ≤ MONITOR_PRIORITY) }
    {
        if !are_numbers(number, clause) {
            return Err(Refusal::Syntax);
        }
        let Some(goal) = self.goals.get(number) else {
            return Err(Refusal::Step);
        };
        if !goal.is_enabled {
            return Err(Refusal::Step);
        }
        Ok(goal)
    }

    /// Does the reduction of goal `number` by clause `clause`, for an account whose journal may be full, or says why it is refused. An
    /// event has begun, and there is room for a name.
    pub fn reduce<C: CodeSource>(
        &mut self,
        modules: &CodedModules<'_, C>,
        trial: &mut Trial<CellName>,
        scan: &mut PathScan,
        cells: &mut Vec<Qualified<CellName>>,
        is_full: bool,
        number: u64,
        clause: u64,
    ) -> Result<Option<Refusal>, AllocError>
        requires begun { IsBegun self.old }
        requires rested { IsRested modules.now self.old }
        requires small { AreSmall self.old.names.names }
        requires alike { ReadsAlike self.old }
        requires room { 0 < self.old.names.room }
        requires few { length self.old.shoens.work + 1 < 2 ^ 63 }
        ensures ok { IfOk result (λ o. MatchOption o (Reduces modules.now number clause self.old self.new) (λ r. Refuses modules.now is_full number clause self.old r × (self.new ≡ self.old))) }
        ensures rested { IfOk result (λ o. o ≡ None → IsRested modules.now self.new × CanPublish self.new) }
        ensures room { IfOk result (λ o. o ≡ None → is_full ≡ false) }
        ensures charged { OnOk result (length self.new.shoens.work ≤ length self.old.shoens.work + 1) }
        ensures keeps { Keeps self.old self.new }
    {
        let goal = match self.steppable(number, clause) {
            Err(refusal) => return Ok(Some(refusal)),
            Ok(goal) => goal,
        };
        let Some(plan) = plan_of(&self.store, &self.shoens, modules, trial, &goal, clause)? else {
            return Ok(Some(Refusal::Step));
        };
        if is_full {
            return Ok(Some(Refusal::Journal));
        }
        match plan {
            Plan::Reads(control) => {
                // Only for the proof: no shoen has two monitors.
                let _single = self.goals.shoens();
                self.read(scan, number, goal.shoen, control)?;
                self.reschedule_anew(modules, trial)?;
                Ok(None)
            }
            Plan::Moves(planned) => {
                self.remove(goal.number)?;
                let located = planned.located;
                let predicate = located.predicate;
                let (made, cell) = (planned.made, planned.cell);
                self.step_goal(scan, predicate, made, trial, cells, &goal, cell)?;
                let calls = CallCache {
                    modules,
                    hint: located.place,
                };
                self.reschedule(&calls, trial, goal.shoen)?;
                Ok(None)
            }
        }
    }
}
