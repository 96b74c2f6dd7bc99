// Shoens that terminate, and those that have reached their allowance.

ghost use Rattle.std.specs.Prelude.{◌≡◌, [], true, List, ℕ, OnOk};
ghost use Rattle.std.specs.List.{list_any};
ghost use Rattle.kl1_model.specs.Term.{atom};
ghost use Rattle.kl1_model.specs.Text.{text_of};
ghost use Rattle.kl1_goals.specs.Lists.{is_goal_of};
ghost use Rattle.kl1_shoen.specs.Shoens.{path_in, lives_in};
ghost use Rattle.kl1_user_effects.specs.Late.{HasLate, report_each_late, finished_late, finished_each_late, settle_charged_late};
ghost use Rattle.kl1_user_effects.specs.Walks.{ends_in, ending_in, reached_in};
ghost use Rattle.kl1_machine.specs.declared.machine.Machine.{Machine};
ghost use Rattle.kl1_machine.specs.Machines.{IsMachine, Keeps};
ghost use Rattle.kl1_machine.specs.Since.{Since, StillSince};
ghost use Rattle.kl1_machine.specs.Rescheduling.{LetsStill};
ghost use Rattle.kl1_machine.specs.Ending.{LifeEnds, LivesEnd};
ghost use Rattle.kl1_machine.specs.Naming.{LateAs};

use crate::machine::Machine;
use kl1_model::BuiltIn;
use kl1_user_effects::{PathScan, put_reached};
use std::alloc::AllocError;

impl Machine {
    /// Whether a shoen has a goal other than its monitor.
    fn has_goal(&self, number: u64) -> bool
        ensures { result ≡ list_any (is_goal_of number) self.now.goals.goals }
    {
        self.goals.count(number) > 0
    }

    /// Whether a shoen, which lives or doesn't, terminates.
    fn ends_now(&self, number: u64, lives: bool) -> bool
        requires { lives ≡ lives_in self.now.shoens.shoens number }
        ensures { result ≡ ends_in self.now.goals.goals self.now.shoens.shoens number }
    {
        if !lives {
            return false;
        }
        if self.has_goal(number) {
            return false;
        }
        !self.shoens.has_living_child(number)
    }

    /// Whether a shoen has a goal and still lets its goals step: then none on its path ends, and none has reached its allowance.
    pub(crate) fn is_calm(&self, number: u64) -> bool
        requires { LetsStill number self.now }
        ensures lives { result ≡ true → ending_in self.now.goals.goals (path_in self.now.shoens.shoens number) self.now.shoens.shoens ≡ [] }
        ensures unreached { (ending : List ℕ) → result ≡ true → reached_in self.now.shoens.shoens self.now.shoens.work ending (path_in self.now.shoens.shoens number) ≡ [] }
    {
        if self.shifts {
            return false;
        }
        // Only for the proof: the shoens are numbered in order.
        let _numbered = self.shoens.len();
        self.has_goal(number)
    }

    /// Ends the life of a shoen, which lives or doesn't, if it terminates, and puts its number down then.
    fn end_one(&mut self, number: u64, lives: bool, ending: &mut Vec<u64>) -> Result<(), AllocError>
        requires machine { IsMachine self.old }
        requires lives { lives ≡ lives_in self.old.shoens.shoens number }
        ensures ok { OnOk result (LifeEnds number ending.old.items ending.new.items self.old self.new) }
        ensures since { (b : Machine) → Since b self.old → StillSince result b self.new }
    {
        if !self.ends_now(number, lives) {
            return Ok(());
        }
        self.end(number)?;
        ending.push(number)?;
        Ok(())
    }

    /// Ends the lives of the shoens on the path of one that terminate, and puts their numbers down, innermost first.
    pub(crate) fn end_lives(&mut self, number: u64, ending: &mut Vec<u64>) -> Result<(), AllocError>
        requires machine { IsMachine self.old }
        ensures ok { OnOk result (LivesEnd number ending.new.items self.old self.new) }
        ensures since { (b : Machine) → Since b self.old → StillSince result b self.new }
    {
        ending.clear();
        let mut at = number;
        while at > 0 {
            let step = self.shoens.living_step(at);
            self.end_one(at, step.holds, ending)?;
            at = step.up;
        }
        Ok(())
    }

    /// Puts down the shoens on the path of one that were charged just what they may be, but for those that end, innermost first.
    pub(crate) fn find_reached(
        &self,
        number: u64,
        ending: &[u64],
        reached: &mut Vec<u64>,
    ) -> Result<(), AllocError>
        ensures { OnOk result (reached.new.items ≡ reached_in self.now.shoens.shoens self.now.shoens.work ending.now (path_in self.now.shoens.shoens number)) }
    {
        reached.clear();
        let mut at = number;
        while at > 0 {
            let step = self.shoens.reached_step(at);
            put_reached(at, step.holds, ending, reached)?;
            at = step.up;
        }
        Ok(())
    }

    /// A report, which is a name of the language, of each of these shoens, in order. `late` is the variable that becomes a name at the
    /// end, if one does.
    fn report_each(
        &mut self,
        numbers: &[u64],
        late: Option<u32>,
        name: BuiltIn,
    ) -> Result<(), AllocError>
        requires machine { IsMachine self.old }
        requires within { HasLate late self.old.store.held }
        ensures ok { OnOk result (LateAs late (λ f. report_each_late late numbers.now (atom (text_of name))) self.old self.new) }
        ensures since { (b : Machine) → Since b self.old → StillSince result b self.new }
    {
        for number in numbers {
            self.report_late(*number, late, name)?;
        }
        Ok(())
    }

    /// Does what is left of a termination after the shoen's life has ended: its monitor goes, of its control stream that
    /// is left which the rules have, it reports that it has terminated, and its report stream is closed, but for one whose tail is `late`,
    /// the variable that becomes a name at the end, if one does.
    fn finish(&mut self, number: u64, late: Option<u32>) -> Result<(), AllocError>
        requires machine { IsMachine self.old }
        requires within { HasLate late self.old.store.held }
        ensures ok { OnOk result (LateAs late (λ f. finished_late late number) self.old self.new) }
        ensures since { (b : Machine) → Since b self.old → StillSince result b self.new }
    {
        self.remove_monitor(number)?;
        self.leave(number)?;
        self.report_late(number, late, BuiltIn::Terminated)?;
        if self.is_late(number, late) {
            return Ok(());
        }
        self.close(number)
    }

    /// Does what is left of the terminations of these shoens, in order. `late` is the variable that becomes a name at the end, if one does.
    pub(crate) fn finish_each(
        &mut self,
        numbers: &[u64],
        late: Option<u32>,
    ) -> Result<(), AllocError>
        requires machine { IsMachine self.old }
        requires within { HasLate late self.old.store.held }
        ensures ok { OnOk result (LateAs late (λ f. finished_each_late late numbers.now) self.old self.new) }
        ensures since { (b : Machine) → Since b self.old → StillSince result b self.new }
    {
        for number in numbers {
            self.finish(*number, late)?;
        }
        Ok(())
    }

    /// What comes after the effects of a reduction in a shoen: the shoens on its path that have just been charged what they may be, and
    /// go on, report that they are exhausted, innermost first, and then come terminations. `late` is the variable that becomes a name at the
    /// end, if one does. What `scan` holds after it is of no use.
    pub(crate) fn end_path(
        &mut self,
        scan: &mut PathScan,
        number: u64,
        late: Option<u32>,
    ) -> Result<(), AllocError>
        requires machine { IsMachine self.old }
        requires within { HasLate late self.old.store.held }
        ensures ok { OnOk result (LateAs late (λ f. settle_charged_late late number) self.old self.new) }
        ensures since { (b : Machine) → Since b self.old → StillSince result b self.new }
    {
        self.end_lives(number, &mut scan.ending)?;
        let ending = scan.ending.as_slice();
        self.find_reached(number, ending, &mut scan.reached)?;
        self.report_each(scan.reached.as_slice(), late, BuiltIn::Exhausted)?;
        self.finish_each(ending, late)
    }
}
