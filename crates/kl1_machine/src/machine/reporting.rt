// Reports and exceptions.

ghost use Rattle.std.specs.Prelude.{◌≡◌, ◌≤◌, true, length, IfOk, OnOk};
ghost use Rattle.kl1_model.specs.declared.limits.TheConstants.{MONITOR_PRIORITY};
ghost use Rattle.kl1_model.specs.State.{has_substitutes};
ghost use Rattle.kl1_model.specs.Term.{atom};
ghost use Rattle.kl1_model.specs.Report.{report, exception, close};
ghost use Rattle.kl1_model.specs.Reduction.{raised};
ghost use Rattle.kl1_model.specs.Text.{text_of};
ghost use Rattle.kl1_store.specs.Held.{IsIn};
ghost use Rattle.kl1_text.specs.Reading.{Reads};
ghost use Rattle.kl1_user_effects.specs.Fitting.{Reading, built};
ghost use Rattle.kl1_user_effects.specs.Account.{meaning, goal_with, aim};
ghost use Rattle.kl1_user_effects.specs.Kept.{IsOwned};
ghost use Rattle.kl1_user_effects.specs.Late.{KeepsFree};
ghost use Rattle.kl1_machine.specs.declared.machine.Machine.{Machine};
ghost use Rattle.kl1_machine.specs.Machines.{IsMachine, Keeps};
ghost use Rattle.kl1_machine.specs.Since.{Since, StillSince};
ghost use Rattle.kl1_machine.specs.Effects.{Tells, TurnsAs};
ghost use Rattle.kl1_machine.specs.Plain.{ArePlain};

use crate::machine::Machine;
use kl1_goals::{Goal, Task};
use kl1_model::BuiltIn;
use kl1_store::{Cell, Qualified};
use kl1_stream::{Told, append_report, close_report, exception_of, exception_with};
use kl1_text::{CellName, NameValue};
use kl1_user_effects::{keep_at_times, whole};
use std::alloc::AllocError;

impl Machine {
    /// A report of shoen `number`; it tells whether that is made, and not dropped.
    pub(crate) fn tell(&mut self, number: u64, message: Cell<CellName>) -> Result<bool, AllocError>
        requires machine { IsMachine self.old }
        requires message { IsIn self.old.store.held message }
        ensures ok { IfOk result (Tells number message self.old self.new) }
        ensures plain { (f g : Reading) → Reads built f → Reads built g → ArePlain f g self.old → OnOk result (ArePlain f g self.new) }
        ensures since { (b : Machine) → Since b self.old → StillSince result b self.new }
    {
        // Only for the proof: the shoens are numbered in order.
        let _numbered = self.shoens.len();
        let Some(shoen) = self.shoens.lend(number).copied() else {
            return Ok(false);
        };
        let is_last = !(self.counts.reports < self.rules.limits().reports);
        match append_report(
            &mut self.store,
            shoen.tail,
            shoen.is_broken,
            is_last,
            message,
        )? {
            Told::Dropped => Ok(false),
            Told::Broken => {
                let left = self.left();
                self.shoens.break_stream(number, left)?;
                Ok(false)
            }
            Told::Sent(next) => {
                self.shoens.set_tail(number, Cell::Variable(next))?;
                self.counts.reports += 1;
                keep_at_times(&mut self.store, &shoen, self.counts.reports);
                Ok(true)
            }
        }
    }

    /// A report, which is a name of the language, of shoen `number`.
    pub(crate) fn report_name(&mut self, number: u64, name: BuiltIn) -> Result<(), AllocError>
        requires machine { IsMachine self.old }
        ensures ok { OnOk result (TurnsAs (λ f. report number (atom (text_of name))) self.old self.new) }
        ensures free { OnOk result (KeepsFree number self.old.shoens.shoens self.old.store.held self.new.store.held) }
        ensures plain { (f g : Reading) → Reads built f → Reads built g → ArePlain f g self.old → OnOk result (ArePlain f g self.new) }
        ensures since { (b : Machine) → Since b self.old → StillSince result b self.new }
    {
        self.tell(number, Cell::Atom(CellName::of(name)))?;
        Ok(())
    }

    /// Ends the report stream of shoen `number`.
    pub(crate) fn close(&mut self, number: u64) -> Result<(), AllocError>
        requires machine { IsMachine self.old }
        ensures ok { OnOk result (TurnsAs (λ f. close number) self.old self.new) }
        ensures free { OnOk result (KeepsFree number self.old.shoens.shoens self.old.store.held self.new.store.held) }
        ensures since { (b : Machine) → Since b self.old → StillSince result b self.new }
    {
        let Some(shoen) = self.shoens.lend(number) else {
            return Ok(());
        };
        close_report(&mut self.store, shoen.tail, shoen.is_broken)
    }

    /// Reports that a goal which has been removed, and which is this term, raised an exception of the kind of a name, with a new variable,
    /// for which a substitute waits in its place; if the report is dropped, there is neither.
    fn raise_with_substitute(
        &mut self,
        goal: Goal<CellName>,
        kind: BuiltIn,
        term: Cell<CellName>,
    ) -> Result<(), AllocError>
        requires machine { IsMachine self.old }
        requires term { IsIn self.old.store.held term }
        requires owned { IsOwned (length self.old.shoens.shoens) goal }
        requires rules { has_substitutes self.old.rules ≡ true }
        requires level { goal.priority ≤ MONITOR_PRIORITY }
        ensures ok { OnOk result (TurnsAs (λ f. raised (goal_with (meaning f self.old.store.held) goal) (text_of kind) (meaning f self.old.store.held term)) self.old self.new) }
        ensures since { (b : Machine) → Since b self.old → StillSince result b self.new }
    {
        let mark = self.store.mark();
        let new = Cell::Variable(self.store.fresh()?);
        let message = exception_with(&mut self.store, kind, term, new)?;
        if self.tell(goal.shoen, message)? {
            return self.put(goal.shoen, goal.priority, Task::Substitutes(new));
        }
        self.store.back(mark);
        Ok(())
    }

    /// Does what comes of an exception of the kind of a name that a goal raises, which has been removed and is this cell: its shoen
    /// reports that, and if there are substitutes one stands in its place.
    pub fn raise(
        &mut self,
        goal: Goal<CellName>,
        kind: BuiltIn,
        cell: Qualified<CellName>,
    ) -> Result<(), AllocError>
        requires machine { IsMachine self.old }
        requires cell { IsIn self.old.store.held cell.cell }
        requires owned { IsOwned (length self.old.shoens.shoens) goal }
        requires level { goal.priority ≤ MONITOR_PRIORITY }
        ensures ok { OnOk result (TurnsAs (λ f. raised (goal_with (meaning f self.old.store.held) goal) (text_of kind) (aim f self.old.store.held cell)) self.old self.new) }
        ensures since { (b : Machine) → Since b self.old → StillSince result b self.new }
    {
        let term = whole(&mut self.store, cell)?;
        if !self.rules.has_substitutes() {
            return self.raise_whole(goal.shoen, kind, term);
        }
        self.raise_with_substitute(goal, kind, term)
    }

    /// Reports an exception of the kind of a name of a whole goal of shoen `number`, or of any term.
    pub fn raise_whole(
        &mut self,
        number: u64,
        kind: BuiltIn,
        goal: Cell<CellName>,
    ) -> Result<(), AllocError>
        requires machine { IsMachine self.old }
        requires goal { IsIn self.old.store.held goal }
        ensures ok { OnOk result (TurnsAs (λ f. report number (exception (text_of kind) (meaning f self.old.store.held goal))) self.old self.new) }
        ensures since { (b : Machine) → Since b self.old → StillSince result b self.new }
    {
        let message = exception_of(&mut self.store, kind, goal)?;
        self.tell(number, message)?;
        Ok(())
    }
}
