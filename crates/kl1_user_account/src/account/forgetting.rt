// Reports and shoens that the console lets go.

ghost use Rattle.std.specs.Prelude.{◌≡◌, ◌<◌, IfOk, OnErr};
ghost use Rattle.kl1_model.specs.Rules.{limits_of};
ghost use Rattle.kl1_model.specs.Step.{step};
ghost use Rattle.kl1_model.specs.Event.{forget as forget_event};
ghost use Rattle.kl1_store.specs.Held.{IsIn};
ghost use Rattle.kl1_user_effects.specs.Fitting.{Reading, Fits};
ghost use Rattle.kl1_user_effects.specs.Account.{state_of};
ghost use Rattle.kl1_user_events.specs.Views.{reply_of};
ghost use Rattle.kl1_codes.specs.Numbered.{ArePlaced};
ghost use Rattle.kl1_user_account.specs.Forgetting.{StepsInPart, StepsWhole};

use crate::account::Account;
use crate::forgettable::{Forgetting, forgetting_of};
use crate::runs::note_entry;
use kl1_codes::{CodeSource, CodedModules};
use kl1_store::Cell;
use kl1_text::CellName;
use kl1_user_events::Reply;
use std::alloc::AllocError;

impl<C: CodeSource> Account<C> {
    /// Lets the first `count` reports of shoen `number` go, so that this is left.
    fn leave_reports(
        &mut self,
        codes: &C,
        number: u64,
        count: u64,
        left: Cell<CellName>,
    ) -> Result<Reply, AllocError>
        requires placed { ArePlaced (C.has codes.now) self.old.modules }
        requires left { IsIn self.old.held left }
        requires steps { StepsInPart self.old number count left }
        requires room { self.old.entries < (limits_of self.old.rules).entries }
        ensures step { IfOk result (λ reply. (f : Reading) → Fits self.old.names f → step (state_of f self.old) (forget_event number count) ≡ record { state = state_of f self.new; reply = reply_of reply }) }
        ensures names { self.new.names ≡ self.old.names }
        ensures modules { self.new.modules ≡ self.old.modules }
        ensures err { OnErr result (self.new ≡ self.old) }
    {
        let modules = CodedModules::over(self.machine.rules, &self.modules, codes);
        self.machine.begin();
        let trial = &mut self.trial;
        let left = self
            .machine
            .forget_reports(&modules, trial, number, count, left);
        self.machine.or_back(left)?;
        note_entry(&mut self.entries, &mut self.run);
        Ok(Reply::Forgotten)
    }

    /// Lets shoen `number` go, with all below it, that have ended.
    fn leave_shoen(&mut self, codes: &C, number: u64) -> Result<Reply, AllocError>
        requires placed { ArePlaced (C.has codes.now) self.old.modules }
        requires steps { StepsWhole self.old number }
        requires room { self.old.entries < (limits_of self.old.rules).entries }
        ensures step { IfOk result (λ reply. (f : Reading) → Fits self.old.names f → step (state_of f self.old) (forget_event number 0) ≡ record { state = state_of f self.new; reply = reply_of reply }) }
        ensures names { self.new.names ≡ self.old.names }
        ensures modules { self.new.modules ≡ self.old.modules }
        ensures err { OnErr result (self.new ≡ self.old) }
    {
        let modules = CodedModules::over(self.machine.rules, &self.modules, codes);
        self.machine.begin();
        let gone = self.machine.forget(&modules, &mut self.trial, number);
        self.machine.or_back(gone)?;
        note_entry(&mut self.entries, &mut self.run);
        Ok(Reply::Forgotten)
    }

    /// Lets the first `count` reports of shoen `number` go, which the console started, or if `count` is 0 the shoen itself, with all
    /// below it that have ended.
    pub fn forget(&mut self, codes: &C, number: u64, count: u64) -> Result<Reply, AllocError>
        requires { ArePlaced (C.has codes.now) self.old.modules }
        ensures step { IfOk result (λ reply. (f : Reading) → Fits self.old.names f → step (state_of f self.old) (forget_event number count) ≡ record { state = state_of f self.new; reply = reply_of reply }) }
        ensures names { self.new.names ≡ self.old.names }
        ensures modules { self.new.modules ≡ self.old.modules }
        ensures err { OnErr result (self.new ≡ self.old) }
    {
        let is_full = self.is_full();
        match forgetting_of(&self.machine, is_full, number, count) {
            Forgetting::Refused(refusal) => Ok(Reply::Refused(refusal)),
            Forgetting::Reports(left) => self.leave_reports(codes, number, count, left),
            Forgetting::Shoen => self.leave_shoen(codes, number),
        }
    }
}
