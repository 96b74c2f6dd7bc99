// Goals that the console starts.

ghost use Rattle.std.specs.Prelude.{◌≡◌, ◌≤◌, IfOk, OnErr};
ghost use Rattle.kl1_model.specs.Rules.{limits_of};
ghost use Rattle.kl1_model.specs.Step.{step};
ghost use Rattle.kl1_model.specs.Event.{start as start_event};
ghost use Rattle.kl1_user_effects.specs.Fitting.{Reading, Fits};
ghost use Rattle.kl1_user_effects.specs.Account.{state_of};
ghost use Rattle.kl1_user_effects.specs.Naming.{Keeps};
ghost use Rattle.kl1_user_events.specs.Views.{reply_of};
ghost use Rattle.kl1_codes.specs.Numbered.{ArePlaced};

use crate::account::Account;
use crate::startable::{Starting, code_of};
use kl1_atoms::AtomSource;
use kl1_codes::CodeSource;
use kl1_machine::{Brought, Start};
use kl1_term::Term;
use kl1_user_effects::last_of;
use kl1_user_events::{Reply, ShoenNo};
use std::alloc::AllocError;

impl<C: CodeSource> Account<C> {
    /// Starts a goal in a shoen of its own.
    pub fn start<A: AtomSource>(
        &mut self,
        names: &mut A,
        seat: &mut A::Seat,
        codes: &C,
        allowance: u64,
        low: u64,
        high: u64,
        goal: &Term,
    ) -> Result<Reply, AllocError>
        requires of { A.is_of names.old seat.old }
        requires knows { A.knows seat.old ≡ self.old.names }
        requires room { (limits_of self.old.rules).names ≤ (A.place seat.old).0.1 }
        requires placed { ArePlaced (C.has codes.now) self.old.modules }
        ensures step { IfOk result (λ reply. (f : Reading) → Fits self.new.names f → step (state_of f self.old) (start_event allowance low high goal.now) ≡ record { state = state_of f self.new; reply = reply_of reply }) }
        ensures err { OnErr result (self.new ≡ self.old) }
        ensures keeps { Keeps A.is_of A.place A.knows A.published names.old names.new seat.old seat.new }
        ensures knows { A.knows seat.new ≡ self.new.names }
        ensures modules { self.new.modules ≡ self.old.modules }
    {
        let counted = self.counted();
        let taken = &self.machine.names;
        let code = match code_of(self.alloc, taken, counted, allowance, low, high, goal)? {
            Starting::Refused(refusal) => return Ok(Reply::Refused(refusal)),
            Starting::Coded(code) => code,
        };
        let shoen = last_of(counted.shoens, 1)?;
        let start = Brought::Starts(Start {
            code: &code,
            variables: goal.highest(),
            allowance,
            low,
            high,
        });
        self.bring(names, seat, codes, code.names(), &start)?;
        Ok(Reply::Opened(ShoenNo(shoen)))
    }
}
