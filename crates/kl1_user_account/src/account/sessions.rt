// The sessions of an account.

ghost use Rattle.std.specs.Prelude.{◌≡◌};
ghost use Rattle.kl1_model.specs.Event.{login, logout};
ghost use Rattle.kl1_model.specs.Step.{step};
ghost use Rattle.kl1_user_effects.specs.Account.{state_of};
ghost use Rattle.kl1_user_effects.specs.Fitting.{Reading};
ghost use Rattle.kl1_user_events.specs.Views.{reply_of};

use crate::account::Account;
use kl1_codes::CodeSource;
use kl1_model::limits::MOST_SESSIONS;
use kl1_user_events::{Refusal, Reply};

impl<C: CodeSource> Account<C> {
    /// Opens a session, if fewer than 4 are open. It takes no memory.
    pub fn login(&mut self) -> Reply
        ensures step { (f : Reading) → step (state_of f self.old) login ≡ record { state = state_of f self.new; reply = reply_of result } }
        ensures names { self.new.names ≡ self.old.names }
        ensures modules { self.new.modules ≡ self.old.modules }
    {
        if MOST_SESSIONS <= self.sessions {
            return Reply::Refused(Refusal::Sessions);
        }
        self.sessions += 1;
        Reply::Welcome(self.name.text())
    }

    /// Closes a session, if one is open. It takes no memory.
    pub fn logout(&mut self) -> Reply
        ensures step { (f : Reading) → step (state_of f self.old) logout ≡ record { state = state_of f self.new; reply = reply_of result } }
        ensures names { self.new.names ≡ self.old.names }
        ensures modules { self.new.modules ≡ self.old.modules }
    {
        if self.sessions == 0 {
            return Reply::Refused(Refusal::Sessions);
        }
        self.sessions -= 1;
        Reply::Bye
    }
}
