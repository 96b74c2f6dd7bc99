// What is shown of an account over a table of names and a source of codes.

ghost use Rattle.std.specs.Prelude.{◌≡◌, IfOk, option_map};
ghost use Rattle.kl1_codes.specs.Numbered.{ArePlaced};
ghost use Rattle.kl1_user_effects.specs.Fitting.{Reading, Fits};
ghost use Rattle.kl1_user_effects.specs.Account.{state_of};
ghost use Rattle.kl1_user_effects.specs.Naming.{Keeps};
ghost use Rattle.kl1_user_events.specs.Viewing.{shoen_page, goal_page, value_text, goal_text, goal_term, AreAwaited, IsPresence, usage_of};

use crate::user_state::UserState;
use kl1_atoms::AtomSource;
use kl1_codes::CodeSource;
use kl1_user_events::{Extent, GoalNo, GoalView, Presence, ShoenNo, ShoenView, Usage};
use std::alloc::AllocError;

impl<A: AtomSource, C: CodeSource> UserState<A, C> {
    /// What is shown of the shoens with numbers from one on, of the first `count` of them.
    pub fn shoens_from(&self, from: ShoenNo, count: usize) -> Result<Vec<ShoenView>, AllocError>
        ensures { IfOk result (λ views. (f : Reading) → views.items ≡ shoen_page (state_of f self.now) from.0 count) }
    {
        self.account.shoens_from(from.0, count)
    }

    /// What is shown of the goals with numbers from one on, of the first `count` of them.
    pub fn goals_from(&self, from: GoalNo, count: usize) -> Result<Vec<GoalView>, AllocError>
        ensures { IfOk result (λ views. (f : Reading) → Fits self.now.names f → views.items ≡ goal_page (state_of f self.now) from.0 count) }
    {
        self.account.goals_from(from.0, count)
    }

    /// The text of the goal of a shoen, as started, with what is bound now, cut or whole; `None` if the console started no shoen of this
    /// number.
    pub fn value_text(
        &self,
        names: &mut A,
        seat: &mut A::Seat,
        shoen: ShoenNo,
        extent: Extent,
    ) -> Result<Option<Vec<u8>>, AllocError>
        requires of { A.is_of names.old seat.old }
        requires knows { A.knows seat.old ≡ self.now.names }
        ensures text { IfOk result (λ shown. (f : Reading) → Fits self.now.names f → option_map (λ text. text.items) shown ≡ value_text extent (state_of f self.now) shoen.0) }
        ensures keeps { Keeps A.is_of A.place A.knows A.published names.old names.new seat.old seat.new }
        ensures knows { A.knows seat.new ≡ self.now.names }
    {
        self.account.value_text(names, seat, shoen.0, extent)
    }

    /// The text of the term of a goal, cut or whole; `None` if there is no such goal, or it is a monitor.
    pub fn goal_text(
        &self,
        names: &mut A,
        seat: &mut A::Seat,
        goal: GoalNo,
        extent: Extent,
    ) -> Result<Option<Vec<u8>>, AllocError>
        requires of { A.is_of names.old seat.old }
        requires knows { A.knows seat.old ≡ self.now.names }
        ensures text { IfOk result (λ shown. (f : Reading) → Fits self.now.names f → option_map (λ text. text.items) shown ≡ goal_text extent (state_of f self.now) goal.0) }
        ensures keeps { Keeps A.is_of A.place A.knows A.published names.old names.new seat.old seat.new }
        ensures knows { A.knows seat.new ≡ self.now.names }
    {
        self.account.goal_text(names, seat, goal.0, extent)
    }

    /// The numbers of the variables that a goal waits for, once each in increasing order, whether it is held back or not; `None` if there
    /// is no such goal. A variable has the number with which it is printed.
    pub fn awaited(&self, codes: &C, goal: GoalNo) -> Result<Option<Vec<u64>>, AllocError>
        requires { ArePlaced (C.has codes.now) self.now.modules }
        ensures { IfOk result (λ awaited. (f : Reading) → Fits self.now.names f → AreAwaited (state_of f self.now) goal.0 (option_map (λ numbers. numbers.items) awaited)) }
    {
        self.account.awaited(codes, goal.0)
    }

    /// Whether variable `variable` is in the term of a goal; `Unknown` if it isn't among the first `most` parts, and there are more. No
    /// goal, and a monitor, have none.
    pub fn presence(&self, goal: GoalNo, variable: u64, most: u64) -> Result<Presence, AllocError>
        ensures { IfOk result (λ presence. (f : Reading) → IsPresence variable most (goal_term (state_of f self.now) goal.0) presence) }
    {
        self.account.presence(goal.0, variable, most)
    }

    /// What the account has of what is limited.
    pub fn usage(&self) -> Usage
        ensures { (f : Reading) → result ≡ usage_of (state_of f self.now) }
    {
        self.account.usage()
    }
}
