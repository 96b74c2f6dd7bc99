// What is shown of an account with its journal.

ghost use Rattle.std.specs.Prelude.{◌≡◌, IfOk, option_map};
ghost use Rattle.kl1_codes.specs.Numbered.{ArePlaced};
ghost use Rattle.kl1_user.specs.Accounts.{Reading, Fits};
ghost use Rattle.kl1_user_events.specs.Viewing.{shoen_page, goal_page, value_text, goal_text, goal_term, AreAwaited, IsPresence, usage_of};
ghost use Rattle.kl1_journal.specs.Keeping.{kept_of};

use crate::journaled_account::JournaledAccount;
use kl1_atoms::AtomSource;
use kl1_codes::CodeSource;
use kl1_user_events::{Extent, GoalNo, GoalView, Presence, ShoenNo, ShoenView, Usage};
use std::alloc::AllocError;

impl<A: AtomSource, C: CodeSource> JournaledAccount<A, C> {
    /// What is shown of the shoens with numbers from one on, of the first `count` of them.
    pub fn shoens_from(&self, from: ShoenNo, count: usize) -> Result<Vec<ShoenView>, AllocError>
        ensures { IfOk result (λ views. (f : Reading) → views.items ≡ shoen_page (kept_of f self.now.1).state from.0 count) }
    {
        self.user.shoens_from(from, count)
    }

    /// What is shown of the goals with numbers from one on, of the first `count` of them.
    pub fn goals_from(&self, from: GoalNo, count: usize) -> Result<Vec<GoalView>, AllocError>
        ensures { IfOk result (λ views. (f : Reading) → Fits self.now.1.0.names f → views.items ≡ goal_page (kept_of f self.now.1).state from.0 count) }
    {
        self.user.goals_from(from, count)
    }

    /// The text of the goal of a shoen, as started, with what is bound now, cut or whole; `None` if the console started no shoen of this
    /// number. The account and its journal stay.
    pub fn value_text(
        &mut self,
        names: &mut A,
        shoen: ShoenNo,
        extent: Extent,
    ) -> Result<Option<Vec<u8>>, AllocError>
        requires of { A.is_of names.old self.old.0 }
        ensures text { IfOk result (λ shown. (f : Reading) → Fits self.new.1.0.names f → option_map (λ text. text.items) shown ≡ value_text extent (kept_of f self.new.1).state shoen.0) }
        ensures same { self.new.1 ≡ self.old.1 }
        ensures of { A.is_of names.new self.new.0 }
        ensures place { A.place self.new.0 ≡ A.place self.old.0 }
        ensures others { (other : A.Seat) → A.is_of names.old other → (A.place other ≡ A.place self.old.0 → ⊥) → A.is_of names.new other }
    {
        self.user.value_text(names, &mut self.seat, shoen, extent)
    }

    /// The text of the term of a goal, cut or whole; `None` if there is no such goal, or it is a monitor. The account and its journal
    /// stay.
    pub fn goal_text(
        &mut self,
        names: &mut A,
        goal: GoalNo,
        extent: Extent,
    ) -> Result<Option<Vec<u8>>, AllocError>
        requires of { A.is_of names.old self.old.0 }
        ensures text { IfOk result (λ shown. (f : Reading) → Fits self.new.1.0.names f → option_map (λ text. text.items) shown ≡ goal_text extent (kept_of f self.new.1).state goal.0) }
        ensures same { self.new.1 ≡ self.old.1 }
        ensures of { A.is_of names.new self.new.0 }
        ensures place { A.place self.new.0 ≡ A.place self.old.0 }
        ensures others { (other : A.Seat) → A.is_of names.old other → (A.place other ≡ A.place self.old.0 → ⊥) → A.is_of names.new other }
    {
        self.user.goal_text(names, &mut self.seat, goal, extent)
    }

    /// The numbers of the variables that a goal waits for, once each in increasing order, whether it is held back or not; `None` if there
    /// is no such goal. A variable has the number with which it is printed.
    pub fn awaited(&self, codes: &C, goal: GoalNo) -> Result<Option<Vec<u64>>, AllocError>
        requires { ArePlaced (C.has codes.now) self.now.1.0.modules }
        ensures { IfOk result (λ awaited. (f : Reading) → Fits self.now.1.0.names f → AreAwaited (kept_of f self.now.1).state goal.0 (option_map (λ numbers. numbers.items) awaited)) }
    {
        self.user.awaited(codes, goal)
    }

    /// Whether variable `variable` is in the term of a goal; `Unknown` if it isn't among the first `most` parts, and there are more. No
    /// goal, and a monitor, have none.
    pub fn presence(&self, goal: GoalNo, variable: u64, most: u64) -> Result<Presence, AllocError>
        ensures { IfOk result (λ presence. (f : Reading) → IsPresence variable most (goal_term (kept_of f self.now.1).state goal.0) presence) }
    {
        self.user.presence(goal, variable, most)
    }

    /// What the account has of what is limited.
    pub fn usage(&self) -> Usage
        ensures { (f : Reading) → result ≡ usage_of (kept_of f self.now.1).state }
    {
        self.user.usage()
    }
}
