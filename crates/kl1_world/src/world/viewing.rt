// What is shown of the account to which commands are done.

ghost use Rattle.std.specs.Prelude.{◌≡◌, ◌<◌, length, IfOk, option_map};
ghost use Rattle.kl1_journal.specs.Keeping.{Reading, Fits, kept_of};
ghost use Rattle.kl1_user_events.specs.Viewing.{value_text, goal_text, AreAwaited};
ghost use Rattle.kl1_world.specs.Worlds.{account_in};

use crate::world::World;
use kl1_atoms::AtomSource;
use kl1_codes::CodeSource;
use kl1_command::Views;
use kl1_journal::JournaledAccount;
use kl1_user_events::{Extent, GoalNo, GoalView, Presence, ShoenNo, ShoenView, Usage};
use std::alloc::AllocError;

impl<A: AtomSource + Drop, C: CodeSource + Drop> World<A, C> {
    /// The account to which commands are done.
    fn current(&self) -> &JournaledAccount<A, C>
        ensures { result.now.1 ≡ account_in self.now.0 self.now.1 }
    {
        &self.accounts[self.at]
    }

    /// The variables that a goal of that account waits for.
    fn awaited_here(&self, goal: GoalNo) -> Result<Option<Vec<u64>>, AllocError>
        ensures { IfOk result (λ awaited. (f : Reading) → Fits (account_in self.now.0 self.now.1).0.names f → AreAwaited (kept_of f (account_in self.now.0 self.now.1)).state goal.0 (option_map (λ numbers. numbers.items) awaited)) }
    {
        let kept = &self.accounts[self.at];
        kept.awaited(&self.code_source, goal)
    }

    /// The text of the goal of a shoen of an account, as started, with what is bound now, cut or whole.
    pub(crate) fn value_text_at(
        &mut self,
        account: usize,
        shoen: ShoenNo,
        extent: Extent,
    ) -> Result<Option<Vec<u8>>, AllocError>
        requires { account < length self.old.0 }
        ensures text { IfOk result (λ shown. (f : Reading) → Fits (account_in self.new.0 account).0.names f → option_map (λ text. text.items) shown ≡ value_text extent (kept_of f (account_in self.new.0 account)).state shoen.0) }
        ensures same { self.new ≡ self.old }
    {
        let kept = &mut self.accounts[account];
        kept.value_text(&mut self.names, shoen, extent)
    }

    /// The text of the term of a goal of an account, cut or whole.
    pub fn goal_text_at(
        &mut self,
        account: usize,
        goal: GoalNo,
        extent: Extent,
    ) -> Result<Option<Vec<u8>>, AllocError>
        requires { account < length self.old.0 }
        ensures text { IfOk result (λ shown. (f : Reading) → Fits (account_in self.new.0 account).0.names f → option_map (λ text. text.items) shown ≡ goal_text extent (kept_of f (account_in self.new.0 account)).state goal.0) }
        ensures same { self.new ≡ self.old }
    {
        let kept = &mut self.accounts[account];
        kept.goal_text(&mut self.names, goal, extent)
    }
}

impl<A: AtomSource + Drop, C: CodeSource + Drop> Views for World<A, C> {
    fn shoens_from(&self, from: ShoenNo, count: usize) -> Result<Vec<ShoenView>, AllocError> {
        self.current().shoens_from(from, count)
    }

    fn goals_from(&self, from: GoalNo, count: usize) -> Result<Vec<GoalView>, AllocError> {
        self.current().goals_from(from, count)
    }

    fn goal_text(&mut self, goal: GoalNo, extent: Extent) -> Result<Option<Vec<u8>>, AllocError> {
        self.goal_text_at(self.at, goal, extent)
    }

    fn awaited(&self, goal: GoalNo) -> Result<Option<Vec<u64>>, AllocError> {
        self.awaited_here(goal)
    }

    fn presence(&self, goal: GoalNo, variable: u64, most: u64) -> Result<Presence, AllocError> {
        self.current().presence(goal, variable, most)
    }

    fn usage(&self) -> Usage {
        self.current().usage()
    }
}
