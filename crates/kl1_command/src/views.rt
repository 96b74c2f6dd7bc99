// What is shown of an account to which commands are done.

ghost use Rattle.std.specs.Prelude.{◌≡◌, IfOk, option_map};
ghost use Rattle.kl1_user_events.specs.Viewing.{shoen_page, goal_page, goal_text, goal_term, AreAwaited, IsPresence, usage_of};

use crate::host::Host;
use kl1_user_events::{Extent, GoalNo, GoalView, Presence, ShoenNo, ShoenView, Usage};
use std::alloc::AllocError;

/// A host that shows what its account has, a page at a time. Nothing of this changes the account.
pub trait Views: Host {
    /// What is shown of the shoens with numbers from one on, of the first `count` of them.
    fn shoens_from(&self, from: ShoenNo, count: usize) -> Result<Vec<ShoenView>, AllocError>
        ensures { IfOk result (λ views. (f : Self.Reading) → views.items ≡ shoen_page (Self.kept f self.now).state from.0 count) };

    /// What is shown of the goals with numbers from one on, of the first `count` of them.
    fn goals_from(&self, from: GoalNo, count: usize) -> Result<Vec<GoalView>, AllocError>
        ensures { IfOk result (λ views. (f : Self.Reading) → Self.fits self.now f → views.items ≡ goal_page (Self.kept f self.now).state from.0 count) };

    /// The text of the term of a goal, cut or whole; `None` if there is no such goal, or it is a monitor. The account stays as it was.
    fn goal_text(&mut self, goal: GoalNo, extent: Extent) -> Result<Option<Vec<u8>>, AllocError>
        ensures text { IfOk result (λ shown. (f : Self.Reading) → Self.fits self.new f → option_map (λ text. text.items) shown ≡ goal_text extent (Self.kept f self.new).state goal.0) }
        ensures same { (f : Self.Reading) → Self.fits self.new f → Self.kept f self.new ≡ Self.kept f self.old }
        ensures before { (f : Self.Reading) → Self.fits self.new f → Self.fits self.old f }
        ensures beside { Self.beside self.new ≡ Self.beside self.old };

    /// The numbers of the variables that a goal waits for, once each in increasing order, whether it is held back or not; `None` if there
    /// is no such goal. A variable has the number with which it is printed.
    fn awaited(&self, goal: GoalNo) -> Result<Option<Vec<u64>>, AllocError>
        ensures { IfOk result (λ awaited. (f : Self.Reading) → Self.fits self.now f → AreAwaited (Self.kept f self.now).state goal.0 (option_map (λ numbers. numbers.items) awaited)) };

    /// Whether variable `variable` is in the term of a goal; `Unknown` if it isn't among the first `most` parts, and there are more. No
    /// goal, and a monitor, have none.
    fn presence(&self, goal: GoalNo, variable: u64, most: u64) -> Result<Presence, AllocError>
        ensures { IfOk result (λ presence. (f : Self.Reading) → IsPresence variable most (goal_term (Self.kept f self.now).state goal.0) presence) };

    /// What the account has of what is limited.
    fn usage(&self) -> Usage
        ensures { (f : Self.Reading) → result ≡ usage_of (Self.kept f self.now).state };
}
