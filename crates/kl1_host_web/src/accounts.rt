// The accounts of a host, as browsers use them.

ghost use Rattle.std.specs.Prelude.{◌≡◌, ◌<◌, ◌++◌, ◌∷◌, [], ℕ, List, IfOk, IfSome, OnOk, ⊤};
ghost use Rattle.kl1_command.specs.Commands.{command_view};
ghost use Rattle.kl1_user_events.specs.declared.shoen_view.ShoenView.{ShoenView};
ghost use Rattle.kl1_session.specs.Views.{entries_view};
ghost use Rattle.kl1_host_web.specs.Asking.{Asked, did, looked, changed, let_in, House};

use kl1_command::{Command, Performed};
use kl1_host_door::{BookChange, LoginKeys};
use kl1_session::Key;
use kl1_user_events::{Extent, GoalNo, GoalView, Presence, ShoenNo, ShoenView, Usage};
use std::alloc::AllocError;

/// Why an account does no more.
#[derive(Clone, Copy)]
pub enum Stop {
    /// Its file can't be written.
    Disk,
    /// It has more in memory than it may.
    Memory,
}

/// What an account has done.
#[derive(Clone, Copy)]
pub struct Measures {
    /// The entries of its journal.
    pub entries: u64,
    /// The bytes of its file.
    pub bytes: u64,
}

/// What a host has done since it runs.
#[derive(Clone, Copy)]
pub struct Sums {
    pub accounts: u64,
    pub sessions: u64,
    pub events: u64,
    pub steps: u64,
}

/// What one account shows. Nothing of this changes it.
pub trait Viewer {
    /// The account that it shows.
    ghost account: { Self → ℕ };

    /// Which shoens an account has told: by its number, from which shoen's number on, and how many at most.
    ghost lists: { ℕ → ℕ → ℕ → List ShoenView → Type 0 } = { λ _ _ _ _. ⊤ };

    /// The shoens with numbers from one on, the first `count` of them.
    fn shoens_from(&mut self, from: ShoenNo, count: usize) -> Result<Vec<ShoenView>, AllocError>
        ensures { IfOk result (λ views. lists (account self.old) from.0 count views.items) };

    /// The goals with numbers from one on, the first `count` of them.
    fn goals_from(&mut self, from: GoalNo, count: usize) -> Result<Vec<GoalView>, AllocError>;

    /// The text of a goal; `None` if there is no such goal.
    fn goal_text(&mut self, goal: GoalNo, extent: Extent) -> Result<Option<Vec<u8>>, AllocError>;

    /// The variables that a goal waits for; `None` if there is no such goal.
    fn awaited(&mut self, goal: GoalNo) -> Result<Option<Vec<u64>>, AllocError>;

    /// Whether a variable is in a goal, as far as `most` of its parts tell.
    fn presence(&mut self, goal: GoalNo, variable: u64, most: u64) -> Result<Presence, AllocError>;

    /// What there is of what is limited.
    fn usage(&mut self) -> Result<Usage, AllocError>;

    /// Why the account does no more; `None` if it does.
    fn stopped(&mut self) -> Option<Stop>;
}

/// The accounts of a host by their numbers, from 0: who is let in to them, what is done to them, and what they show.
pub trait Accounts {
    type Viewer: Viewer + Drop;

    /// How many accounts there are, what they are called, whom names and keys let in, by which keys, and what was done before.
    ghost house: { Self → House };

    /// What was asked of accounts, in order.
    ghost asked: { Self → List Asked };

    /// How many accounts there are.
    fn count(&self) -> usize
        ensures { result ≡ (house self.now).accounts };

    /// The account to which a name and a key let in.
    fn open(&mut self, name: &[u8], key: &[u8]) -> Option<usize>
        ensures value { result ≡ (house self.old).opens name.now key.now }
        ensures within { IfSome result (λ n. n < (house self.old).accounts) }
        ensures house { house self.new ≡ house self.old }
        ensures asked { asked self.new ≡ asked self.old };

    /// The keys of the accounts.
    fn keys(&self) -> &[Key]
        ensures { entries_view result.now ≡ (house self.now).entries };

    /// Puts the name of an account after the bytes.
    fn put_name(&self, account: usize, out: &mut Vec<u8>) -> Result<(), AllocError>
        requires { account < (house self.now).accounts }
        ensures { OnOk result (out.new.items ≡ out.old.items ++ (house self.now).names account) };

    /// Takes in that a request was let in to an account, by a session.
    fn let_in(&mut self)
        ensures house { house self.new ≡ house self.old }
        ensures asked { asked self.new ≡ asked self.old ++ let_in ∷ [] };

    /// Does a command to an account.
    fn act(&mut self, account: usize, command: &Command) -> Performed
        requires { account < (house self.old).accounts }
        ensures house { house self.new ≡ house self.old }
        ensures asked { asked self.new ≡ asked self.old ++ did account (command_view command.now) result ∷ [] };

    /// What shows an account.
    fn look(&mut self, account: usize) -> Self::Viewer
        requires { account < (house self.old).accounts }
        ensures account { Self.Viewer.account result ≡ account }
        ensures house { house self.new ≡ house self.old }
        ensures asked { asked self.new ≡ asked self.old ++ looked account ∷ [] };

    /// Notes what was done to the book of sessions. It is there for contracts: no account is asked.
    fn note_change<K: LoginKeys>(&mut self, change: BookChange<K>)
        ensures house { house self.new ≡ house self.old }
        ensures asked { asked self.new ≡ asked self.old ++ changed change.step.value change.before.value.items ∷ [] };

    /// Whether there is an account of this number: one that was removed isn't.
    fn has(&self, _account: usize) -> bool {
        true
    }

    /// How many events are done of how many, if an account is being restored.
    fn restoring(&self, _account: usize) -> Option<(u64, u64)> {
        None
    }

    /// What an account has done.
    fn measures(&self, account: usize) -> Measures
        requires { account < (house self.now).accounts };

    /// What the host has done.
    fn sums(&self) -> Sums;
}
