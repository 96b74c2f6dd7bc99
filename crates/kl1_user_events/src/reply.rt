// What an account answers.

ghost use Rattle.std.specs.Prelude.{◌≡◌};
ghost use Rattle.kl1_user_events.specs.Views.{reply_of, listed_in};

use crate::listed::Listed;
use crate::numbers::ShoenNo;
use crate::refusal::Refusal;
use kl1_model::Condition;
use kl1_text::AtomText;
use std::alloc::Global;

/// What an account answers.
pub enum Reply {
    /// A module of this name is loaded.
    Loaded(AtomText),
    /// A shoen of this number is open.
    Opened(ShoenNo),
    /// A message or an answer is sent.
    Sent,
    /// A reduction is done.
    Reduced,
    /// This many steps of a run are done.
    Ran(u64),
    /// A goal, printed and cut.
    Shown(Vec<u8>),
    /// A shoen's state, what it was charged and its allowance, both in reductions, and how many goals there are in it and
    /// in its descendants.
    Status {
        condition: Condition,
        charged: u64,
        allowance: u64,
        alive: u64,
    },
    /// Texts, one a line.
    Listed(Listed),
    /// Whether no goal can step.
    Quiet(bool),
    /// A session of the account of this name is open.
    Welcome(AtomText),
    /// A session is closed.
    Bye,
    /// The account is fresh again.
    Reset,
    /// Reports or a shoen are let go.
    Forgotten,
    /// The event is refused, and the account is as it was.
    Refused(Refusal),
}

/// Not derived, so that crates above don't prove the drop of each part again.
impl Drop for Reply {
    fn drop(self) {
        match self {
            Reply::Loaded(_) | Reply::Welcome(_) => {}
            Reply::Opened(_) => {}
            Reply::Sent | Reply::Reduced | Reply::Bye | Reply::Reset | Reply::Forgotten => {}
            Reply::Ran(_) => {}
            Reply::Shown(_) => {}
            Reply::Status {
                condition: _,
                charged: _,
                allowance: _,
                alive: _,
            } => {}
            Reply::Listed(_) => {}
            Reply::Quiet(_) => {}
            Reply::Refused(_) => {}
        }
    }
}

impl Reply {
    /// The texts that the reply lists; none if it is no list.
    pub fn into_listed(self, alloc: Global) -> Listed
        ensures { result ≡ listed_in (reply_of self) }
    {
        match self {
            Reply::Listed(texts) => texts,
            Reply::Loaded(_) => Listed::new(alloc),
            Reply::Opened(_) => Listed::new(alloc),
            Reply::Sent => Listed::new(alloc),
            Reply::Reduced => Listed::new(alloc),
            Reply::Ran(_) => Listed::new(alloc),
            Reply::Shown(_) => Listed::new(alloc),
            Reply::Status {
                condition: _,
                charged: _,
                allowance: _,
                alive: _,
            } => Listed::new(alloc),
            Reply::Quiet(_) => Listed::new(alloc),
            Reply::Welcome(_) => Listed::new(alloc),
            Reply::Bye => Listed::new(alloc),
            Reply::Reset => Listed::new(alloc),
            Reply::Forgotten => Listed::new(alloc),
            Reply::Refused(_) => Listed::new(alloc),
        }
    }
}
