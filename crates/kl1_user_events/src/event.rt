// What may be done to an account.

use crate::numbers::{ClauseNo, GoalNo, ShoenNo};
use kl1_model::Message;
use kl1_term::Term;

/// What is asked of an account without a change.
#[derive(Clone, Copy)]
pub enum Query {
    /// The goal of a shoen as started, with what is bound now.
    Value(ShoenNo),
    /// The state of a shoen, with what it was charged, its allowance and its goals alive.
    Status(ShoenNo),
    /// The reports of a shoen from one on, the first being 1; refused if that one was let go.
    Reports { shoen: ShoenNo, from: u64 },
    /// The modules, in order of loading.
    Modules,
    /// Whether no goal can step.
    Quiet,
}

/// What may be done to an account. Any numbers, goals and lengths may stand here: those that the language does not allow
/// are refused.
pub enum Event {
    /// A module is loaded from its source.
    Load {
        source: Vec<u8>,
    },
    /// A goal, its variables numbered from 1 by first occurrence, is started in a shoen of its own, which may be charged
    /// `allowance` reductions and has the priorities `low` to `high`.
    Start {
        allowance: u64,
        low: u64,
        high: u64,
        goal: Term,
    },
    /// A message is sent to a shoen that the console started, on its control stream.
    Control {
        shoen: ShoenNo,
        message: Message,
    },
    /// A goal is reduced by a clause, by its number in the predicate from 1, or by 0, the number for a goal that fails and
    /// for a built-in goal.
    Reduce {
        goal: GoalNo,
        clause: ClauseNo,
    },
    /// Nothing changes.
    Read(Query),
    /// One more session is open.
    Login,
    /// One session fewer is open.
    Logout,
    /// The account is made fresh again; its names, its sessions and its rules stay.
    Reset,
    /// A goal is given to the substitute of which a report of a shoen tells that the console started; the first report is 1. By rules
    /// by which answers tell variables, variable n below 2^62 is variable n of the account, if it stands in the goal of that report, and
    /// the others are numbered from 2^62 by first occurrence; else all are, from 1.
    Answer {
        shoen: ShoenNo,
        report: u64,
        goal: Term,
    },
    /// The first `count` reports of a shoen that the console started are let go, or the shoen itself, which has ended, with all below it
    /// that have, if `count` is 0.
    Forget {
        shoen: ShoenNo,
        count: u64,
    },
}

/// Not derived, so that crates above don't prove the drop of each part again.
impl Drop for Event {
    fn drop(self) {
        match self {
            Event::Load { source: _ } => {}
            Event::Start {
                allowance: _,
                low: _,
                high: _,
                goal: _,
            } => {}
            Event::Control {
                shoen: _,
                message: _,
            } => {}
            Event::Reduce { goal: _, clause: _ } => {}
            Event::Read(_) => {}
            Event::Login | Event::Logout | Event::Reset => {}
            Event::Answer {
                shoen: _,
                report: _,
                goal: _,
            } => {}
            Event::Forget { shoen: _, count: _ } => {}
        }
    }
}
