// The account on which the work is done.

use crate::run::after::{After, Looks, after_run};
use crate::world::fresh_world;
use kl1_run_work::{Ending, Host, Sink, Stop, Wanted, Watch, Work, put_journal, run};
use kl1_world::Rules;
use std::alloc::Global;

/// Work on an account of its own.
#[derive(Drop)]
pub struct LoneWork {
    pub work: Work,
    /// The rules that the account keeps to.
    pub rules: Rules,
    /// What is told of the goal's shoen.
    pub wanted: Wanted,
    /// How what stands still is told.
    pub looks: Looks,
}

/// How work on an account of its own ended.
#[derive(Drop)]
pub struct RunResult {
    /// How the goal's shoen stands, or why the work was not done to its end.
    pub ending: Result<Ending, Stop>,
    /// What is told of the account, unless memory was refused for it.
    pub after: Option<After>,
    /// Why the journal was not written to its end, if it was not.
    pub journal: Result<(), Stop>,
}

/// Writes the journal of the host's account to the stream, if there is one.
fn write_journal<H: Host, J: Sink>(
    alloc: Global,
    host: &H,
    journal: &mut Option<J>,
) -> Result<(), Stop> {
    match journal {
        Some(sink) => put_journal(alloc, host, sink),
        None => Ok(()),
    }
}

/// Does the work on an account of its own, and writes what is told of the goal's shoen, and the journal to its stream, if there is
/// one.
pub fn run_alone<T: Watch, W: Sink, E: Sink, J: Sink>(
    alloc: Global,
    lone: LoneWork,
    watch: &mut T,
    out: &mut W,
    err: &mut E,
    journal: &mut Option<J>,
) -> RunResult {
    let LoneWork {
        work,
        rules,
        wanted,
        mut looks,
    } = lone;
    let Ok(mut world) = fresh_world(alloc, rules) else {
        return RunResult {
            ending: Err(Stop::Memory),
            after: None,
            journal: Err(Stop::Memory),
        };
    };
    let ending = run(alloc, &mut world, work, wanted, watch, out, err);
    let after = after_run(alloc, &mut world, &ending, &mut looks).ok();
    let journal = write_journal(alloc, &world, journal);
    RunResult {
        ending,
        after,
        journal,
    }
}
