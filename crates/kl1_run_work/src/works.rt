// The work: sources, a goal, and its run.

use crate::loads::load_each;
use crate::runs::run_watched;
use crate::source_file::SourceFile;
use crate::starts::start;
use crate::stop::Stop;
use crate::watch::Watch;
use kl1_command::UnbookedHost;
use kl1_term::Term;
use kl1_user_events::ShoenNo;
use std::alloc::Global;

/// What is to be done on an account.
#[derive(Drop)]
pub struct Work {
    /// The files whose sources are loaded, in order.
    pub files: Vec<SourceFile>,
    /// The goal that is started.
    pub goal: Term,
    /// What the goal's shoen may be charged, in reductions.
    pub allowance: u64,
    /// The most first steps that are done. Where a journal has an entry for each, more change nothing after it is full.
    pub steps: u64,
}

/// Loads the sources in order, starts the goal with all priorities, and does first steps until none can step or all are done.
/// Answers the number of the goal's shoen.
pub fn do_work<H: UnbookedHost, T: Watch>(
    alloc: Global,
    host: &mut H,
    work: Work,
    watch: &mut T,
) -> Result<ShoenNo, Stop> {
    let Work {
        files,
        goal,
        allowance,
        steps,
    } = work;
    load_each(alloc, host, files.as_slice())?;
    start_and_run(host, goal, allowance, steps, watch)
}

/// Starts a goal with an allowance and all priorities, and does first steps until none can step or all are done.
fn start_and_run<H: UnbookedHost, T: Watch>(
    host: &mut H,
    goal: Term,
    allowance: u64,
    steps: u64,
    watch: &mut T,
) -> Result<ShoenNo, Stop> {
    let shoen = start(host, goal, allowance)?;
    match run_watched(host, shoen, steps, watch) {
        Ok(()) => Ok(shoen),
        Err(_) => Err(Stop::Memory),
    }
}
