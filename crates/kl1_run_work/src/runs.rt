// A run in slices, which is told as it goes on.

use crate::asked::ask;
use crate::watch::Watch;
use kl1_command::{Command, Performed, UnbookedHost, perform};
use kl1_user_events::{Query, Reply, ShoenNo};
use std::alloc::AllocError;

/// The most steps between two looks at what is told.
const SLICE: u64 = 4_096;

/// How many steps the reply to a run tells.
fn steps_in(reply: &Reply) -> u64 {
    match reply {
        Reply::Ran(steps) => *steps,
        _ => 0,
    }
}

/// Does first steps, at most `steps`, and answers how many were done. After an `Err` some of them may be done.
fn run_slice<H: UnbookedHost>(host: &mut H, steps: u64) -> Result<u64, AllocError> {
    match perform(host, &Command::Run(steps)) {
        Performed::Whole(reply) => Ok(steps_in(&reply)),
        Performed::Short { steps: _steps } => Err(AllocError),
        Performed::Memory => Err(AllocError),
    }
}

/// The reductions that a shoen was charged, and how many goals are alive in it and below it, if a reply tells its status.
fn progress_in(reply: &Reply) -> Option<(u64, u64)> {
    match reply {
        Reply::Status { charged, alive, .. } => Some((*charged, *alive)),
        _ => None,
    }
}

/// Tells what the shoen was charged, and how many goals are alive in it and below it, if that is due.
fn tell_progress<H: UnbookedHost, T: Watch>(
    host: &mut H,
    shoen: ShoenNo,
    watch: &mut T,
) -> Result<(), AllocError> {
    if !watch.is_due() {
        return Ok(());
    }
    let reply = ask(host, Query::Status(shoen))?;
    if let Some((charged, alive)) = progress_in(&reply) {
        watch.tell(charged, alive);
    }
    Ok(())
}

/// Does first steps, one after another, at most `steps` and until none can step. After an `Err` some of them may be done.
pub(crate) fn run_watched<H: UnbookedHost, T: Watch>(
    host: &mut H,
    shoen: ShoenNo,
    steps: u64,
    watch: &mut T,
) -> Result<(), AllocError> {
    let mut left = steps;
    while 0 < left {
        let slice = left.min(SLICE);
        let done = run_slice(host, slice)?;
        left -= slice;
        tell_progress(host, shoen, watch)?;
        // No goal can step, or the next step is refused.
        if done < slice {
            return Ok(());
        }
    }
    Ok(())
}
