// The script that does the same work, if the program `kl1` takes it.

use crate::run::progress::NoWatch;
use crate::world::fresh_world;
use kl1_model::limits::MOST_COMMAND_BYTES;
use kl1_run_work::{Refusal, Stop, Work, do_work, put_script, start_length};
use kl1_world::Rules;
use std::alloc::Global;

/// Loads the sources and starts the goal in an account of its own by the rules of `kl1`, and tells why that is refused, if it is.
fn try_alone(alloc: Global, work: Work) -> Result<(), Stop> {
    let Ok(mut world) = fresh_world(alloc, Rules::Three) else {
        return Err(Stop::Memory);
    };
    let work = Work { steps: 0, ..work };
    match do_work(alloc, &mut world, work, &mut NoWatch) {
        Ok(_shoen) => Ok(()),
        Err(stop) => Err(stop),
    }
}

/// The script that does the work, if the program `kl1` takes it: the line of the goal isn't too long, and an account of its rules
/// refuses neither a source nor the goal.
pub fn script_alone(alloc: Global, work: Work, with_reports: bool) -> Result<Vec<u8>, Stop> {
    let mut script = Vec::new(alloc);
    match put_short_script(alloc, &work, with_reports, &mut script) {
        Ok(()) => match try_alone(alloc, work) {
            Ok(()) => Ok(script),
            Err(stop) => Err(stop),
        },
        Err(stop) => Err(stop),
    }
}

/// Puts the script that does the work after the bytes, if the line of the goal isn't too long. After an `Err` some of it may be there.
fn put_short_script(
    alloc: Global,
    work: &Work,
    with_reports: bool,
    out: &mut Vec<u8>,
) -> Result<(), Stop> {
    match start_length(alloc, &work.goal, work.allowance) {
        Ok(length) => {
            if MOST_COMMAND_BYTES < length {
                return Err(Stop::Goal(Refusal::Syntax));
            }
        }
        Err(_) => return Err(Stop::Memory),
    }
    let files = work.files.as_slice();
    match put_script(
        alloc,
        files,
        &work.goal,
        work.allowance,
        work.steps,
        with_reports,
        out,
    ) {
        Ok(()) => Ok(()),
        Err(_) => Err(Stop::Memory),
    }
}
