// The whole of what the program does on one account: the work, and what is written of it.

use crate::answers::{Answers, answers_of};
use crate::ending::Ending;
use crate::stop::Stop;
use crate::wanted::Wanted;
use crate::watch::Watch;
use crate::works::{Work, do_work};
use kl1_command::UnbookedHost;
use kl1_lines::{DeviceFailed, Sink, finish, write_all};
use std::alloc::Global;

/// Writes the goal, and the reports if they are wanted.
fn write_value<W: Sink>(
    answers: &Answers,
    wanted: Wanted,
    out: &mut W,
) -> Result<(), DeviceFailed> {
    if !wanted.reports {
        return finish(out, answers.value.as_slice());
    }
    write_all(out, answers.value.as_slice())?;
    finish(out, answers.reports.as_slice())
}

/// Does the work, and writes what is told of the goal's shoen: as much of its value as is wanted, and its reports if they are
/// wanted, to the first stream, and its exceptions to the second.
pub fn run<H: UnbookedHost, T: Watch, W: Sink, E: Sink>(
    alloc: Global,
    host: &mut H,
    work: Work,
    wanted: Wanted,
    watch: &mut T,
    out: &mut W,
    err: &mut E,
) -> Result<Ending, Stop> {
    let shoen = do_work(alloc, host, work, watch)?;
    match answers_of(alloc, host, shoen, wanted) {
        Ok(answers) => write_answers(&answers, wanted, out, err),
        Err(_) => Err(Stop::Memory),
    }
}

/// Writes what is told of a shoen, and answers how it stands.
fn write_answers<W: Sink, E: Sink>(
    answers: &Answers,
    wanted: Wanted,
    out: &mut W,
    err: &mut E,
) -> Result<Ending, Stop> {
    if write_value(answers, wanted, out).is_err() {
        return Err(Stop::Write);
    }
    match finish(err, answers.exceptions.as_slice()) {
        Ok(()) => Ok(answers.ending),
        Err(_) => Err(Stop::Write),
    }
}
