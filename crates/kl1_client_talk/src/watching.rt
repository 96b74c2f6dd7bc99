// What is asked of a shoen until it has ended.

use crate::caller::Caller;
use crate::connection::Connection;
use crate::fault::Fault;
use crate::listing::{ask_one, ask_pages};
use crate::reply::{has_ended, is_over, is_refusal, is_still};
use crate::reply_writer::ReplyWriter;
use crate::request::{Page, Request};
use crate::turn_end::TurnEnd;
use kl1_lines::{Sink, Source};

/// Looks at a shoen until it has ended, or no step can be done, or its seconds are over, and shows the last reply to a question for its
/// status.
pub(crate) fn wait<S: Source, T: Sink, O: Sink, C: Caller>(
    connection: &mut Connection<S, T>,
    shown: &mut ReplyWriter<O>,
    caller: &mut C,
    shoen: u64,
    seconds: Option<u64>,
) -> Result<TurnEnd, Fault> {
    for looks in 1..u64::MAX {
        connection.ask(Request::Status(shoen))?;
        let status = connection.line();
        if is_over(status) {
            shown.line(status)?;
            return Ok(TurnEnd::GoesOn);
        }
        ask_step(connection)?;
        let done = connection.line();
        if is_still(done) {
            caller.turned(TurnEnd::GoesOn, done);
            return end_wait(connection, shown, shoen);
        }
        if caller.pause(looks, seconds) {
            return end_wait(connection, shown, shoen);
        }
    }
    Err(Fault::Reply)
}

/// Asks for one step. The reply tells whether one can be done, as `quiet` doesn't, which knows nothing of the journal.
fn ask_step<S: Source, T: Sink>(connection: &mut Connection<S, T>) -> Result<(), Fault> {
    connection.ask(Request::Line(b"run 1"))
}

/// Asks once more for the status of a shoen, which may have ended since, and shows it.
fn end_wait<S: Source, T: Sink, O: Sink>(
    connection: &mut Connection<S, T>,
    shown: &mut ReplyWriter<O>,
    shoen: u64,
) -> Result<TurnEnd, Fault> {
    ask_one(connection, shown, Request::Status(shoen))?;
    let last = connection.line();
    if is_over(last) {
        Ok(TurnEnd::GoesOn)
    } else {
        Ok(TurnEnd::StandsStill)
    }
}

/// Shows the reports of a shoen as they come, from the first one on, until it has ended or a question is refused.
pub(crate) fn watch<S: Source, T: Sink, O: Sink, C: Caller>(
    connection: &mut Connection<S, T>,
    shown: &mut ReplyWriter<O>,
    caller: &mut C,
    shoen: u64,
) -> Result<(), Fault> {
    let mut next = 1;
    for looks in 1..u64::MAX {
        connection.ask(Request::Status(shoen))?;
        let status = connection.line();
        if is_refusal(status) {
            return shown.line(status);
        }
        // What has ended before its reports are asked for has no more of them.
        let has_ended = has_ended(status);
        let after = ask_pages(connection, shown, Page::Reports { shoen }, next)?;
        if has_ended {
            return Ok(());
        }
        match after {
            None => return Ok(()),
            Some(later) => next = later,
        }
        shown.flush()?;
        let _ = caller.pause(looks, None);
    }
    Err(Fault::Reply)
}
