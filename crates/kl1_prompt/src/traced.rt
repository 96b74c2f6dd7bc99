// Steps of which each is told.

use crate::deeds::do_one;
use kl1_command::{Command, UnbookedHost, Views};
use kl1_lines::put_decimal;
use kl1_user_events::{Extent, Reply};
use std::alloc::AllocError;

/// Does first steps, at most `most` and until none can be done, and puts a line for each after the bytes. After an `Err` some of them may
/// be done.
pub fn trace_steps<H: UnbookedHost + Views>(
    host: &mut H,
    most: u64,
    out: &mut Vec<u8>,
) -> Result<(), AllocError> {
    for _ in 0..most {
        put_next(host, out)?;
        let done = run_one(host)?;
        // No goal can step, or the next step is refused.
        if done < 1 {
            return Ok(());
        }
    }
    Ok(())
}

/// Puts the line of the step that goes first after the bytes, if there is one: the goal, and its clause, unless it fails or is built in.
fn put_next<H: Views>(host: &mut H, out: &mut Vec<u8>) -> Result<(), AllocError> {
    let Some((goal, clause)) = host.pick() else {
        return Ok(());
    };
    out.extend_from_slice(b"goal ")?;
    put_decimal(out, goal.0)?;
    if 0 < clause.0 {
        out.extend_from_slice(b", clause ")?;
        put_decimal(out, clause.0)?;
    }
    out.extend_from_slice(b": ")?;
    match host.goal_text(goal, Extent::Cut)? {
        Some(text) => out.extend_from_slice(text.as_slice())?,
        None => out.extend_from_slice(b"a message is read")?,
    }
    out.push(b'\n')?;
    Ok(())
}

/// Does the first step, and answers how many were done. After an `Err` it isn't done.
fn run_one<H: UnbookedHost>(host: &mut H) -> Result<u64, AllocError> {
    let reply = do_one(host, &Command::Run(1))?;
    Ok(steps_in(&reply))
}

/// How many steps the reply to a run tells.
fn steps_in(reply: &Reply) -> u64 {
    match reply {
        Reply::Ran(steps) => *steps,
        _ => 0,
    }
}
