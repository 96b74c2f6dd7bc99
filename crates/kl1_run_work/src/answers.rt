// What is told of a shoen once its run is over.

use crate::asked::ask;
use crate::ending::Ending;
use crate::exceptions::{is_raised, put_exceptions};
use crate::reports::{Reported, reported_by};
use crate::wanted::Wanted;
use kl1_command::UnbookedHost;
use kl1_model::Condition;
use kl1_user_events::{Extent, Query, Reply, ShoenNo};
use std::alloc::{AllocError, Global};

/// What is told of a shoen, as lines.
#[derive(Drop)]
pub struct Answers {
    /// Its goal as started, with what is bound now.
    pub value: Vec<u8>,
    /// Its reports.
    pub reports: Vec<u8>,
    /// The exceptions among them; of those by a limit the first alone, and how many are left out.
    pub exceptions: Vec<u8>,
    /// How it stands.
    pub ending: Ending,
}

/// A shoen's goal as started, with what is bound now, cut or whole.
fn value_text<H: UnbookedHost>(
    alloc: Global,
    host: &mut H,
    shoen: ShoenNo,
    extent: Extent,
) -> Result<Vec<u8>, AllocError> {
    match host.value_text(shoen, extent)? {
        Some(text) => Ok(text),
        None => Ok(Vec::new(alloc)),
    }
}

/// Its line.
fn value_line<H: UnbookedHost>(
    alloc: Global,
    host: &mut H,
    shoen: ShoenNo,
    extent: Extent,
) -> Result<Vec<u8>, AllocError> {
    let mut line = value_text(alloc, host, shoen, extent)?;
    line.push(b'\n')?;
    Ok(line)
}

/// How a shoen of this state stands, by whether no goal can step, whether there were exceptions, and the goals alive.
fn ending_by(condition: Condition, is_quiet: bool, raised: bool, alive: u64) -> Ending {
    match condition {
        Condition::Terminated => {
            if raised {
                Ending::Raised
            } else {
                Ending::Terminated
            }
        }
        Condition::Exhausted => Ending::Exhausted,
        Condition::Aborted | Condition::Stopped | Condition::Running => {
            if !is_quiet {
                Ending::Unfinished
            } else if raised {
                Ending::Raised
            } else {
                Ending::Waits(alive)
            }
        }
    }
}

/// How a shoen stands whose state this reply tells.
fn ending_in(is_quiet: bool, raised: bool, reply: &Reply) -> Ending {
    match reply {
        Reply::Status {
            condition,
            alive,
            ..
        } => ending_by(*condition, is_quiet, raised, *alive),
        _ => Ending::Unfinished,
    }
}

/// How a shoen stands, by whether there were exceptions.
fn ending_of<H: UnbookedHost>(
    host: &mut H,
    shoen: ShoenNo,
    raised: bool,
) -> Result<Ending, AllocError> {
    let reply = ask(host, Query::Status(shoen))?;
    let is_quiet = host.pick().is_none();
    Ok(ending_in(is_quiet, raised, &reply))
}

/// What is told of a shoen, as it is wanted. Nothing changes.
pub fn answers_of<H: UnbookedHost>(
    alloc: Global,
    host: &mut H,
    shoen: ShoenNo,
    wanted: Wanted,
) -> Result<Answers, AllocError> {
    let value = value_line(alloc, host, shoen, wanted.value)?;
    let Reported {
        reports,
        exceptions,
    } = reported_by(alloc, host, shoen)?;
    let ending = ending_of(host, shoen, is_raised(exceptions.as_slice()))?;
    let mut lines = Vec::new(alloc);
    put_exceptions(exceptions.as_slice(), &mut lines)?;
    Ok(Answers {
        value,
        reports,
        exceptions: lines,
        ending,
    })
}
