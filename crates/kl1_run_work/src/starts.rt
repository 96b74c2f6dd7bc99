// A goal that is started.

use crate::loads::refusal_in;
use crate::stop::Stop;
use kl1_command::UnbookedHost;
use kl1_model::limits::MOST_PRIORITY;
use kl1_term::Term;
use kl1_user_events::{Event, Refusal, Reply, ShoenNo};

/// The shoen that a reply opened, if it opened one.
fn opened_in(reply: &Reply) -> Option<ShoenNo> {
    match reply {
        Reply::Opened(shoen) => Some(*shoen),
        _ => None,
    }
}

/// Starts a goal with an allowance and all priorities, and answers the number of its shoen.
pub(crate) fn start<H: UnbookedHost>(
    host: &mut H,
    goal: Term,
    allowance: u64,
) -> Result<ShoenNo, Stop> {
    let event = Event::Start {
        allowance,
        low: 0,
        high: MOST_PRIORITY,
        goal,
    };
    match host.apply(&event) {
        Ok(reply) => match opened_in(&reply) {
            Some(shoen) => Ok(shoen),
            None => Err(Stop::Goal(refusal_in(&reply).unwrap_or(Refusal::Syntax))),
        },
        Err(_) => Err(Stop::Memory),
    }
}
