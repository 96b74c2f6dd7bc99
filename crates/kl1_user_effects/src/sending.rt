// Messages from the console, and when they are refused.

ghost use Rattle.std.specs.Prelude.{◌≡◌, ◌<◌, ◌≤◌, MatchResult};
ghost use Rattle.kl1_model.specs.Control.{message_nodes};
ghost use Rattle.kl1_model.specs.Sending.{is_message};
ghost use Rattle.kl1_user_effects.specs.Messages.{RefusesMessage, AllowsMessage};

use crate::limits::{is_number, is_within};
use kl1_model::{Limits, Message};
use kl1_shoen::{Origin, ShoenTree};
use kl1_text::CellName;
use kl1_user_events::Refusal;

/// Whether a message has numbers in range.
fn is_message(message: Message) -> bool
    ensures { result ≡ is_message message }
{
    match message {
        Message::Stop => true,
        Message::Start => true,
        Message::Abort => true,
        Message::Allow(extra) => is_number(extra),
    }
}

/// How many structures a message has, with the cell of the stream.
pub fn nodes_of(message: Message) -> u64
    ensures value { result ≡ message_nodes message }
    ensures few { result ≤ 2 }
{
    match message {
        Message::Stop => 1,
        Message::Start => 1,
        Message::Abort => 1,
        Message::Allow(_extra) => 2,
    }
}

/// What the console keeps of shoen `number`, to which a message may be sent, if `variables`, `nodes` and `entries` are counted, of at most
/// `most`; or why the message is refused.
pub fn origin_for(
    shoens: &ShoenTree<CellName>,
    most: Limits,
    variables: u64,
    nodes: u64,
    entries: u64,
    number: u64,
    message: Message,
) -> Result<Origin<CellName>, Refusal>
    ensures { MatchResult result (AllowsMessage shoens.now.shoens (record { most = most; variables = variables; nodes = nodes; entries = entries }) number message) (RefusesMessage shoens.now.shoens (record { most = most; variables = variables; nodes = nodes; entries = entries }) number message) }
{
    if !is_number(number) {
        return Err(Refusal::Syntax);
    }
    if !is_message(message) {
        return Err(Refusal::Syntax);
    }
    let Some(origin) = shoens.origin_at(number) else {
        return Err(Refusal::NoShoen);
    };
    if !shoens.lives(number) {
        return Err(Refusal::Ended);
    }
    if most.variables <= variables {
        return Err(Refusal::Limit);
    }
    if !is_within(nodes, nodes_of(message), most.nodes) {
        return Err(Refusal::Limit);
    }
    if most.entries <= entries {
        return Err(Refusal::Journal);
    }
    Ok(origin)
}
