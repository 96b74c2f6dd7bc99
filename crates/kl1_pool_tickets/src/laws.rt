// What holds of the queue of tickets between any two steps, and what each kind of step adds.

ghost use Rattle.kl1_pool_tickets.specs.Laws.{RuleAddsUp, PutCountsOne, TakeCountsOne, CutKeeps, JoinKeeps};

use crate::ticket_history::{Cut, Puts, Takes, TicketHistory, TicketRule};
use crossbeam_queue::protocol::{Join, Outcome, Protocol, Split};

/// At each moment as many tickets of each account were put as were taken and are in the queue, and who has all passes has put and taken
/// all. A put and a take count one ticket, and cutting and joining passes lose none and make none. It does nothing: its contract is this
/// law, of the rule and the steps of `Queue`.
pub fn passes_add_up()
    ensures rule { RuleAddsUp ⟦<TicketRule as Protocol<u64, TicketHistory>>⟧.holds }
    ensures put { PutCountsOne ⟦<Puts as Outcome<u64, TicketHistory>>⟧.then }
    ensures take { TakeCountsOne ⟦<Takes as Outcome<u64, TicketHistory>>⟧.then }
    ensures cut { CutKeeps ⟦<Cut as Split<TicketHistory>>⟧.left ⟦<Cut as Split<TicketHistory>>⟧.right }
    ensures join { JoinKeeps ⟦<Cut as Join<TicketHistory>>⟧.both ⟦<Cut as Join<TicketHistory>>⟧.spent }
{}
