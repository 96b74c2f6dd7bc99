// The rule of the queue of tickets, and what each call on it tells.

ghost use Rattle.std.specs.Prelude.{◌≡◌, ℕ, ◌+◌, ◌-◌, ◌<◌, [], ◌∷◌, ◌++◌, sum_by, ⊤};
ghost use Rattle.kl1_tally.specs.declared.amounts.TheConstants.{MOST_ACCOUNTS};
ghost use Rattle.kl1_pool_tickets.specs.Histories.{all_parts, history, Balanced, HasAll};

use crossbeam_queue::RuledArrayQueue;
use crossbeam_queue::protocol::{Join, Lesson, Outcome, Protocol, Split};
use std::collections::LinkedList;

/// What a pass of the queue knows: its parts of the right to know the whole, and the accounts whose tickets it put and took. No
/// value of it is made.
pub struct TicketHistory {
    pub parts: u64,
    pub put: LinkedList<u64>,
    pub taken: LinkedList<u64>,
}

/// The rule of the queue.
pub struct TicketRule;

impl Protocol<u64, TicketHistory> for TicketRule {
    ghost holds = { Balanced };

    ghost first = { history all_parts [] [] };
}

/// One part cut off, which put and took nothing.
pub struct Cut;

impl Split<TicketHistory> for Cut {
    ghost left = { λ v. history (v.parts - 1) v.put v.taken };

    ghost right = { λ v. history 1 [] [] };
}

impl Join<TicketHistory> for Cut {
    ghost both = { λ v w. history (v.parts + w.parts) (v.put ++ w.put) (v.taken ++ w.taken) };

    ghost spent = { history 0 [] [] };
}

/// A ticket is put.
pub struct Puts;

impl Outcome<u64, TicketHistory> for Puts {
    ghost then = { λ v x w. w ≡ history v.parts (v.put ++ x ∷ []) v.taken };
}

impl Lesson<u64, TicketHistory> for Puts {
    ghost fact = { λ v items. ⊤ };
}

/// A ticket is taken; a pass with all parts learns what the queue holds.
pub struct Takes;

impl Outcome<u64, TicketHistory> for Takes {
    ghost then = { λ v x w. (w ≡ history v.parts v.put (v.taken ++ x ∷ [])) × (x < MOST_ACCOUNTS) × HasAll w };
}

impl Lesson<u64, TicketHistory> for Takes {
    ghost fact = { λ v items. v.parts ≡ all_parts → (h : ℕ → ℕ) → sum_by h v.put ≡ sum_by h v.taken + sum_by h items };
}

/// The queue of tickets: accounts' numbers, the first in it the first out.
pub type Queue = RuledArrayQueue<u64, TicketHistory, TicketRule>;
