// What a pool keeps for its end.

ghost use Rattle.std.specs.Prelude.{◌≡◌, ◌+◌, ◌≤◌, [], vec_capacity};
ghost use Rattle.crossbeam_queue.specs.Passes.{view};
ghost use Rattle.kl1_pool_tickets.specs.Histories.{all_parts};

use crate::ticket_history::TicketHistory;
use crate::ticket_ids::TicketIds;
use crossbeam_queue::Pass;
use kl1_tally::{BookSeat, ShareSeat};
use std::marker::PhantomData;

/// The parts of the queue that no share has, and room for the lists of all books and all seats of shares. Threads share it only
/// under a lock, since neither passes nor seats can be lent to two threads; nobody takes that lock before the end.
#[derive(Drop)]
pub struct Reserve<K: TicketIds> {
    pub(crate) pass: Pass<u64, TicketHistory>,
    pub(crate) books: Vec<BookSeat>,
    pub(crate) seats: Vec<ShareSeat>,
    pub(crate) of: PhantomData<K>,
    pub ghost of_queue: { (pass.table_id ≡ K.queue) × (pass.me.1 ≡ []) },
    pub ghost parts: { (view pass).parts + K.shares ≡ all_parts },
    pub ghost idle: { ((view pass).put ≡ []) × ((view pass).taken ≡ []) },
    pub ghost room_of_books: { (books.items ≡ []) × (K.accounts ≤ vec_capacity books) },
    pub ghost room_of_seats: { (seats.items ≡ []) × (K.shares ≤ vec_capacity seats) },
}
