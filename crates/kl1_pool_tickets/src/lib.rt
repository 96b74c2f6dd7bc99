//! Tickets of accounts in a queue that threads share, what each thread counted, put and took, and what all of it adds up to.
#![tactic(auto)]

mod event_count;
mod gathering;
mod laws;
mod parts;
mod pool_shared;
mod reserve;
mod serving;
mod share;
mod ticket_history;
mod ticket_ids;
mod totals;

pub use gathering::{Booked, gather};
pub use laws::passes_add_up;
pub use parts::{Opened, Parts};
pub use pool_shared::PoolShared;
pub use reserve::Reserve;
pub use serving::{Accounts, MOST_STEPS, TimeSlice, worker};
pub use share::{MOST_TICKETS, Share};
pub use ticket_history::{Cut, Puts, Queue, Takes, TicketHistory, TicketRule};
pub use ticket_ids::TicketIds;
pub use totals::Totals;
