//! Books of what accounts did, and shares of it in the threads that did it, which always add up to the books.
#![tactic(auto)]

mod amounts;
mod book_seat;
mod law;
mod laws;
mod settling;
mod share_seat;
mod tally;
mod view;

pub use amounts::{Amounts, MOST_ACCOUNTS};
pub use book_seat::BookSeat;
pub use law::{Enter, Joined, Law, Parted, RaiseEvent, RaiseStep, Sizes};
pub use laws::seats_add_up;
pub use share_seat::ShareSeat;
pub use tally::Tally;
pub use view::{Mark, View};
