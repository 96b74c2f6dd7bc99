// What a pool tells of each account at its end.

use kl1_tally::MOST_ACCOUNTS;

/// Events and steps of each account, how many of its tickets were put and taken, and how many are left in the queue; all at the
/// account's number.
#[derive(Clone, Copy)]
pub struct Totals {
    pub events: [u64; MOST_ACCOUNTS],
    pub steps: [u64; MOST_ACCOUNTS],
    pub puts: [u128; MOST_ACCOUNTS],
    pub takes: [u128; MOST_ACCOUNTS],
    pub left: [u128; MOST_ACCOUNTS],
}
