// The checks by their names.

use crate::report::{Text, put_check};
use crate::tickets::threads::{left, worked};
use kl1_pool_tickets::Totals;
use kl1_tally::MOST_ACCOUNTS;
use std::rt::Clock;
use std::sync::Wait;
use std::thread::Threads;

/// Whether accounts 0 and 1 have these numbers of steps, all of them events, tickets put and taken, and tickets left, and all others
/// have none.
fn are(told: &Totals, steps: u64, puts: u128, takes: u128, left: u128) -> bool {
    for account in 0..MOST_ACCOUNTS {
        let here = account < 2;
        let wanted = if here {
            (steps, puts, takes, left)
        } else {
            (0, 0, 0, 0)
        };
        if told.events[account] != wanted.0
            || told.steps[account] != wanted.0
            || told.puts[account] != wanted.1
            || told.takes[account] != wanted.2
            || told.left[account] != wanted.3
        {
            return false;
        }
    }
    true
}

/// Puts a line on each check after a report.
pub fn put_checks<R: Threads + Wait + Clock + Sync>(rt: &R, out: &mut Text) {
    let worked = worked(rt, out.alloc);
    let met = match &worked {
        Ok((_, met)) => *met,
        Err(_) => false,
    };
    put_check(out, b"tickets two_workers_do_turns_at_once", Ok(met));
    let done = match &worked {
        Ok((told, _)) => are(told, 200, 200, 200, 0),
        Err(_) => false,
    };
    put_check(
        out,
        b"tickets two_workers_do_200_steps_of_each_of_two_accounts_and_sleep_between",
        Ok(done),
    );
    let done = match left(rt, out.alloc) {
        Ok((told, put)) => put && are(&told, 0, 1, 0, 1),
        Err(_) => false,
    };
    put_check(
        out,
        b"tickets a_queue_for_two_accounts_takes_two_tickets_and_both_are_left",
        Ok(done),
    );
}
