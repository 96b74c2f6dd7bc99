// The checks by their names.

use crate::report::{Text, put_check};
use crate::tally::sums::{come_to_the_numbers, threads_come_to_the_sums};
use crate::tally::tells::threads_count_all;
use kl1_tally::MOST_ACCOUNTS;
use std::rt::Clock;
use std::thread::Threads;

/// Puts a line on each check after a report.
pub fn put_checks<R: Threads + Clock + Sync>(rt: &R, out: &mut Text) {
    let alloc = out.alloc;
    let done = threads_come_to_the_sums(rt, alloc);
    put_check(
        out,
        b"tally two_threads_over_three_accounts_come_to_the_sums",
        done,
    );
    let done = come_to_the_numbers(alloc, 1);
    put_check(
        out,
        b"tally one_account_comes_to_what_one_share_counted",
        done,
    );
    let done = come_to_the_numbers(alloc, MOST_ACCOUNTS);
    put_check(
        out,
        b"tally 32_accounts_come_to_what_one_share_counted",
        done,
    );
    let done = threads_count_all(rt, alloc);
    put_check(
        out,
        b"tally 1_2_and_4_threads_count_all_of_1000_events_each",
        done,
    );
}
