// The checks by their names.

ghost use Rattle.std.specs.Prelude.{◌≤◌, length};
ghost use Rattle.kl1_model.specs.declared.limits.TheConstants.{MOST_NAMES};

use crate::atoms::agreement::{agree_in, agree_on_one_bucket, agree_on_what_one_knows};
use crate::atoms::names::names;
use crate::atoms::sources::{
    a_full_plain_seat_finds, a_full_seat_finds, own_entries_are_counted, plain_seats_share,
    seats_share,
};
use crate::atoms::tells::threads_find_the_same;
use crate::report::{Text, put_check};
use kl1_model::limits::{MOST_ACCOUNTS, MOST_NAMES, MOST_NAMES_BEFORE};
use kl1_text::AtomText;
use std::rt::Clock;
use std::thread::Threads;

/// Puts a line on each check after a report.
pub fn put_checks<R: Threads + Clock + Sync>(rt: &R, out: &mut Text) {
    match names(out.alloc, MOST_NAMES as u32) {
        Ok(names) => put_each(rt, out, names.as_slice()),
        Err(_refused) => out.fail(),
    }
}

/// Puts a line on each check; full seats look these names up.
fn put_each<R: Threads + Clock + Sync>(rt: &R, out: &mut Text, names: &[AtomText])
    requires { length names.now ≤ MOST_NAMES }
{
    let alloc = out.alloc;
    let done = agree_in(rt, alloc, 2);
    put_check(
        out,
        b"atoms two_threads_and_the_seats_of_2_accounts_agree",
        done,
    );
    let done = agree_in(rt, alloc, MOST_ACCOUNTS);
    put_check(
        out,
        b"atoms two_threads_and_the_seats_of_32_accounts_agree",
        done,
    );
    let done = agree_on_one_bucket(rt, alloc);
    put_check(out, b"atoms two_threads_agree_on_names_of_one_bucket", done);
    let done = agree_on_what_one_knows(alloc);
    put_check(
        out,
        b"atoms seats_agree_on_what_one_knows_and_on_nothing_else",
        done,
    );
    let done = plain_seats_share(alloc);
    put_check(out, b"atoms seats_of_a_plain_table_share_its_numbers", done);
    let done = seats_share(alloc);
    put_check(
        out,
        b"atoms seats_of_a_shared_table_share_its_numbers",
        done,
    );
    let done = own_entries_are_counted(alloc);
    put_check(
        out,
        b"atoms seats_of_a_shared_table_count_the_entries_that_they_published",
        done,
    );
    let done = a_full_plain_seat_finds(alloc, names);
    put_check(
        out,
        b"atoms a_full_seat_of_a_plain_table_still_finds_its_names",
        done,
    );
    let done = a_full_seat_finds(alloc, &names[..names.len().min(MOST_NAMES_BEFORE)]);
    put_check(
        out,
        b"atoms the_full_seat_of_one_account_still_finds_its_names",
        done,
    );
    let done = threads_find_the_same(rt, alloc);
    put_check(
        out,
        b"atoms 1_2_and_4_threads_find_each_of_500_names_by_one_number",
        done,
    );
}
