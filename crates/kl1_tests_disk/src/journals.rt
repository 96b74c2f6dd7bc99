// Checks of the journals of a host over files in memory: what waits, who writes, and replies that wait for it.

mod failing;
mod growing;
mod opened;
mod shelf;
mod waiting;

use crate::journals::failing::{
    failed_file_stops_its_account_alone, no_reply_comes_before_its_lines,
};
use crate::journals::opened::{
    fault_is_told_or_repaired, file_without_bytes_begins_an_account,
    file_without_sums_is_written_again, same_text_is_not_written_again, torn_line_is_cut,
};
use crate::journals::waiting::{
    reply_waits_for_its_lines, reset_begins_the_file_anew, writer_waits_for_the_scribe,
};
use crate::report::Report;
use std::alloc::Global;
use std::sync::Wait;
use std::thread::Threads;
use std::time::Clock;

/// Puts the lines on files when a host starts.
fn put_starts(report: &mut Report, alloc: Global) {
    report.put(
        b"file_without_bytes_begins_an_account",
        file_without_bytes_begins_an_account(alloc),
    );
    report.put(b"torn_line_is_cut", torn_line_is_cut(alloc));
    report.put(
        b"fault_is_told_or_repaired",
        fault_is_told_or_repaired(alloc),
    );
    report.put(
        b"file_without_sums_is_written_again",
        file_without_sums_is_written_again(alloc),
    );
    report.put(
        b"same_text_is_not_written_again",
        same_text_is_not_written_again(alloc),
    );
}

/// Puts the line on each check.
pub(crate) fn put_checks<R: Threads + Wait + Clock + Sync>(
    report: &mut Report,
    rt: &R,
    alloc: Global,
) {
    put_starts(report, alloc);
    report.put(
        b"reply_waits_for_its_lines",
        reply_waits_for_its_lines(rt, alloc),
    );
    report.put(
        b"reset_begins_the_file_anew",
        reset_begins_the_file_anew(rt, alloc),
    );
    report.put(
        b"no_reply_comes_before_its_lines_if_a_file_fails",
        no_reply_comes_before_its_lines(rt, alloc),
    );
    report.put(
        b"failed_file_stops_its_account_alone",
        failed_file_stops_its_account_alone(rt, alloc),
    );
    report.put(
        b"writer_waits_for_the_scribe",
        writer_waits_for_the_scribe(rt, alloc),
    );
}
