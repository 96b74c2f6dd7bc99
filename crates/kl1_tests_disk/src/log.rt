// Checks of a journal's file: cut at each byte, with a bit turned, over a file in memory that fails at each call and each byte, and in a
// folder of the system.

mod crashed;
mod cut;
mod folder;
mod turned;

use crate::log::crashed::no_acknowledged_line_is_lost;
use crate::log::cut::cut_at_each_byte_leaves_the_whole_lines;
use crate::log::folder::{
    file_cut_at_each_byte_goes_on, folder_without_files_stops_a_file, missing_folder_is_told,
    refused_bytes_stop_a_file,
};
use crate::log::turned::{moved_line_is_told, turned_bit_is_told_with_its_line};
use crate::report::Report;
use std::alloc::Global;
use std::io;
use std::rt::Files;
use std::time::Clock;

/// Puts the line on a check of files in a folder.
fn put_file_check(report: &mut Report, name: &[u8], done: io::Result<bool>) {
    report.put(name, Ok(matches!(done, Ok(true))));
}

/// Puts the lines on files in a folder.
fn put_file_checks<R: Files + Clock>(report: &mut Report, rt: &R, alloc: Global) {
    put_file_check(
        report,
        b"file_that_is_cut_at_each_byte_is_restored_and_goes_on",
        file_cut_at_each_byte_goes_on(rt, alloc),
    );
    put_file_check(
        report,
        b"refused_bytes_stop_a_file",
        refused_bytes_stop_a_file(rt, alloc),
    );
    put_file_check(
        report,
        b"folder_in_which_no_file_can_be_made_stops_a_file",
        folder_without_files_stops_a_file(rt, alloc),
    );
    put_file_check(
        report,
        b"missing_folder_is_told",
        missing_folder_is_told(rt, alloc),
    );
}

/// Puts the line on each check.
pub(crate) fn put_checks<R: Files + Clock>(report: &mut Report, rt: &R, alloc: Global) {
    report.put(
        b"journal_cut_at_each_byte_leaves_the_whole_lines",
        cut_at_each_byte_leaves_the_whole_lines(alloc),
    );
    report.put(
        b"turned_bit_is_told_with_its_line",
        turned_bit_is_told_with_its_line(alloc),
    );
    report.put(
        b"line_that_is_exchanged_or_left_out_is_told",
        moved_line_is_told(alloc),
    );
    report.put(
        b"file_that_fails_at_each_byte_loses_no_acknowledged_line",
        no_acknowledged_line_is_lost(alloc),
    );
    put_file_checks(report, rt, alloc);
}
