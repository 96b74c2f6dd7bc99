// A profile as a table.

use crate::columns::{put_blanks, put_right};
use crate::predicates::Predicates;
use crate::profile::Row;
use crate::texts::put_name;
use kl1_lines::put_decimal;
use kl1_user_events::{Usage, Used};
use std::alloc::{AllocError, Global};

/// The line over the columns.
const HEAD: &[u8] = b"reductions      %   new goals      waited  exceptions  predicate\n";

/// Puts the tenths of a hundredth that a count is of another as a number with one digit after the point after the bytes.
fn put_share(alloc: Global, count: u64, of: u64, out: &mut Vec<u8>) -> Result<(), AllocError> {
    // Half of what is left out is added, so that it is rounded.
    let whole = u128::from(of.max(1));
    let share = (u128::from(count) * 1_000 + whole / 2) / whole;
    let tenths = u64::try_from(share).unwrap_or(1_000);
    put_right(alloc, tenths / 10, 5, out)?;
    out.push(b'.')?;
    put_decimal(out, tenths % 10)
}

/// Puts the line of a predicate after the bytes.
fn put_row(
    alloc: Global,
    predicates: &Predicates,
    row: &Row,
    total: u64,
    out: &mut Vec<u8>,
) -> Result<(), AllocError> {
    put_right(alloc, row.counts.reductions, 10, out)?;
    put_share(alloc, row.counts.reductions, total, out)?;
    put_right(alloc, row.counts.new, 12, out)?;
    put_right(alloc, row.counts.waited, 12, out)?;
    put_right(alloc, row.counts.exceptions, 12, out)?;
    out.extend_from_slice(b"  ")?;
    put_name(predicates.calling(row.predicate), out)?;
    out.push(b'\n')?;
    Ok(())
}

/// Puts what is used of a limit after the bytes.
fn put_used(words: &[u8], used: Used, out: &mut Vec<u8>) -> Result<(), AllocError> {
    out.extend_from_slice(words)?;
    put_decimal(out, used.count)?;
    out.extend_from_slice(b" of ")?;
    put_decimal(out, used.most)
}

/// Puts a table after the bytes: a line for each predicate, and one for all steps, with the most goals that were alive after one, and what
/// the account has of its limits.
pub fn put_table(
    alloc: Global,
    predicates: &Predicates,
    rows: &[Row],
    steps: u64,
    alive: u64,
    usage: &Usage,
    out: &mut Vec<u8>,
) -> Result<(), AllocError> {
    out.extend_from_slice(HEAD)?;
    for row in rows {
        put_row(alloc, predicates, row, steps, out)?;
    }
    put_right(alloc, steps, 10, out)?;
    put_share(alloc, steps, steps, out)?;
    let begin = out.len();
    put_blanks(begin.saturating_add(36), out)?;
    let goals = Used {
        count: alive,
        most: usage.goals.most,
    };
    put_used(b"  all; goals alive at most: ", goals, out)?;
    put_used(b"; variables: ", usage.variables, out)?;
    put_used(b"; structures: ", usage.structures, out)?;
    put_used(b"; shoens: ", usage.shoens, out)?;
    put_used(b"; reports: ", usage.reports, out)?;
    out.push(b'\n')?;
    Ok(())
}
