// What is told of a shoen's exceptions.

use crate::reports::put_line;
use kl1_lines::put_decimal;
use std::alloc::AllocError;

/// The most exceptions by a limit that are told: a run that comes to a limit can raise very many of them.
const MOST_BY_LIMIT: usize = 3;

/// Whether a report tells an exception.
pub(crate) fn is_exception(report: &[u8]) -> bool {
    report.starts_with(b"exception(")
}

/// Whether a report tells the exception of a goal by which a limit would be passed.
fn is_by_limit(report: &[u8]) -> bool {
    report.starts_with(b"exception(exhaustion,")
}

/// Whether there is an exception.
pub(crate) fn is_raised(exceptions: &[Vec<u8>]) -> bool {
    match exceptions {
        [] => false,
        [_first, ..] => true,
    }
}

/// How many exceptions are left out.
fn left_out(exceptions: &[Vec<u8>]) -> usize {
    let mut count: usize = 0;
    for exception in exceptions {
        if is_by_limit(exception.as_slice()) {
            count = count.saturating_add(1);
        }
    }
    count.saturating_sub(MOST_BY_LIMIT)
}

/// Puts the lines of the exceptions that aren't left out after the bytes. After an `Err` some of them may be there.
fn put_told(exceptions: &[Vec<u8>], out: &mut Vec<u8>) -> Result<(), AllocError> {
    let mut room = MOST_BY_LIMIT;
    for exception in exceptions {
        let text = exception.as_slice();
        if !is_by_limit(text) {
            put_line(out, text)?;
        } else if 0 < room {
            put_line(out, text)?;
            room -= 1;
        }
    }
    Ok(())
}

/// Puts the line that tells how many exceptions are left out after the bytes. After an `Err` some of it may be there.
fn put_count(count: usize, out: &mut Vec<u8>) -> Result<(), AllocError> {
    out.extend_from_slice(b"kl1_run: exceptions by a limit that are left out here: ")?;
    put_decimal(out, count as u64)?;
    out.extend_from_slice(b"\n")?;
    Ok(())
}

/// Puts that line, if any exception is left out. After an `Err` some of it may be there.
fn put_left(count: usize, out: &mut Vec<u8>) -> Result<(), AllocError> {
    if 0 < count {
        put_count(count, out)
    } else {
        Ok(())
    }
}

/// Puts what is told of exceptions after the bytes: all of them, but of those by a limit the first alone, and how many are left out.
/// After an `Err` some of it may be there.
pub(crate) fn put_exceptions(exceptions: &[Vec<u8>], out: &mut Vec<u8>) -> Result<(), AllocError> {
    put_told(exceptions, out)?;
    put_left(left_out(exceptions), out)
}
