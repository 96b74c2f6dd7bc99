// The journal of an account, written page by page.

ghost use Rattle.std.specs.Prelude.{◌<◌};

use crate::reports::{PAGE, put_line};
use crate::stop::Stop;
use kl1_command::Host;
use kl1_lines::{Sink, finish};
use std::alloc::{AllocError, Global};

/// The most pages of a journal: more lines have no number.
const MOST_PAGES: u64 = u64::MAX / PAGE;

/// Lines of a journal.
#[derive(Drop)]
struct Page {
    /// The lines, each with its line feed.
    lines: Vec<u8>,
    /// Whether no line comes after them.
    is_last: bool,
}

/// Puts lines after the bytes. After an `Err` some of them may be there.
fn put_lines(lines: &[Vec<u8>], out: &mut Vec<u8>) -> Result<(), AllocError> {
    for line in lines {
        put_line(out, line.as_slice())?;
    }
    Ok(())
}

/// The lines of the journal after the first `done`, at most 64.
fn page_after<H: Host>(alloc: Global, host: &H, done: u64) -> Result<Page, AllocError>
    requires { done < 18446744073709551615 }
{
    let listed = host.journal(done + 1, PAGE)?;
    let mut lines = Vec::new(alloc);
    put_lines(listed.texts(), &mut lines)?;
    Ok(Page {
        lines,
        is_last: (listed.len() as u64) < PAGE,
    })
}

/// Writes the lines of the host's journal, 64 at a time. If memory is refused, the first of them are written, and if a write fails,
/// those of their bytes that stand before some place.
pub fn put_journal<H: Host, W: Sink>(alloc: Global, host: &H, out: &mut W) -> Result<(), Stop> {
    for page in 0..MOST_PAGES {
        let Ok(Page { lines, is_last }) = page_after(alloc, host, PAGE * page) else {
            return Err(Stop::Memory);
        };
        if finish(out, lines.as_slice()).is_err() {
            return Err(Stop::Write);
        }
        if is_last {
            return Ok(());
        }
    }
    // No memory holds as many lines.
    Err(Stop::Memory)
}
