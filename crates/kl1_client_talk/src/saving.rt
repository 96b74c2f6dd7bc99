// The journal kept as a file.

use crate::caller::Caller;
use crate::connection::Connection;
use crate::fault::Fault;
use crate::listing::ask_pages;
use crate::reply_writer::ReplyWriter;
use crate::request::Page;
use crate::turn_end::TurnEnd;
use kl1_lines::{FailureCounter, Sink, Source, put_decimal};
use kl1_model::limits::MOST_LISTED;
use std::alloc::{AllocError, Global};

/// Keeps the whole journal as the file whose name is in this text, and shows how many lines it has; or a refusal.
pub(crate) fn save<S: Source, T: Sink, O: Sink, C: Caller>(
    alloc: Global,
    connection: &mut Connection<S, T>,
    shown: &mut ReplyWriter<O>,
    caller: &mut C,
    text: &[u8],
) -> Result<TurnEnd, Fault> {
    let name = text.trim_ascii();
    let bytes = Vec::new(alloc);
    let sink = FailureCounter::new(bytes);
    let mut kept = ReplyWriter::new(alloc, sink, true);
    let page = Page::Journal {
        count: MOST_LISTED as u64,
    };
    let after = ask_pages(connection, &mut kept, page, 1)?;
    kept.flush()?;
    match after {
        None => {
            let last = connection.line();
            shown.line(last)?;
            Ok(TurnEnd::GoesOn)
        }
        Some(next) => {
            let lines = kept.sink();
            keep(
                alloc,
                shown,
                caller,
                name,
                lines.inner.as_slice(),
                next.saturating_sub(1),
            )
        }
    }
}

/// Has the caller keep these bytes, of this number of lines, as the file of this name, and shows how many there are.
fn keep<O: Sink, C: Caller>(
    alloc: Global,
    shown: &mut ReplyWriter<O>,
    caller: &mut C,
    name: &[u8],
    bytes: &[u8],
    count: u64,
) -> Result<TurnEnd, Fault> {
    let is_kept = caller.save(name, bytes)?;
    if !is_kept {
        return Ok(TurnEnd::LacksFile);
    }
    let mut line = Vec::new(alloc);
    put_saved(&mut line, count)?;
    shown.line(line.as_slice())?;
    Ok(TurnEnd::GoesOn)
}

/// Puts the line that tells how many lines were kept after the bytes.
fn put_saved(out: &mut Vec<u8>, count: u64) -> Result<(), AllocError> {
    out.extend_from_slice(b"+ saved ")?;
    put_decimal(out, count)
}
