// Requests, and the replies to them that are shown.

use crate::connection::Connection;
use crate::fault::Fault;
use crate::reply::{count_in, is_refusal};
use crate::reply_writer::ReplyWriter;
use crate::request::{Page, Request};
use kl1_lines::{Sink, Source};
use kl1_model::limits::MOST_LISTED;

/// Makes a request whose reply is one line, and shows it.
pub(crate) fn ask_one<S: Source, T: Sink, O: Sink>(
    connection: &mut Connection<S, T>,
    shown: &mut ReplyWriter<O>,
    request: Request<'_>,
) -> Result<(), Fault> {
    connection.ask(request)?;
    shown.line(connection.line())
}

/// Sends a line whose reply lists lines, if it is no refusal, and shows the reply.
pub(crate) fn ask_list<S: Source, T: Sink, O: Sink>(
    connection: &mut Connection<S, T>,
    shown: &mut ReplyWriter<O>,
    line: &[u8],
) -> Result<(), Fault> {
    connection.ask(Request::Line(line))?;
    show_list(connection, shown)
}

/// Shows the reply whose first line has come, and which lists lines if it is no refusal.
fn show_list<S: Source, T: Sink, O: Sink>(
    connection: &mut Connection<S, T>,
    shown: &mut ReplyWriter<O>,
) -> Result<(), Fault> {
    let first = connection.line();
    shown.line(first)?;
    if is_refusal(first) {
        return Ok(());
    }
    let Some(count) = count_in(first) else {
        return Err(Fault::Reply);
    };
    show_lines(connection, shown, count)
}

/// Takes and shows this number of lines.
fn show_lines<S: Source, T: Sink, O: Sink>(
    connection: &mut Connection<S, T>,
    shown: &mut ReplyWriter<O>,
    count: u64,
) -> Result<(), Fault> {
    for _ in 0..count {
        connection.take_line()?;
        shown.line(connection.line())?;
    }
    Ok(())
}

/// The least lines of a page after which another may follow: as many as a page has at most, and at least one.
fn least_full(page: Page) -> u64 {
    match page {
        Page::Reports { .. } => MOST_LISTED as u64,
        Page::Journal { count } => count.max(1),
    }
}

/// Asks for pages from a number on, up to the last one, and shows their lines without those that count them; or a refusal. Gives the
/// number at which the next page would begin, `None` if a page is refused.
pub(crate) fn ask_pages<S: Source, T: Sink, O: Sink>(
    connection: &mut Connection<S, T>,
    shown: &mut ReplyWriter<O>,
    page: Page,
    from: u64,
) -> Result<Option<u64>, Fault> {
    let least = least_full(page);
    let mut next = from;
    for _ in 0..u64::MAX {
        connection.ask(Request::Page(page, next))?;
        let first = connection.line();
        if is_refusal(first) {
            shown.line(first)?;
            return Ok(None);
        }
        let Some(count) = count_in(first) else {
            return Err(Fault::Reply);
        };
        let Some(after) = next.checked_add(count) else {
            return Err(Fault::Reply);
        };
        show_lines(connection, shown, count)?;
        if count < least {
            return Ok(Some(after));
        }
        next = after;
    }
    Err(Fault::Reply)
}
