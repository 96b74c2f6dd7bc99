// What is new of a shoen.

use crate::asked::ask;
use kl1_command::UnbookedHost;
use kl1_lines::put_decimal;
use kl1_model::Condition;
use kl1_model::limits::MOST_LISTED;
use kl1_user_events::{Query, Reply, ShoenNo};
use std::alloc::AllocError;

/// The most pages of reports that are looked at for one line.
const MOST_PAGES: u64 = 64;

/// The most exceptions that are told for one line.
const MOST_EXCEPTIONS: u64 = 8;

/// How the report of an exception begins.
const EXCEPTION: &[u8] = b"exception(";

/// A shoen that the console started, and what was told of it.
#[derive(Drop)]
pub struct News {
    pub shoen: ShoenNo,
    /// How many of its reports were looked at.
    pub told: u64,
    /// Whether all reports are told, and not exceptions alone.
    pub has_reports: bool,
}

/// How a shoen stands after a line.
#[derive(Clone, Copy)]
pub enum Stand {
    /// It has ended.
    Ended,
    /// It lives, and no goal of the account can step.
    Still,
    /// It lives, and goals can step.
    GoesOn,
}

/// Puts what is new of a shoen after the bytes: its exceptions, or all its reports, and its state. Answers how it stands.
pub fn put_news<H: UnbookedHost>(
    host: &mut H,
    news: &mut News,
    out: &mut Vec<u8>,
) -> Result<Stand, AllocError> {
    put_reports(host, news, out)?;
    let is_still = host.pick().is_none();
    let reply = ask(host, Query::Status(news.shoen))?;
    put_status(&reply, news.shoen, is_still, out)
}

/// How many exceptions more are told, and how many were left out.
#[derive(Drop)]
struct Quota {
    room: u64,
    left: u64,
}

/// Puts the reports that are new after the bytes, as far as they are told.
fn put_reports<H: UnbookedHost>(
    host: &mut H,
    news: &mut News,
    out: &mut Vec<u8>,
) -> Result<(), AllocError> {
    let mut quota = Quota {
        room: MOST_EXCEPTIONS,
        left: 0,
    };
    for _ in 0..MOST_PAGES {
        let query = Query::Reports {
            shoen: news.shoen,
            from: news.told.saturating_add(1),
        };
        let reply = ask(host, query)?;
        let is_full = put_page(&reply, news, &mut quota, out)?;
        if !is_full {
            return put_left(quota.left, out);
        }
    }
    put_left(quota.left, out)
}

/// Puts the reports of a page after the bytes, as far as they are told. Answers whether the page is full.
fn put_page(
    reply: &Reply,
    news: &mut News,
    quota: &mut Quota,
    out: &mut Vec<u8>,
) -> Result<bool, AllocError> {
    let Reply::Listed(listed) = reply else {
        return Ok(false);
    };
    for text in listed.texts() {
        news.told = news.told.saturating_add(1);
        put_report(text.as_slice(), news, quota, out)?;
    }
    Ok(listed.len() == MOST_LISTED)
}

/// Puts a report after the bytes, if it is told: an exception with its number and how it can be answered.
fn put_report(
    text: &[u8],
    news: &News,
    quota: &mut Quota,
    out: &mut Vec<u8>,
) -> Result<(), AllocError> {
    if !text.starts_with(EXCEPTION) {
        if news.has_reports {
            out.extend_from_slice(text)?;
            out.push(b'\n')?;
        }
        return Ok(());
    }
    if quota.room == 0 {
        quota.left = quota.left.saturating_add(1);
        return Ok(());
    }
    quota.room = quota.room.saturating_sub(1);
    out.extend_from_slice(text)?;
    out.extend_from_slice(b"\n    hint: :answer ")?;
    put_decimal(out, news.shoen.0)?;
    out.push(b' ')?;
    put_decimal(out, news.told)?;
    out.extend_from_slice(b" GOAL puts GOAL in its place\n")
}

/// Puts how many exceptions were left out after the bytes, if any were.
fn put_left(left: u64, out: &mut Vec<u8>) -> Result<(), AllocError> {
    if left == 0 {
        return Ok(());
    }
    out.extend_from_slice(b"exceptions that are left out here: ")?;
    put_decimal(out, left)?;
    out.push(b'\n')?;
    Ok(())
}

/// Puts the state of a shoen after the bytes, and answers how it stands.
fn put_status(
    reply: &Reply,
    shoen: ShoenNo,
    is_still: bool,
    out: &mut Vec<u8>,
) -> Result<Stand, AllocError> {
    let Reply::Status {
        condition,
        charged,
        alive,
        ..
    } = reply
    else {
        return Ok(Stand::Ended);
    };
    let stand = stand_of(*condition, is_still);
    out.extend_from_slice(b"shoen ")?;
    put_decimal(out, shoen.0)?;
    out.extend_from_slice(words_of(*condition, stand))?;
    out.extend_from_slice(b", reductions: ")?;
    put_decimal(out, *charged)?;
    if !matches!(stand, Stand::Ended) {
        out.extend_from_slice(b", goals alive: ")?;
        put_decimal(out, *alive)?;
    }
    out.push(b'\n')?;
    put_way(*condition, stand, shoen, out)?;
    Ok(stand)
}

/// How a shoen of this state stands, by whether no goal can step.
fn stand_of(condition: Condition, is_still: bool) -> Stand {
    match condition {
        Condition::Terminated | Condition::Aborted => Stand::Ended,
        Condition::Stopped | Condition::Exhausted | Condition::Running => {
            if is_still {
                Stand::Still
            } else {
                Stand::GoesOn
            }
        }
    }
}

/// What is told of a shoen that stands so.
fn words_of(condition: Condition, stand: Stand) -> &'static [u8] {
    match (condition, stand) {
        (Condition::Terminated, _) => b" terminated",
        (Condition::Aborted, _) => b" is aborted",
        (Condition::Stopped, _) => b" is stopped",
        (Condition::Exhausted, _) => b" is exhausted",
        (Condition::Running, Stand::GoesOn) => b" goes on",
        (Condition::Running, Stand::Still | Stand::Ended) => b" waits",
    }
}

/// Puts how a shoen can go on after the bytes, if it is known.
fn put_way(
    condition: Condition,
    stand: Stand,
    shoen: ShoenNo,
    out: &mut Vec<u8>,
) -> Result<(), AllocError> {
    match (condition, stand) {
        (Condition::Stopped, _) => put_hint(b":resume ", shoen, b" lets it go on\n", out),
        (Condition::Exhausted, _) => put_hint(
            b":allow ",
            shoen,
            b" N gives it N reductions more\n",
            out,
        ),
        (Condition::Running, Stand::GoesOn) => {
            out.extend_from_slice(b"    hint: :step does more steps\n")
        }
        _ => Ok(()),
    }
}

/// Puts a hint that names a shoen after the bytes.
fn put_hint(front: &[u8], shoen: ShoenNo, end: &[u8], out: &mut Vec<u8>) -> Result<(), AllocError> {
    out.extend_from_slice(b"    hint: ")?;
    out.extend_from_slice(front)?;
    put_decimal(out, shoen.0)?;
    out.extend_from_slice(end)
}
