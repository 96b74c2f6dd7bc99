// What is read from the bytes of a file.

ghost use Rattle.std.specs.Prelude.{◌≡◌, ◌<◌, ◌≤◌, ◌+◌, length, take, true, false, None, is_some, IfOk, IsNone, IfSome};
ghost use Rattle.kl1_model_server.specs.JournalText.{journal_of, journal_in};
ghost use Rattle.kl1_log.specs.Cuts.{whole_lines, whole_text, opening_of, IsFound, IsFoundIn};

use kl1_journal_entries::{Journal, heading_of, next_line};
use kl1_sums::{is_spoilt, plain_text};
use std::alloc::{AllocError, Global};

/// What is found in the bytes of a file.
#[derive(Drop)]
pub enum Found {
    /// The journal of the whole lines, and how many bytes these are.
    Whole { journal: Journal, bytes: usize },
    /// The first line, the first of all being 1, with which the lines are no journal, and the journal of those before it.
    Fault { line: u64, before: Journal },
    /// The heading or a name is at fault, or missing.
    Unopened,
}

/// How many bytes the whole lines of a text are.
#[tactic(auto, using(crate::proofs::Faults::whole_count))]
pub(crate) fn count_whole(text: &[u8]) -> usize
    ensures count { result ≡ length (whole_text text.now) }
    ensures front { take result text.now ≡ whole_text text.now }
    ensures within { result ≤ length text.now }
{
    let mut rest = text;
    while let Some((_, after)) = next_line(rest) {
        rest = after;
    }
    text.len() - rest.len()
}

/// How many whole lines a text has.
#[tactic(auto, using(crate::proofs::Faults::lines_within))]
fn count_lines(text: &[u8]) -> u64
    ensures { result ≡ length (whole_lines text.now) }
{
    let mut rest = text;
    let mut count = 0;
    while let Some((_, after)) = next_line(rest) {
        rest = after;
        count += 1;
    }
    count
}

/// What is found in the bytes of a file. What is after the last line feed is no line, whatever it is; but if it is a line with its sum and one
/// byte more, that byte was a line feed, and the line is at fault.
#[tactic(auto, using(crate::proofs::Faults::plain_read_as, crate::proofs::Faults::plain_none, crate::proofs::Faults::plain_found, crate::proofs::Faults::spoilt_is, crate::proofs::Faults::spoilt_room))]
pub fn recover(alloc: Global, text: &[u8]) -> Result<Found, AllocError>
    ensures { IfOk result (λ found. IsFound text.now found) }
{
    let bytes = count_whole(text);
    let plain = plain_text(alloc, &text[..bytes])?;
    let Some(journal) = Journal::read(alloc, &plain)? else {
        return fault_in(alloc, &plain);
    };
    if is_spoilt(text) {
        return Ok(Found::Fault {
            line: count_lines(text) + 1,
            before: journal,
        });
    }
    Ok(Found::Whole { journal, bytes })
}

/// The first `lines` whole lines of a text, or all of them if there are fewer.
#[tactic(auto, using(crate::proofs::Faults::split_begins, crate::proofs::Faults::split_goes_on, crate::proofs::Faults::front_whole, crate::proofs::Faults::front_short))]
fn front(text: &[u8], lines: u64) -> &[u8]
    ensures { journal_in result.now ≡ journal_of (take lines (whole_lines text.now)) }
{
    let mut rest = text;
    let mut count = 0;
    while count < lines {
        let Some((_, after)) = next_line(rest) else {
            return &text[..text.len() - rest.len()];
        };
        rest = after;
        count += 1;
    }
    &text[..text.len() - rest.len()]
}

/// How many lines of a text are its heading and its names, as the heading tells; `None` if there is no heading.
#[tactic(auto, using(crate::proofs::Faults::opening_is, crate::proofs::Faults::no_heading, crate::proofs::Faults::no_lines))]
fn count_opening(text: &[u8]) -> Option<u64>
    ensures none { IsNone result → opening_of (whole_lines text.now) ≡ None }
    ensures some { IfSome result (λ n. opening_of (whole_lines text.now) ≡ journal_of (take n (whole_lines text.now))) }
{
    let (line, _) = next_line(text)?;
    let heading = heading_of(line)?;
    Some(heading.names + 1)
}

/// The number of lines before a fault, if the first `low` lines of a text are a journal and the first `high` aren't.
fn count_good(alloc: Global, text: &[u8], low: u64, high: u64) -> Result<u64, AllocError>
    requires low { is_some (journal_of (take low (whole_lines text.now))) ≡ true }
    requires high { is_some (journal_of (take high (whole_lines text.now))) ≡ false }
    requires order { low < high }
    ensures good { IfOk result (λ n. is_some (journal_of (take n (whole_lines text.now))) ≡ true) }
    ensures bad { IfOk result (λ n. is_some (journal_of (take (n + 1) (whole_lines text.now))) ≡ false) }
    ensures few { IfOk result (λ n. n < high) }
{
    let mut good = low;
    let mut bad = high;
    while 1 < bad - good {
        let middle = good + (bad - good) / 2;
        if Journal::read(alloc, front(text, middle))?.is_some() {
            good = middle;
        } else {
            bad = middle;
        }
    }
    Ok(good)
}

/// Where the fault of a text is whose whole lines are no journal: between two lines of which the first ends a journal, which is found by
/// halves.
#[tactic(auto, using(crate::proofs::Faults::all_none, crate::proofs::Faults::none_is))]
fn fault_in(alloc: Global, text: &[u8]) -> Result<Found, AllocError>
    requires { journal_of (whole_lines text.now) ≡ None }
    ensures { IfOk result (λ found. IsFoundIn (whole_lines text.now) found) }
{
    let Some(opening) = count_opening(text) else {
        return Ok(Found::Unopened);
    };
    let Some(_) = Journal::read(alloc, front(text, opening))? else {
        return Ok(Found::Unopened);
    };
    // There are no more lines than bytes.
    let all = text.len() as u64;
    if opening >= all {
        return Ok(Found::Unopened);
    }
    let good = count_good(alloc, text, opening, all)?;
    match Journal::read(alloc, front(text, good))? {
        Some(before) => Ok(Found::Fault {
            line: good + 1,
            before,
        }),
        None => Ok(Found::Unopened),
    }
}
