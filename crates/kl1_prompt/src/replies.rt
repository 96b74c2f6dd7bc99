// What is told of replies.

use crate::tables::put_state;
use kl1_lines::put_decimal;
use kl1_run_work::words_of;
use kl1_user_events::{Refusal, Reply};
use std::alloc::AllocError;

/// Puts what is told of a reply after the bytes of answers, or those of faults if it is a refusal.
pub fn put_answer(
    reply: &Reply,
    answers: &mut Vec<u8>,
    faults: &mut Vec<u8>,
) -> Result<(), AllocError> {
    match reply {
        Reply::Refused(refusal) => put_refusal(*refusal, faults),
        Reply::Loaded(name) => {
            answers.extend_from_slice(b"loaded ")?;
            put_line(name.printed_as_atom().as_slice(), answers)
        }
        Reply::Opened(shoen) => put_number(b"shoen ", shoen.0, answers),
        Reply::Ran(steps) => put_number(b"steps: ", *steps, answers),
        Reply::Sent => put_line(b"sent", answers),
        Reply::Reduced => put_line(b"reduced", answers),
        Reply::Shown(text) => put_line(text.as_slice(), answers),
        Reply::Status {
            condition,
            charged,
            allowance,
            alive,
        } => put_state(*condition, *charged, *allowance, *alive, answers),
        Reply::Listed(texts) => {
            for text in texts.texts() {
                put_line(text.as_slice(), answers)?;
            }
            Ok(())
        }
        Reply::Quiet(true) => put_line(b"yes", answers),
        Reply::Quiet(false) => put_line(b"no", answers),
        Reply::Welcome(_name) => put_line(b"welcome", answers),
        Reply::Bye => put_line(b"bye", answers),
        Reply::Reset => put_line(b"reset", answers),
        Reply::Forgotten => put_line(b"forgotten", answers),
    }
}

/// Puts the line of a refusal after the bytes.
fn put_refusal(refusal: Refusal, faults: &mut Vec<u8>) -> Result<(), AllocError> {
    faults.extend_from_slice(b"kl1_run: ")?;
    let words: &[u8] = match refusal {
        Refusal::Syntax => b"a number or the goal is too large",
        Refusal::Source { .. }
        | Refusal::Exists
        | Refusal::NoShoen
        | Refusal::Ended
        | Refusal::Step
        | Refusal::Names
        | Refusal::Limit
        | Refusal::Journal
        | Refusal::Sessions
        | Refusal::Answer => words_of(refusal),
    };
    put_line(words, faults)?;
    match hint_of(refusal) {
        Some(hint) => {
            faults.extend_from_slice(b"    hint: ")?;
            put_line(hint, faults)
        }
        None => Ok(()),
    }
}

/// What may help after a refusal.
fn hint_of(refusal: Refusal) -> Option<&'static [u8]> {
    match refusal {
        Refusal::Exists => Some(b":reload loads all files anew"),
        Refusal::NoShoen => Some(b":shoens tells which there are"),
        Refusal::Ended => Some(b"start another goal"),
        Refusal::Names | Refusal::Limit => Some(b":reload begins the account anew"),
        Refusal::Answer => Some(b":reports S tells the reports of shoen S, counted from 1"),
        Refusal::Journal => Some(b":reload begins the account and its journal anew"),
        Refusal::Syntax | Refusal::Source { .. } | Refusal::Step | Refusal::Sessions => None,
    }
}

/// Puts a line after the bytes.
fn put_line(line: &[u8], out: &mut Vec<u8>) -> Result<(), AllocError> {
    out.extend_from_slice(line)?;
    out.push(b'\n')?;
    Ok(())
}

/// Puts a line that ends with a number after the bytes.
fn put_number(words: &[u8], number: u64, out: &mut Vec<u8>) -> Result<(), AllocError> {
    out.extend_from_slice(words)?;
    put_decimal(out, number)?;
    out.push(b'\n')?;
    Ok(())
}
