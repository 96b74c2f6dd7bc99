// What is told of a source that is refused.

use kl1_lines::put_decimal;
use kl1_user_events::Refusal;
use std::alloc::AllocError;

/// The line, from 1, on which a source that is refused is bad.
fn line_of(refusal: Refusal) -> u64 {
    match refusal {
        Refusal::Source { line } => line,
        _ => 1,
    }
}

/// Why a source or a goal is refused, in words.
pub fn words_of(refusal: Refusal) -> &'static [u8] {
    match refusal {
        Refusal::Source { line: _line } => b"bad item",
        Refusal::Syntax => b"too long",
        Refusal::Exists => b"a module of this name is loaded",
        Refusal::NoShoen => b"no such shoen",
        Refusal::Ended => b"the shoen has ended",
        Refusal::Step => b"no such step",
        Refusal::Names => b"too many names",
        Refusal::Limit => b"a limit would be passed",
        Refusal::Journal => b"the journal is full",
        Refusal::Sessions => b"no session more or fewer",
        Refusal::Answer => b"no such exception to answer",
    }
}

/// Puts the line that tells why the source of a file is refused after the bytes. After an `Err` they are as they were.
pub fn put_fault(out: &mut Vec<u8>, name: &[u8], refusal: Refusal) -> Result<(), AllocError> {
    let before = out.len();
    match put_each(out, name, refusal) {
        Ok(()) => Ok(()),
        Err(error) => {
            out.truncate(before);
            Err(error)
        }
    }
}

/// Puts the parts of that line after the bytes. After an `Err` some of them may be there.
fn put_each(out: &mut Vec<u8>, name: &[u8], refusal: Refusal) -> Result<(), AllocError> {
    out.extend_from_slice(name)?;
    out.extend_from_slice(b":")?;
    put_decimal(out, line_of(refusal))?;
    out.extend_from_slice(b": ")?;
    out.extend_from_slice(words_of(refusal))?;
    out.extend_from_slice(b"\n")
}
