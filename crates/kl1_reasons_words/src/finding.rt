// What is found to be wrong.

ghost use Rattle.std.specs.Prelude.{◌≡◌, IfOk};
ghost use Rattle.kl1_reasons_words.specs.Said.{Finds, said_of};

use itoa::Buffer;
use std::alloc::{AllocError, Global};

/// What is wrong, and what may help.
#[derive(Drop)]
pub struct Words {
    /// What is wrong, in words on one line.
    pub why: Vec<u8>,
    /// What may help, each on one line.
    pub hints: Vec<Vec<u8>>,
}

/// What is found to be wrong, and how many bytes stand before it.
#[derive(Drop)]
pub struct Finding {
    pub at: usize,
    pub words: Words,
}

/// A part of a line of words.
#[derive(Clone, Copy)]
pub enum Say<'a> {
    /// These bytes.
    Text(&'a [u8]),
    /// A number in decimal.
    Number(u64),
}

/// What is wrong at a place, with what may help, if that is not empty.
pub fn found_at(
    alloc: Global,
    at: usize,
    why: &[Say<'_>],
    hint: &[Say<'_>],
) -> Result<Finding, AllocError>
    ensures { IfOk result (Finds at (said_of why.now)) }
{
    let mut hints = Vec::new(alloc);
    if !hint.is_empty() {
        hints.push(said(alloc, hint)?)?;
    }
    let why = said(alloc, why)?;
    Ok(Finding {
        at,
        words: Words { why, hints },
    })
}

/// What is wrong at a place, in words that are known, with what may help, if that is not empty.
pub fn known(alloc: Global, at: usize, why: &[u8], hint: &[u8]) -> Result<Finding, AllocError>
    ensures { IfOk result (Finds at why.now) }
{
    let mut hints = Vec::new(alloc);
    if !hint.is_empty() {
        hints.push(Vec::from_slice(alloc, hint)?)?;
    }
    let why = Vec::from_slice(alloc, why)?;
    Ok(Finding {
        at,
        words: Words { why, hints },
    })
}

/// A line of words.
pub fn said(alloc: Global, parts: &[Say<'_>]) -> Result<Vec<u8>, AllocError>
    ensures { IfOk result (λ line. line.items ≡ said_of parts.now) }
{
    let mut line = Vec::new(alloc);
    let mut rest = parts;
    while let [first, others @ ..] = rest {
        match first {
            Say::Text(text) => line.extend_from_slice(text)?,
            Say::Number(number) => {
                let mut buffer = Buffer::new();
                line.extend_from_slice(buffer.format(*number).as_bytes())?
            }
        }
        rest = others;
    }
    Ok(line)
}
