// What a test wants.

use crate::tokens::{behind_blanks, first_token, is_blank_text};
use kl1_lines::{number_in, split_name};
use kl1_model::Sign;
use kl1_read::Spelled;
use std::alloc::{AllocError, Global};

/// A variable of the goal, with the text of the term that it is to be bound to.
#[derive(Drop)]
pub struct Equation {
    pub variable: Vec<u8>,
    pub term: Vec<u8>,
}

/// What a test wants.
#[derive(Drop)]
pub enum Expectation {
    /// The goal terminates, and its variables are bound like this.
    Bindings(Vec<Equation>),
    /// The first exception is a failure.
    Failure,
    /// This number of goals wait for ever.
    Waits(u64),
    /// All of this allowance is used.
    Exhausted(u64),
}

/// The goal of a test and what is wanted of it, which `=>` parts.
pub(crate) fn split_arrow(text: &[u8]) -> Option<(&[u8], &[u8])> {
    let mut rest = text;
    for _ in text {
        let Some(first) = first_token(rest) else {
            return None;
        };
        if is_equals(&first.token) {
            let count = text
                .len()
                .saturating_sub(first.behind.len())
                .saturating_sub(1);
            if let [b'=', b'>', after @ ..] = &text[count..] {
                return Some((&text[..count], behind_blanks(after)));
            }
        }
        rest = first.behind;
    }
    None
}

/// Whether a token is `=`.
fn is_equals(token: &Spelled) -> bool {
    matches!(token, Spelled::Sign(Sign::Equals))
}

/// Whether a token is a comma.
fn is_comma(token: &Spelled) -> bool {
    matches!(token, Spelled::Sign(Sign::Comma))
}

/// Whether a token is a variable.
fn is_variable(token: &Spelled) -> bool {
    matches!(token, Spelled::Variable(_name))
}

/// How much deeper brackets are after a token.
fn depth_after(depth: u64, token: &Spelled) -> u64 {
    match token {
        Spelled::Sign(Sign::Open) | Spelled::Sign(Sign::OpenList) => depth.saturating_add(1),
        Spelled::Sign(Sign::Close) | Spelled::Sign(Sign::CloseList) => depth.saturating_sub(1),
        _ => depth,
    }
}

/// The bytes before the first comma outside of brackets, and those after it if there is one; none if a byte is no token.
fn split_comma(text: &[u8]) -> Option<(&[u8], Option<&[u8]>)> {
    let mut rest = text;
    let mut depth = 0;
    for _ in text {
        let Some(first) = first_token(rest) else {
            break;
        };
        if depth == 0 && is_comma(&first.token) {
            let count = text
                .len()
                .saturating_sub(first.behind.len())
                .saturating_sub(1);
            return Some((&text[..count], Some(first.behind)));
        }
        depth = depth_after(depth, &first.token);
        rest = first.behind;
    }
    if is_blank_text(rest) {
        Some((text, None))
    } else {
        None
    }
}

/// A variable, `=` and a term.
fn equation_in(alloc: Global, text: &[u8]) -> Result<Option<Equation>, AllocError> {
    let Some(first) = first_token(text) else {
        return Ok(None);
    };
    let Some(second) = first_token(first.behind) else {
        return Ok(None);
    };
    if !is_variable(&first.token) || !is_equals(&second.token) {
        return Ok(None);
    }
    Ok(Some(Equation {
        variable: Vec::from_slice(alloc, first.bytes)?,
        term: Vec::from_slice(alloc, second.behind)?,
    }))
}

/// Equations, parted by commas.
fn equations_in(alloc: Global, text: &[u8]) -> Result<Option<Vec<Equation>>, AllocError> {
    let mut found = Vec::new(alloc);
    let mut rest = text;
    // Each has a byte at least.
    for _ in text {
        let Some((first, others)) = split_comma(rest) else {
            return Ok(None);
        };
        let Some(equation) = equation_in(alloc, first)? else {
            return Ok(None);
        };
        found.push(equation)?;
        match others {
            Some(others) => rest = others,
            None => return Ok(Some(found)),
        }
    }
    Ok(None)
}

/// What a test wants, if that can be read.
pub(crate) fn expectation_in(
    alloc: Global,
    text: &[u8],
) -> Result<Option<Expectation>, AllocError> {
    let (word, behind) = split_name(text);
    if text == b"failure".as_slice() {
        Ok(Some(Expectation::Failure))
    } else if word == b"waits".as_slice() {
        Ok(match number_in(behind_blanks(behind)) {
            Some(count) => Some(Expectation::Waits(count)),
            None => None,
        })
    } else if word == b"exhausted".as_slice() {
        Ok(match number_in(behind_blanks(behind)) {
            Some(count) => Some(Expectation::Exhausted(count)),
            None => None,
        })
    } else {
        Ok(match equations_in(alloc, text)? {
            Some(equations) => Some(Expectation::Bindings(equations)),
            None => None,
        })
    }
}
