// Printed terms that are looked at without being read.

use kl1_model::limits::MOST_PRINTED_BYTES;
use kl1_text::decimal_up_to;
use std::alloc::{AllocError, Global};

/// The operator whose print has no quotes.
const MOD: &[u8] = b"mod(";

/// How the print of an equation begins.
const EQUATION: &[u8] = b"'='(";

/// Whether operators may be in a print: it has a quote, or the name of the operator that needs none.
pub fn may_have_operators(print: &[u8]) -> bool {
    let mut rest = print;
    for _ in print {
        match rest {
            [b'\'', ..] => return true,
            [b'm', ..] if rest.starts_with(MOD) => return true,
            [_, others @ ..] => rest = others,
            [] => return false,
        }
    }
    false
}

/// Whether a print was cut.
pub fn is_cut(print: &[u8]) -> bool {
    MOST_PRINTED_BYTES < print.len()
}

/// What stands before the first comma that is in no parentheses and brackets, and what after it.
fn split_comma(text: &[u8]) -> Option<(&[u8], &[u8])> {
    let mut depth: u64 = 0;
    for (place, byte) in text.iter().enumerate() {
        match *byte {
            b'(' | b'[' => depth = depth.saturating_add(1),
            b')' | b']' => depth = depth.saturating_sub(1),
            b',' if depth == 0 => {
                let rest = text.get(place.saturating_add(1)..)?;
                return Some((text.get(..place)?, rest));
            }
            _ => {}
        }
    }
    None
}

/// The two sides of a printed equation, if neither may have operators.
pub fn sides_of(print: &[u8]) -> Option<(&[u8], &[u8])> {
    let rest = print.strip_prefix(EQUATION)?;
    if is_cut(print) || may_have_operators(rest) {
        return None;
    }
    let inner = rest.strip_suffix(b")".as_slice())?;
    split_comma(inner)
}

/// The number of the variable that a print is, if it is one.
pub fn variable_in(print: &[u8]) -> Option<u64> {
    match print {
        [b'_', digits @ ..] => decimal_up_to(u64::MAX, digits),
        _ => None,
    }
}

/// The digits with which a text begins.
fn digits_in(text: &[u8]) -> &[u8] {
    for (place, byte) in text.iter().enumerate() {
        if !byte.is_ascii_digit() {
            return text.get(..place).unwrap_or(&[]);
        }
    }
    text
}

/// The variables of a print, each of them once.
pub fn variables_of(alloc: Global, print: &[u8]) -> Result<Vec<u64>, AllocError> {
    let mut variables = Vec::new(alloc);
    let mut is_quoted = false;
    let mut is_inside = false;
    let mut rest = print;
    // Each round takes a byte.
    for _ in print {
        let [byte, others @ ..] = rest else {
            break;
        };
        rest = others;
        if *byte == b'\'' {
            is_quoted = !is_quoted;
        } else if *byte == b'_' && !is_quoted && !is_inside {
            if let Some(number) = decimal_up_to(u64::MAX, digits_in(others)) {
                if !variables.contains(&number) {
                    variables.push(number)?;
                }
            }
        }
        is_inside = byte.is_ascii_alphanumeric() || *byte == b'_';
    }
    Ok(variables)
}

/// A printed goal that computes: what is to be bound, and an operator with its operands. These are no expressions and no negative
/// numbers, but the first may be an operator with such operands that needs no parentheses there.
#[derive(Clone, Copy)]
pub struct Computing<'a> {
    pub target: &'a [u8],
    /// The first operand and the first operator, if there are two operators.
    pub first: Option<(&'a [u8], &'a [u8])>,
    pub left: &'a [u8],
    pub operator: &'a [u8],
    pub right: &'a [u8],
}

/// A printed operator with two operands.
#[derive(Clone, Copy)]
struct Operation<'a> {
    left: &'a [u8],
    operator: &'a [u8],
    right: &'a [u8],
}

/// How the print of a goal that computes begins.
const COMPUTING: &[u8] = b"':='(";

/// Whether a print is no expression and no negative number.
fn is_operand(print: &[u8]) -> bool {
    !print.starts_with(b"-") && !may_have_operators(print)
}

/// A print as one of the four operators that are signs with its operands, if it is one.
fn operation_in(print: &[u8]) -> Option<Operation<'_>> {
    let [b'\'', _, b'\'', b'(', operands @ .., b')'] = print else {
        return None;
    };
    let operator = print.get(1..2)?;
    match operator {
        b"+" | b"-" | b"*" | b"/" => {}
        _ => return None,
    }
    let (left, right) = split_comma(operands)?;
    Some(Operation {
        left,
        operator,
        right,
    })
}

/// Whether an operator makes a product.
fn is_product(operator: &[u8]) -> bool {
    operator == b"*".as_slice() || operator == b"/".as_slice()
}

/// A printed goal as one that computes with one operator, or with two from the left, if it does.
pub fn computing_in(print: &[u8]) -> Option<Computing<'_>> {
    let inner = print
        .strip_prefix(COMPUTING)?
        .strip_suffix(b")".as_slice())?;
    let (target, expression) = split_comma(inner)?;
    let last = operation_in(expression)?;
    if !is_operand(target) || !is_operand(last.right) {
        return None;
    }
    if is_operand(last.left) {
        return Some(Computing {
            target,
            first: None,
            left: last.left,
            operator: last.operator,
            right: last.right,
        });
    }
    let first = operation_in(last.left)?;
    // A sum stands in parentheses in a product.
    let is_grouped = is_product(last.operator) && !is_product(first.operator);
    if is_grouped || !is_operand(first.left) || !is_operand(first.right) {
        return None;
    }
    Some(Computing {
        target,
        first: Some((first.left, first.operator)),
        left: first.right,
        operator: last.operator,
        right: last.right,
    })
}
