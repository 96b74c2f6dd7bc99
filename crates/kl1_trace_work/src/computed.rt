// What an expression comes to.

use crate::prints::Computing;
use kl1_lines::only_number;
use kl1_term::Node;
use std::alloc::{AllocError, Global};

/// What an operator makes of two numbers, if it is one and that is a number.
pub fn computed(name: &[u8], left: i64, right: i64) -> Option<i64> {
    match name {
        b"+" => left.checked_add(right),
        b"-" => left.checked_sub(right),
        b"*" => left.checked_mul(right),
        b"/" => left.checked_div(right),
        // The least integer has a remainder though it has no quotient.
        b"mod" if right == -1 => Some(0),
        b"mod" => left.checked_rem(right),
        _ => None,
    }
}

/// What the expression of these nodes comes to, if that is a number.
pub fn value_of(alloc: Global, nodes: &[Node]) -> Result<Option<i64>, AllocError> {
    let mut values: Vec<i64> = Vec::new(alloc);
    // The operands of an operator stand after it.
    for node in nodes.iter().rev() {
        match node {
            Node::Integer(number) => values.push(*number)?,
            Node::Structure(name, 2) => {
                let (Some(left), Some(right)) = (values.pop(), values.pop()) else {
                    return Ok(None);
                };
                match computed(name.unpacked().as_slice(), left, right) {
                    Some(value) => values.push(value)?,
                    None => return Ok(None),
                }
            }
            _ => return Ok(None),
        }
    }
    match values.as_slice() {
        [value] => Ok(Some(*value)),
        _ => Ok(None),
    }
}

/// The number that a print is, if it is one that isn't negative.
fn number_in(print: &[u8]) -> Option<i64> {
    i64::try_from(only_number(print)?).ok()
}

/// What a goal that computes comes to, if that is a number.
pub fn value_in(computing: &Computing<'_>) -> Option<i64> {
    let mut left = number_in(computing.left)?;
    if let Some((operand, operator)) = computing.first {
        left = computed(operator, number_in(operand)?, left)?;
    }
    let right = number_in(computing.right)?;
    computed(computing.operator, left, right)
}
