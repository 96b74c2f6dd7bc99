// A goal's text with operators between their operands, as far as it reads back.

use crate::infix::infix_text;
use crate::parsed::parse_print;
use kl1_read::{ReadFault, read_goal};
use kl1_term::print_whole;
use std::alloc::{AllocError, Global};

/// The most bytes of a goal that is read again.
const MOST_READ: usize = 4_194_304;

/// A text that reads as the same goal as a printed goal: that with operators between their operands, if it does, else the print itself.
pub fn readable_goal(alloc: Global, print: &[u8]) -> Result<Vec<u8>, AllocError> {
    let parsed = parse_print(alloc, print)?;
    if parsed.is_whole {
        let text = infix_text(alloc, parsed.nodes.as_slice())?;
        if read_alike(alloc, print, text.as_slice())? {
            return Ok(text);
        }
    }
    Vec::from_slice(alloc, print)
}

/// Whether two texts are seen to read as one goal.
fn read_alike(alloc: Global, print: &[u8], text: &[u8]) -> Result<bool, AllocError> {
    if MOST_READ < print.len() {
        return Ok(false);
    }
    if MOST_READ < text.len() {
        return Ok(false);
    }
    let first = match read_goal(alloc, print) {
        Ok(goal) => goal,
        Err(ReadFault::Bad { line: _line }) => return Ok(false),
        Err(ReadFault::Memory) => return Err(AllocError),
    };
    let second = match read_goal(alloc, text) {
        Ok(goal) => goal,
        Err(ReadFault::Bad { line: _line }) => return Ok(false),
        Err(ReadFault::Memory) => return Err(AllocError),
    };
    let one = print_whole(alloc, &first)?;
    let other = print_whole(alloc, &second)?;
    Ok(one.as_slice() == other.as_slice())
}
