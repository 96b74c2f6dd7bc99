// Terms side by side, as one text.

use kl1_read::{ReadFault, read_goal};
use kl1_term::print_whole;
use std::alloc::{AllocError, Global};

/// Puts a text after the bytes as one more element of a list that stands open, in parentheses.
pub(crate) fn put_element(out: &mut Vec<u8>, text: &[u8]) -> Result<(), AllocError> {
    out.push(if out.is_empty() { b'[' } else { b',' })?;
    out.push(b'(')?;
    out.extend_from_slice(text)?;
    out.push(b')')?;
    Ok(())
}

/// The text of a list that stands open, as it is printed once it is read: its variables have numbers by their first places. None
/// if it can't be read.
pub(crate) fn printed_row(alloc: Global, row: &[u8]) -> Result<Option<Vec<u8>>, AllocError> {
    let mut goal = Vec::from_slice(alloc, row)?;
    // An equation is a goal, which can be read.
    goal.extend_from_slice(b"] = []")?;
    match read_goal(alloc, goal.as_slice()) {
        Ok(goal) => Ok(Some(print_whole(alloc, &goal)?)),
        Err(ReadFault::Bad { line: _line }) => Ok(None),
        Err(ReadFault::Memory) => Err(AllocError),
    }
}
