// Texts in columns.

use kl1_lines::put_decimal;
use std::alloc::{AllocError, Global};

/// Puts blanks after the bytes until there are `end` of them.
pub fn put_blanks(end: usize, out: &mut Vec<u8>) -> Result<(), AllocError> {
    if out.len() < end {
        out.resize(end, b' ')?;
    }
    Ok(())
}

/// Puts a number after the bytes, at the right of a column of this width.
pub fn put_right(
    alloc: Global,
    number: u64,
    width: u8,
    out: &mut Vec<u8>,
) -> Result<(), AllocError> {
    let mut digits = Vec::new(alloc);
    put_decimal(&mut digits, number)?;
    let blanks = usize::from(width).saturating_sub(digits.len());
    put_blanks(out.len() + blanks, out)?;
    out.extend_from_slice(digits.as_slice())
}

/// Puts the front of a text after the bytes, with dots after it if there is more.
pub fn put_front(text: &[u8], most: usize, out: &mut Vec<u8>) -> Result<(), AllocError> {
    match text.get(..most) {
        Some(front) if most < text.len() => {
            out.extend_from_slice(front)?;
            out.extend_from_slice(b"...")
        }
        _ => out.extend_from_slice(text),
    }
}
