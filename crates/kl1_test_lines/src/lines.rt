// Lines that tell of tests.

use crate::tests::Test;
use kl1_lines::put_decimal;
use std::alloc::AllocError;

/// Puts `FILE:LINE: ` and a text after the bytes.
pub fn put_place(out: &mut Vec<u8>, file: &[u8], line: u64, text: &[u8]) -> Result<(), AllocError> {
    out.extend_from_slice(file)?;
    out.push(b':')?;
    put_decimal(out, line)?;
    out.extend_from_slice(b": ")?;
    out.extend_from_slice(text)
}

/// Puts a text after the bytes with `\` before each `#`, which has a meaning of its own in such a line.
fn put_escaped(out: &mut Vec<u8>, text: &[u8]) -> Result<(), AllocError> {
    for byte in text {
        if *byte == b'#' {
            out.push(b'\\')?;
        }
        out.push(*byte)?;
    }
    Ok(())
}

/// Puts how the line of a test of this number begins after the bytes, by whether it got what it wants.
fn put_verdict(out: &mut Vec<u8>, number: u64, is_passed: bool) -> Result<(), AllocError> {
    out.extend_from_slice(if is_passed {
        b"ok ".as_slice()
    } else {
        b"not ok ".as_slice()
    })?;
    put_decimal(out, number)?;
    out.extend_from_slice(b" - ")
}

/// Puts where a test stands, and what it says, after the bytes.
fn put_stated(out: &mut Vec<u8>, test: &Test) -> Result<(), AllocError> {
    put_escaped(out, test.file.as_slice())?;
    out.extend_from_slice(b":")?;
    put_decimal(out, test.line)?;
    out.extend_from_slice(b" ")?;
    put_escaped(out, test.text.as_slice())
}

/// Puts the line of a test after the bytes, by its number, from 1, and whether it got what it wants.
pub fn put_line(
    out: &mut Vec<u8>,
    number: u64,
    test: &Test,
    is_passed: bool,
) -> Result<(), AllocError> {
    put_verdict(out, number, is_passed)?;
    put_stated(out, test)?;
    out.extend_from_slice(b"\n")
}

/// Puts the line that tells how many tests there are after the bytes.
pub fn put_plan(out: &mut Vec<u8>, count: u64) -> Result<(), AllocError> {
    out.extend_from_slice(b"1..")?;
    put_decimal(out, count)?;
    out.extend_from_slice(b"\n")
}
