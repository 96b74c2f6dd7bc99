// The lines of a text that state tests.

use kl1_lines::split_line;
use std::alloc::{AllocError, Global};

/// A line that states a test.
#[derive(Drop)]
pub struct TestLine {
    /// Its number, from 1.
    pub line: u64,
    /// What stands after `%?`.
    pub text: Vec<u8>,
}

/// Puts the test that a line of this number states after the others, if it states one.
fn put_test(
    alloc: Global,
    found: &mut Vec<TestLine>,
    line: u64,
    text: &[u8],
) -> Result<(), AllocError> {
    if !text.starts_with(b"%?") {
        return Ok(());
    }
    let text = Vec::from_slice(alloc, &text[2..])?;
    found.push(TestLine { line, text })?;
    Ok(())
}

/// The lines of a text that begin with `%?`, in order.
pub fn test_lines(alloc: Global, text: &[u8]) -> Result<Vec<TestLine>, AllocError> {
    let mut found = Vec::new(alloc);
    let mut rest = text;
    let mut line: u64 = 1;
    // Each round takes a byte at least.
    for _ in text {
        if rest.is_empty() {
            return Ok(found);
        }
        let (first, behind) = split_line(rest);
        put_test(alloc, &mut found, line, first)?;
        line = line.saturating_add(1);
        rest = behind;
    }
    Ok(found)
}
