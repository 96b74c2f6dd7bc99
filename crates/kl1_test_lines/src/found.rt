// The tests of a file.

use crate::lines::put_place;
use crate::test_lines::{TestLine, test_lines};
use crate::tests::{Test, TestFault, test_in};
use kl1_read::read_module;
use kl1_text::AtomText;
use std::alloc::{AllocError, Global};

/// The tests so far.
#[derive(Drop)]
pub struct Found {
    pub tests: Vec<Test>,
    /// A line for each that can't be read.
    pub bad: Vec<u8>,
}

/// Puts the line of a test that can't be read after the bytes.
fn put_bad(out: &mut Vec<u8>, file: &[u8], line: u64, fault: TestFault) -> Result<(), AllocError> {
    put_place(out, file, line, b"bad test: ")?;
    out.extend_from_slice(fault.words())?;
    out.push(b'\n')?;
    Ok(())
}

/// Puts the test that a line of a file states after the others, or a line that tells why it can't be read.
fn put_test(
    alloc: Global,
    file: &[u8],
    module_name: &AtomText,
    stated: &TestLine,
    found: &mut Found,
) -> Result<(), AllocError> {
    match test_in(alloc, file, module_name, stated) {
        Ok(test) => {
            found.tests.push(test)?;
            Ok(())
        }
        Err(TestFault::Memory) => Err(AllocError),
        Err(fault) => put_bad(&mut found.bad, file, stated.line, fault),
    }
}

/// Puts the tests that lines of a file state after the others.
fn put_each(
    alloc: Global,
    file: &[u8],
    module_name: &AtomText,
    lines: &[TestLine],
    found: &mut Found,
) -> Result<(), AllocError> {
    for line in lines {
        put_test(alloc, file, module_name, line, found)?;
    }
    Ok(())
}

/// Puts the tests of a file, which is a module, after the others, and a line for each that can't be read after the lines.
pub fn put_tests(
    alloc: Global,
    file: &[u8],
    text: &[u8],
    found: &mut Found,
) -> Result<(), AllocError> {
    let Ok(module) = read_module(alloc, text) else {
        return Err(AllocError);
    };
    let lines = test_lines(alloc, text)?;
    put_each(alloc, file, &module.name, lines.as_slice(), found)
}
