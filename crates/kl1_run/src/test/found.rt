// The tests of files.

use kl1_run_work::SourceFile;
use kl1_test_lines::{Found, Test, put_tests};
use kl1_words::Fault;
use std::alloc::Global;

/// The tests of files, all of which are modules, in order.
pub fn tests_of(alloc: Global, files: &[SourceFile]) -> Result<Vec<Test>, Fault> {
    let mut found = Found {
        tests: Vec::new(alloc),
        bad: Vec::new(alloc),
    };
    for file in files {
        put_tests(
            alloc,
            file.name.as_slice(),
            file.text.as_slice(),
            &mut found,
        )?;
    }
    if found.bad.is_empty() {
        Ok(found.tests)
    } else {
        Err(Fault::Lines(found.bad))
    }
}
