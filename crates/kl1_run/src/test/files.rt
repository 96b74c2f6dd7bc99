// The files with modules.

use crate::test::TEST;
use kl1_run_work::{MOST_SOURCE_BYTES, SourceFile, put_checked};
use kl1_words::{Fault, put_named_line, read_up_to};

/// Reads the files of these names, in order. Tells each that can't be read, and each that is no module.
pub fn read_each(rt: &HostRuntime, names: &[&str]) -> Result<Vec<SourceFile>, Fault> {
    let alloc = rt.alloc();
    let mut files = Vec::new(alloc);
    let mut faults = Vec::new(alloc);
    for name in names {
        match read_up_to(rt, name, MOST_SOURCE_BYTES as u64 + 1) {
            Ok(text) => {
                let name = Vec::from_slice(alloc, name.as_bytes())?;
                let at = files.len();
                files.push(SourceFile { name, text })?;
                if let Some(last) = files.as_slice().get(at..) {
                    put_checked(alloc, last, &mut faults)?;
                }
            }
            Err(error) => put_named_line(alloc, &TEST, name, &error, &mut faults)?,
        }
    }
    if faults.is_empty() {
        Ok(files)
    } else {
        Err(Fault::Lines(faults))
    }
}
