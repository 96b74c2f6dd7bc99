// The files that are read.

use crate::run::reasons::put_refusal;
use crate::run::words::RUN;
use kl1_run_work::{MOST_SOURCE_BYTES, SourceFile};
use kl1_words::{Fault, FileId, put_named_line, read_known};

/// Files that were read, all of them modules.
#[derive(Drop)]
pub struct Modules {
    pub files: Vec<SourceFile>,
    /// Which files they are.
    pub ids: Vec<FileId>,
}

/// Reads the files of these names, in order. Tells each that can't be read, and each that is no module.
pub fn read_each(rt: &HostRuntime, names: &[&str]) -> Result<Modules, Fault> {
    let alloc = rt.alloc();
    let mut files = Vec::new(alloc);
    let mut ids = Vec::new(alloc);
    let mut faults = Vec::new(alloc);
    for name in names {
        match read_known(rt, name, MOST_SOURCE_BYTES as u64 + 1) {
            Ok((id, text)) => {
                let name = Vec::from_slice(alloc, name.as_bytes())?;
                let file = SourceFile { name, text };
                put_refusal(alloc, &file, &mut faults)?;
                files.push(file)?;
                ids.push(id)?;
            }
            Err(error) => put_named_line(alloc, &RUN, name, &error, &mut faults)?,
        }
    }
    if faults.is_empty() {
        Ok(Modules { files, ids })
    } else {
        Err(Fault::Lines(faults))
    }
}
