//! Checks of journals on disk: of one journal's file, of the journals of a host, and of a host that is stopped and started again. Files
//! are in memory and fail, or stand in a folder of the system.
#![tactic(auto)]

mod host;
mod journals;
mod log;
mod report;
mod sums;

use crate::report::Report;
use std::io;
use std::io::{Error, ErrorKind, Write};

/// Writes a line on each check.
fn main(rt: HostRuntime) -> io::Result<()> {
    let alloc = rt.alloc();
    let mut report = Report::new(alloc);
    log::put_checks(&mut report, &rt, alloc);
    journals::put_checks(&mut report, &rt, alloc);
    host::put_checks(&mut report, &rt, alloc);
    if report.has_failed {
        return Err(Error::from(ErrorKind::OutOfMemory));
    }
    rt.stdout().write_all(report.bytes.as_slice())
}
