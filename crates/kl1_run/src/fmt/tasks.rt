// What is done with each file.

use kl1_layout::{Verdict, verdict_of};
use kl1_model::limits::MOST_SOURCE_BYTES;
use kl1_words::{BAD, Fault, read_up_to, replace};
use std::{fs, io};

/// The status if a file is not laid out.
const DIFFERS: u8 = 1;

/// Lays each file out, or tells those that aren't laid out, and answers the program's status: the greatest that a file gives.
pub fn format_each(rt: &HostRuntime, names: &[&str], check: bool) -> Result<u8, Fault> {
    let mut status = 0;
    for name in names {
        let one = format_one(rt, name, check)?;
        if status < one {
            status = one;
        }
    }
    Ok(status)
}

/// Lays a file out, or tells its name if it isn't laid out. Answers the status that it gives.
fn format_one(rt: &HostRuntime, name: &str, check: bool) -> Result<u8, Fault> {
    let source = match read_up_to(rt, name, MOST_SOURCE_BYTES as u64 + 1) {
        Ok(source) => source,
        Err(error) => return tell_file(rt, name, &error),
    };
    match verdict_of(rt.alloc(), source.as_slice())? {
        Verdict::LaidOut => Ok(0),
        Verdict::Differs(layout) => settle(rt, name, layout.as_slice(), check),
        Verdict::TooLong => {
            eprintln!(rt; "{name}:1: too long")?;
            Ok(BAD)
        }
        Verdict::Grows => {
            eprintln!(rt; "{name}:1: too long if it is laid out")?;
            Ok(BAD)
        }
        Verdict::Broken(line) => {
            eprintln!(rt; "{name}:{line}: no token")?;
            Ok(BAD)
        }
    }
}

/// Has a file hold its layout, or tells its name. Answers the status that it gives.
fn settle(rt: &HostRuntime, name: &str, layout: &[u8], check: bool) -> Result<u8, Fault> {
    if check {
        println!(rt; "{name}")?;
        return Ok(DIFFERS);
    }
    // Through links: what is replaced is the file that holds the text.
    let path = match fs::canonicalize(rt, name) {
        Ok(path) => path,
        Err(error) => return tell_file(rt, name, &error),
    };
    let target = path.to_str().unwrap_or(name);
    let new = format!(in rt.alloc(); "{target}.kl1_fmt")?;
    match replace(rt, target, new.as_str(), layout) {
        Ok(()) => Ok(0),
        Err(error) => tell_file(rt, new.as_str(), &error),
    }
}

/// Tells why a file can't be read or written, and answers the status that it gives.
fn tell_file(rt: &HostRuntime, name: &str, error: &io::Error) -> Result<u8, Fault> {
    eprintln!(rt; "kl1_fmt: {name}: {error}")?;
    Ok(BAD)
}
