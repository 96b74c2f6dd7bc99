// The script that does the same work.

use crate::source_file::SourceFile;
use kl1_lines::put_decimal;
use kl1_term::{Term, put_whole};
use std::alloc::{AllocError, Global};

/// The bytes of the line that starts the goal with this allowance, without the account's name.
pub fn start_length(alloc: Global, goal: &Term, allowance: u64) -> Result<usize, AllocError> {
    let mut line = Vec::new(alloc);
    put_start(alloc, goal, allowance, &mut line)?;
    Ok(line.len())
}

/// Puts the line that starts the goal with this allowance, without the account's name, after the bytes. After an `Err` some of it may
/// be there.
fn put_start(
    alloc: Global,
    goal: &Term,
    allowance: u64,
    out: &mut Vec<u8>,
) -> Result<(), AllocError> {
    out.extend_from_slice(b"start ")?;
    put_decimal(out, allowance)?;
    out.extend_from_slice(b" 0 4095 ")?;
    put_whole(alloc, out, goal)
}

/// Puts the script that loads the files, starts the goal with this allowance, runs `steps` steps, and asks for the value, and
/// also for the first 64 reports if they are wanted, after the bytes. After an `Err` some of it may be there.
pub fn put_script(
    alloc: Global,
    files: &[SourceFile],
    goal: &Term,
    allowance: u64,
    steps: u64,
    with_reports: bool,
    out: &mut Vec<u8>,
) -> Result<(), AllocError> {
    out.extend_from_slice(b"accounts me\n")?;
    put_loads(files, out)?;
    put_goal(alloc, goal, allowance, steps, out)?;
    put_questions(with_reports, out)?;
    Ok(())
}

/// Puts a line and the bytes for each file after the bytes. After an `Err` some of them may be there.
fn put_loads(files: &[SourceFile], out: &mut Vec<u8>) -> Result<(), AllocError> {
    for file in files {
        put_load(file.text.as_slice(), out)?;
    }
    Ok(())
}

/// Puts the line that loads a text, and the text, after the bytes. After an `Err` some of them may be there.
fn put_load(text: &[u8], out: &mut Vec<u8>) -> Result<(), AllocError> {
    out.extend_from_slice(b"me load ")?;
    put_decimal(out, text.len() as u64)?;
    out.extend_from_slice(b"\n")?;
    out.extend_from_slice(text)?;
    out.extend_from_slice(b"\n")
}

/// Puts the lines that start and run the goal after the bytes. After an `Err` some of them may be there.
fn put_goal(
    alloc: Global,
    goal: &Term,
    allowance: u64,
    steps: u64,
    out: &mut Vec<u8>,
) -> Result<(), AllocError> {
    out.extend_from_slice(b"me ")?;
    put_start(alloc, goal, allowance, out)?;
    put_run(steps, out)
}

/// Puts the end of a line, and the line that runs `steps` steps, after the bytes. After an `Err` some of them may be there.
fn put_run(steps: u64, out: &mut Vec<u8>) -> Result<(), AllocError> {
    out.extend_from_slice(b"\nme run ")?;
    put_decimal(out, steps)?;
    out.extend_from_slice(b"\n")
}

/// Puts the lines that ask what came of the goal after the bytes. After an `Err` some of them may be there.
fn put_questions(with_reports: bool, out: &mut Vec<u8>) -> Result<(), AllocError> {
    out.extend_from_slice(b"me value 1\n")?;
    put_reports_line(with_reports, out)?;
    Ok(())
}

/// Puts the line that asks for the first reports, if they are wanted, after the bytes. After an `Err` some of it may be there.
fn put_reports_line(with_reports: bool, out: &mut Vec<u8>) -> Result<(), AllocError> {
    if with_reports {
        out.extend_from_slice(b"me reports 1 1\n")
    } else {
        Ok(())
    }
}
