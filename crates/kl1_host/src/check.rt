// Journals are replayed.

use crate::accounts::accounts_in;
use crate::fault::{Fault, REFUSED};
use crate::faulty_line::{LineFault, fault_in};
use crate::folder::{journal_in, read_file};
use crate::last_line::LastLine;
use crate::settings::settings_of;
use crate::started::{is_lost, names_in};
use kl1_codes::PlainCodes;
use kl1_journal_entries::{Entry, Journal};
use kl1_lines::{FailureCounter, ScriptFault};
use kl1_log::{Found, recover};
use kl1_script::replay_file;
use std::io::ErrorKind;

/// How the replay of a journal tells of a fault, before the number of its line.
const FAULT: &[u8] = b"fault ";

/// What a journal has.
#[derive(Clone, Copy)]
struct Counts {
    entries: u64,
    names: u64,
    steps: u64,
}

/// What there is in a journal.
fn counts_of(journal: &Journal) -> Counts {
    let mut counts = Counts {
        entries: 0,
        names: journal.names().len() as u64,
        steps: 0,
    };
    let mut entries = journal.entries();
    for _ in 0..u64::MAX {
        let Some(entry) = entries.next() else {
            break;
        };
        counts.entries = counts.entries.saturating_add(1);
        counts.steps = counts.steps.saturating_add(match entry {
            Entry::Reduce { .. } => 1,
            Entry::Run(steps) => steps,
            _ => 0,
        });
    }
    counts
}

/// What is told of the fault at which the replay of a file ends; `None` if all its entries are done.
fn fault_of(rt: &HostRuntime, text: &[u8]) -> Result<Option<String>, Fault> {
    let alloc = rt.alloc();
    let mut sink = FailureCounter::new(LastLine::new(alloc));
    match replay_file(alloc, PlainCodes::new(alloc), text, &mut sink) {
        Ok(()) => {}
        Err(ScriptFault::Memory) => return Err(Fault::Memory),
        Err(fault) => return Ok(Some(format!(in alloc; "{fault}")?)),
    }
    match sink.inner.line().strip_prefix(FAULT) {
        Some(line) => Ok(Some(format!(in alloc; "line {}", line.escape_ascii())?)),
        None => Ok(None),
    }
}

/// Tells what a journal has whose whole lines are these, and whether a replay does all of it.
fn tell_whole(
    rt: &HostRuntime,
    name: &str,
    counts: Counts,
    text: &[u8],
    torn: usize,
) -> Result<bool, Fault> {
    if let Some(fault) = fault_of(rt, text)? {
        println!(rt; "{name}: fault: {fault}")?;
        return Ok(false);
    }
    let Counts {
        entries,
        names,
        steps,
    } = counts;
    if torn == 0 {
        println!(rt; "{name}: {entries} entries, {names} names, {steps} steps")?;
    } else {
        println!(rt;
            "{name}: {entries} entries, {names} names, {steps} steps, and {torn} bytes of a line that isn't whole"
        )?;
    }
    Ok(true)
}

/// Tells the line of a file, the first being 1, at which it is no journal.
fn tell_line(rt: &HostRuntime, name: &str, text: &[u8], line: u64) -> Result<(), Fault> {
    match fault_in(rt.alloc(), text, line)? {
        LineFault::NoEntry => println!(rt; "{name}: fault: line {line}")?,
        fault => println!(rt; "{name}: fault: line {line}, {}", fault.words())?,
    }
    Ok(())
}

/// Compares the sums of the journal of an account and replays it; tells what it has, or where it is at fault, and answers whether it is
/// sound.
fn check_journal(rt: &HostRuntime, folder: &str, name: &str) -> Result<bool, Fault> {
    let alloc = rt.alloc();
    let file = journal_in(alloc, folder, name.as_bytes())?;
    let text = match read_file(rt, alloc, file.as_str()) {
        Ok(text) => text,
        Err(error) if error.kind() == ErrorKind::NotFound => {
            println!(rt; "{name}: no journal yet")?;
            return Ok(true);
        }
        Err(error) => {
            println!(rt; "{name}: {error}")?;
            return Ok(false);
        }
    };
    match recover(alloc, text.as_slice())? {
        Found::Whole { journal, bytes } => {
            let counts = counts_of(&journal);
            // The replay has need of the memory.
            drop(journal);
            let whole = text.get(..bytes).unwrap_or(text.as_slice());
            let torn = text.len().saturating_sub(whole.len());
            tell_whole(rt, name, counts, whole, torn)
        }
        Found::Fault { line, .. } => {
            tell_line(rt, name, text.as_slice(), line)?;
            Ok(false)
        }
        Found::Unopened => {
            println!(rt; "{name}: fault: it doesn't begin like a journal")?;
            Ok(false)
        }
    }
}

/// Looks at the settings and the accounts of a folder, replays each journal in the order of the accounts, and answers the program's
/// status.
pub fn check_folder(rt: &HostRuntime, folder: &str) -> Result<u8, Fault> {
    let _settings = settings_of(rt, rt.alloc(), folder)?;
    let accounts = accounts_in(rt, rt.alloc(), folder)?;
    let started = names_in(rt, folder)?;
    let mut are_sound = true;
    for key in &accounts.keys {
        let name = format!(in rt.alloc(); "{}", key.name.escape_ascii())?;
        if is_lost(rt, folder, started.as_slice(), key.name.as_slice())? {
            println!(rt;
                "{name}: fault: it is missing or empty, and the account has started before"
            )?;
            are_sound = false;
        } else {
            are_sound = check_journal(rt, folder, name.as_str())? && are_sound;
        }
    }
    Ok(if are_sound { 0 } else { REFUSED })
}
