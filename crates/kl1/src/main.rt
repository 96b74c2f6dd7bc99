//! The program: a script, or the text of a journal, from standard input, and what is written for it to standard output.
#![tactic(auto)]

use kl1_script::{FailureCounter, ScriptFault, run_replay, run_script};
use std::env;
use std::env::Args;
use std::io::{Error, ErrorKind};
use std::process::ExitCode;
use std::rt::Env;

/// The status of a program that is called with other words than it knows.
const OTHER_WORDS: u8 = 2;

/// What the words after the program's name ask for.
#[derive(Clone, Copy)]
enum Work {
    /// To run a script: there are none.
    Script,
    /// To replay a journal: `replay`.
    Replay,
    /// Nothing that the program knows.
    Unknown,
}

fn main(rt: HostRuntime) -> ExitCode {
    let mut source = FailureCounter::new(rt.stdin());
    let mut sink = FailureCounter::new(rt.stdout());
    let done = match work_of(&rt) {
        Ok(Work::Script) => run_script(&rt, rt.alloc(), &mut source, &mut sink),
        Ok(Work::Replay) => run_replay(&rt, rt.alloc(), &mut source, &mut sink),
        Ok(Work::Unknown) => return tell_usage(&rt),
        Err(fault) => Err(fault),
    };
    match done {
        Ok(()) => ExitCode::SUCCESS,
        Err(fault) => tell_fault(&rt, fault),
    }
}

/// What the program's words ask for. One that isn't UTF-8 is a word that it doesn't know.
fn work_of<R: Env + AllocGlobal>(rt: &R) -> Result<Work, ScriptFault> {
    match env::args(rt) {
        Ok(words) => Ok(work_in(words)),
        Err(error) => {
            if is_want_of_memory(&error) {
                Err(ScriptFault::Memory)
            } else {
                Ok(Work::Unknown)
            }
        }
    }
}

/// What these words ask for, of which the first is the program's name.
fn work_in(mut words: Args) -> Work {
    let _program = words.next();
    match words.next() {
        None => Work::Script,
        Some(word) => {
            if word.as_str() == "replay" && words.next().is_none() {
                Work::Replay
            } else {
                Work::Unknown
            }
        }
    }
}

/// Whether a call failed because memory was refused.
fn is_want_of_memory(error: &Error) -> bool {
    error.kind() == ErrorKind::OutOfMemory
}

/// Tells how the program is called, and answers its status.
fn tell_usage<R: Eprint>(rt: &R) -> ExitCode {
    let _ = eprintln!(rt; "usage: kl1 [replay]");
    ExitCode::from(OTHER_WORDS)
}

/// Tells a fault, and answers the program's status.
fn tell_fault<R: Eprint>(rt: &R, fault: ScriptFault) -> ExitCode {
    let _ = eprintln!(rt; "kl1: {fault}");
    ExitCode::FAILURE
}
