//! The server: accounts behind a socket, for those who know their keys.
#![tactic(auto)]

use kl1_server_work::{FailureCounter, StartupError, run_server, stop};
use std::process::ExitCode;
use std::{env, io};

fn main(rt: HostRuntime) -> ExitCode {
    let mut out = FailureCounter::new(rt.stdout());
    let mut err = FailureCounter::new(rt.stderr());
    let status = match words_in(&rt) {
        Ok(words) => run_server(&rt, rt.alloc(), words.as_slice(), &mut out, &mut err),
        Err(error) => stop(error, &mut err),
    };
    if status == 0 {
        // What was served is for programs; who looks on is told that nothing is left.
        let _ = eprintln!(rt;
            "kl1_server: all of its connections have ended, so it ends, and its accounts with it"
        );
    }
    ExitCode::from(status)
}

/// The words of the program, of which the first is its name.
fn words_in(rt: &HostRuntime) -> Result<Vec<String>, StartupError> {
    let words = match env::args(rt) {
        Ok(words) => words,
        Err(error) => {
            return Err(if error.kind() == io::ErrorKind::OutOfMemory {
                StartupError::Memory
            } else {
                StartupError::Usage
            });
        }
    };
    match words.collect(rt.alloc()) {
        Ok(words) => Ok(words),
        Err(_) => Err(StartupError::Memory),
    }
}
