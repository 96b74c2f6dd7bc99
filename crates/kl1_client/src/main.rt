//! The program with which people use a server: it logs in to an account, sends commands, and shows the replies.
#![tactic(auto)]

mod files;
mod help;
mod hints;
mod key;
mod started;
mod terminal;
mod trouble;
mod words;

use crate::started::status_by;
use crate::words::{PROGRAM, Wanted, tell};
use kl1_client_talk::{BAD_WORDS, TROUBLE};
use kl1_words::asked_in;
use std::process::ExitCode;
use std::{env, io};

fn main(rt: HostRuntime) -> ExitCode {
    ExitCode::from(status_of(&rt))
}

/// The words of the program, of which the first is its name.
fn words_in(rt: &HostRuntime) -> io::Result<Vec<String>> {
    Ok(env::args(rt)?.collect(rt.alloc())?)
}

/// Does what the words ask for, and answers the program's status.
fn status_of(rt: &HostRuntime) -> u8 {
    match words_in(rt) {
        Ok(words) => match asked_in(rt.alloc(), &PROGRAM, words.as_slice()) {
            Ok(asked) => match status_by(rt, &Wanted::of(&asked)) {
                Ok(status) => status,
                Err(trouble) => trouble.tell(rt),
            },
            Err(unasked) => tell(rt, &unasked),
        },
        Err(error) => {
            let _ = eprintln!(rt; "kl1_client: {error}");
            if error.kind() == io::ErrorKind::OutOfMemory {
                TROUBLE
            } else {
                BAD_WORDS
            }
        }
    }
}
