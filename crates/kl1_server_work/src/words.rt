// The words of the server.

ghost use Rattle.std.specs.Prelude.{◌≡◌, ◌≤◌, option_map};
ghost use Rattle.std.specs.List.{list_all};
ghost use Rattle.kl1_model.specs.Token.{is_digit};
ghost use Rattle.kl1_server_work.specs.Counts.{asked, asked_by, count_in};
ghost use Rattle.kl1_server_work.specs.declared.words.TheConstants.{MOST_ACCEPT, MOST_WORKERS};

use crate::startup_error::StartupError;
use kl1_text::decimal_up_to;
use kl1_words::{OptionSpec, Program, SystemFaults, Takes, Unasked, asked_in};
use std::alloc::Global;

/// The most workers.
pub const MOST_WORKERS: u16 = 16;

/// The most connections that the server accepts in its whole life.
pub const MOST_ACCEPT: u16 = 1_024;

/// What the words ask for.
#[derive(Clone, Copy)]
pub struct Words<'a> {
    /// The name of the file of accounts.
    pub file: &'a str,
    /// Where to listen.
    pub address: &'a str,
    /// How many threads go on with accounts.
    pub workers: u16,
    /// How many connections are accepted.
    pub accept: u16,
    pub ghost some_workers: { 1 ≤ workers },
    pub ghost few_workers: { workers ≤ MOST_WORKERS },
    pub ghost some_accept: { 1 ≤ accept },
    pub ghost few_accept: { accept ≤ MOST_ACCEPT },
}

/// Whether a word has digits alone.
fn are_digits(word: &[u8]) -> bool
    ensures { result ≡ list_all is_digit word.now }
{
    word.iter().all(|byte| b'0' <= *byte && *byte <= b'9')
}

/// The number from 1 to `most` that a word is, in decimal digits.
fn count_in(most: u16, word: &[u8]) -> Option<u16>
    ensures { result ≡ count_in most word.now }
{
    if word.is_empty() || !are_digits(word) {
        return None;
    }
    match decimal_up_to(u64::from(most), word) {
        None | Some(0) => None,
        Some(number) => Some(number as u16),
    }
}

/// The words that the server knows, all of which have to be there.
const OPTIONS: [OptionSpec; 4] = [
    OptionSpec {
        name: "FILE",
        takes: Takes::Word,
        value: "",
        help: "",
        beside: &[],
        with: "",
    },
    OptionSpec {
        name: "ADDRESS",
        takes: Takes::Word,
        value: "",
        help: "",
        beside: &[],
        with: "",
    },
    OptionSpec {
        name: "WORKERS",
        takes: Takes::Word,
        value: "",
        help: "",
        beside: &[],
        with: "",
    },
    OptionSpec {
        name: "ACCEPT",
        takes: Takes::Word,
        value: "",
        help: "",
        beside: &[],
        with: "",
    },
];

/// The program.
static PROGRAM: Program = Program {
    name: "kl1_server",
    about: "",
    usage: "",
    options: &OPTIONS,
    tasks: &[],
    faults: SystemFaults::Pipes,
};

/// What a refusal of words is for the server.
fn startup_error_of(unasked: &Unasked) -> StartupError {
    if unasked.is_memory() {
        StartupError::Memory
    } else {
        StartupError::Usage
    }
}

/// What the words ask for, of which the first is the program's name.
pub fn words_in<'a>(alloc: Global, words: &'a [String]) -> Result<Words<'a>, StartupError> {
    let asked = match asked_in(alloc, &PROGRAM, words) {
        Ok(asked) => asked,
        Err(unasked) => return Err(startup_error_of(&unasked)),
    };
    let (Some(file), Some(address), Some(workers), Some(accept)) = (
        asked.text("FILE"),
        asked.text("ADDRESS"),
        asked.text("WORKERS"),
        asked.text("ACCEPT"),
    ) else {
        return Err(StartupError::Usage);
    };
    match words_of(file, address, workers, accept) {
        Some(words) => Ok(words),
        None => Err(StartupError::Usage),
    }
}

/// What the words FILE, ADDRESS, WORKERS and ACCEPT ask for; `None` if one of the last two is no number that it may be.
fn words_of<'a>(file: &'a str, address: &'a str, workers: &str, accept: &str) -> Option<Words<'a>>
    ensures { option_map (λ w. asked w.file.now w.address.now w.workers w.accept) result ≡ asked_by file.now address.now workers.now accept.now }
{
    match (
        count_in(MOST_WORKERS, workers.as_bytes()),
        count_in(MOST_ACCEPT, accept.as_bytes()),
    ) {
        (Some(workers), Some(accept)) => Some(Words {
            file,
            address,
            workers,
            accept,
        }),
        _ => None,
    }
}
