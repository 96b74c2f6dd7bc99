// What is known of the commands of a prompt.

use kl1_lines::{is_same, split_word};
use std::alloc::{AllocError, Global};
use strsim::osa_distance;

/// The commands: of each its form, and what it does.
const COMMANDS: [&str; 25] = [
    "GOAL               start GOAL, as app:app([1],[2],R), and run it",
    ":step [N]          do at most N steps more",
    ":trace [N]         do at most N steps, one without N, and tell each",
    ":goals             tell the goals, and what they wait for",
    ":waits             tell what stands still, and why",
    ":shoens            tell the shoens that live",
    ":stats             tell what is used of each limit",
    ":modules           tell the modules: name, bytes, clauses",
    ":value S           tell the goal of shoen S with what is bound now",
    ":status S          tell the state of shoen S",
    ":reports S [N]     tell the reports of shoen S, from the Nth on",
    ":answer S N GOAL   put GOAL in the place of the goal of report N of shoen S",
    ":forget S N        let the first N reports of shoen S go, or by 0 the shoen itself, if it has ended",
    ":stop S            let shoen S stand still",
    ":resume S          let shoen S go on",
    ":abort S           end shoen S",
    ":allow S N         raise the allowance of shoen S by N",
    ":load FILE         load the module in FILE too",
    ":reload            begin anew with all files as they are now",
    ":help [COMMAND]    tell the commands, or one of them",
    ":quit              end; so does the end of input",
    ":start A L H GOAL  start GOAL with allowance A and priorities from L to H, and don't run it",
    ":reduce G C        let goal G take clause C",
    ":quiet             tell whether no goal can step",
    ":journal F N       tell N lines of the journal from the Fth on",
];

/// The most edits between a word and the command that it may have been meant to be.
const MOST_EDITS: usize = 2;

/// The word with which the line of a command begins.
fn word_of(line: &str) -> &str {
    line.split(" ").next().unwrap_or(line)
}

/// Whether a word, with its colon or without it, is that of a command's line.
fn is_of(line: &str, word: &[u8]) -> bool {
    let first = word_of(line).as_bytes();
    is_same(first, word) || is_same(first.get(1..).unwrap_or(first), word)
}

/// The line of the command of a word, if there is one.
fn line_of(word: &[u8]) -> Option<&'static str> {
    for line in &COMMANDS {
        if is_of(line, word) {
            return Some(*line);
        }
    }
    None
}

/// Puts help on a command after the bytes of answers, or on all of them if the word is empty; for a word that is none, what is known of
/// it after those of faults.
pub fn put_help(
    alloc: Global,
    word: &[u8],
    answers: &mut Vec<u8>,
    faults: &mut Vec<u8>,
) -> Result<(), AllocError> {
    if word.is_empty() {
        for line in &COMMANDS {
            put_line(line.as_bytes(), answers)?;
        }
        return Ok(());
    }
    match line_of(word) {
        Some(line) => put_line(line.as_bytes(), answers),
        None => put_no_command(alloc, word, faults),
    }
}

/// Puts what is wrong with a line that is no command after the bytes: how the command of its word is written, or that there is none.
pub fn put_unknown(alloc: Global, text: &[u8], faults: &mut Vec<u8>) -> Result<(), AllocError> {
    let (word, _rest) = split_word(text);
    match line_of(word) {
        Some(line) => {
            faults.extend_from_slice(b"kl1_run: ")?;
            faults.extend_from_slice(word)?;
            faults.extend_from_slice(b" isn't written so\n    hint: ")?;
            put_line(line.as_bytes(), faults)
        }
        None => put_no_command(alloc, word, faults),
    }
}

/// Puts that a word is no command after the bytes, with the nearest one.
fn put_no_command(alloc: Global, word: &[u8], faults: &mut Vec<u8>) -> Result<(), AllocError> {
    faults.extend_from_slice(b"kl1_run: no command ")?;
    faults.extend_from_slice(word.get(..MOST_WORD).unwrap_or(word))?;
    faults.extend_from_slice(b"\n    hint: ")?;
    match nearest(alloc, word)? {
        Some(line) => put_line(line.as_bytes(), faults),
        None => put_line(b":help tells the commands", faults),
    }
}

/// The most bytes of a word that is repeated.
const MOST_WORD: usize = 40;

/// The line of the command whose word is nearest to one, if one is near.
fn nearest(alloc: Global, word: &[u8]) -> Result<Option<&'static str>, AllocError> {
    let Ok(text) = str::from_utf8(word) else {
        return Ok(None);
    };
    if MOST_WORD < text.len() {
        return Ok(None);
    }
    let mut least = MOST_EDITS + 1;
    let mut found = None;
    for line in &COMMANDS {
        let edits = osa_distance(alloc, word_of(line), text)?;
        if edits < least {
            least = edits;
            found = Some(*line);
        }
    }
    Ok(found)
}

/// Puts a line after the bytes.
fn put_line(line: &[u8], out: &mut Vec<u8>) -> Result<(), AllocError> {
    out.extend_from_slice(line)?;
    out.push(b'\n')?;
    Ok(())
}
