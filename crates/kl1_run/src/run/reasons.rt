// What is told of files and goals: why they are refused, and what was hardly meant.

use crate::run::told::write_done;
use kl1_lines::{is_same, split_word};
use kl1_prompt::put_help;
use kl1_reasons::{
    NamedText, Predicates, predicates_of, put_reason, put_reasons, put_warnings, reason_of_goal,
};
use kl1_run_work::{ReadFault, SourceFile, Term, read_goal};
use kl1_words::Fault;
use std::alloc::{AllocError, Global};
use std::io::Write;

/// What stands in the place of a file's name where a goal is told of.
const GOAL: &[u8] = b"goal";

/// The source in a file, with the name by which it is told of.
fn named(file: &SourceFile) -> NamedText<'_> {
    NamedText {
        name: file.name.as_slice(),
        text: file.text.as_slice(),
    }
}

/// Puts the lines that tell why the source in a file is refused, if it is, after the bytes.
pub fn put_refusal(alloc: Global, file: &SourceFile, out: &mut Vec<u8>) -> Result<(), AllocError> {
    let _is_refused = put_reasons(alloc, named(file), out)?;
    Ok(())
}

/// Warns of what was hardly meant in files that are modules, and answers the program's status: warnings are faults if `are_faults`.
pub fn warn(rt: &HostRuntime, files: &[SourceFile], are_faults: bool) -> Result<u8, Fault> {
    let alloc = rt.alloc();
    let mut texts = Vec::new(alloc);
    for file in files {
        texts.push(named(file))?;
    }
    let mut lines = Vec::new(alloc);
    let has_warnings = put_warnings(alloc, texts.as_slice(), &mut lines)?;
    if has_warnings && are_faults {
        return Err(Fault::Lines(lines));
    }
    write_done(rt.stderr().write_all(lines.as_slice()))?;
    Ok(0)
}

/// The goal that a word is, over these files.
pub fn goal_in(alloc: Global, word: &str, files: &[SourceFile]) -> Result<Term, Fault> {
    match read_goal(alloc, word.as_bytes()) {
        Ok(goal) => Ok(goal),
        Err(ReadFault::Bad { line: _line }) => {
            Err(Fault::Lines(goal_lines(alloc, word.as_bytes(), files)?))
        }
        Err(ReadFault::Memory) => Err(Fault::Memory),
    }
}

/// The lines that tell why a text is no goal.
pub fn goal_lines(alloc: Global, text: &[u8], files: &[SourceFile]) -> Result<Vec<u8>, AllocError> {
    let modules = modules_of(alloc, files)?;
    let mut lines = Vec::new(alloc);
    if let Some(reason) = reason_of_goal(alloc, text, modules.as_slice())? {
        put_reason(&mut lines, GOAL, b"error", &reason)?;
    }
    Ok(lines)
}

/// Words that other programs have for commands of a prompt.
const OTHER_WORDS: [(&[u8], &[u8]); 3] = [(b"?", b"help"), (b"exit", b"quit"), (b"halt", b"quit")];

/// The word of the command that is meant by a word.
fn command_word(word: &[u8]) -> &[u8] {
    for (other, command) in &OTHER_WORDS {
        if is_same(word, other) {
            return command;
        }
    }
    word
}

/// The lines that tell why a line of a prompt is no goal, and of which command it has the word without the colon, if of any.
pub fn line_reasons(
    alloc: Global,
    text: &[u8],
    files: &[SourceFile],
) -> Result<Vec<u8>, AllocError> {
    let mut lines = goal_lines(alloc, text, files)?;
    let (word, _rest) = split_word(text);
    let mut command = Vec::new(alloc);
    let mut unknown = Vec::new(alloc);
    put_help(alloc, command_word(word), &mut command, &mut unknown)?;
    if !command.is_empty() {
        lines.extend_from_slice(b"    hint: ")?;
        lines.extend_from_slice(command.as_slice())?;
    }
    Ok(lines)
}

/// The predicates of the modules in files.
fn modules_of(alloc: Global, files: &[SourceFile]) -> Result<Vec<Predicates>, AllocError> {
    let mut modules = Vec::new(alloc);
    for file in files {
        modules.push(predicates_of(alloc, file.text.as_slice())?)?;
    }
    Ok(modules)
}
