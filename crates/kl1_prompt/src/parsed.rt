// What lines of a prompt ask for.

use crate::line::{Line, Table};
use kl1_command::{Command, Parsed, parse};
use kl1_lines::{is_blank_line, is_same, only_number, split_word, up_to};
use kl1_model::Rules;
use kl1_read::{ReadFault, read_goal};
use kl1_user_events::{Event, Query, ShoenNo};
use std::alloc::{AllocError, Global};

/// The most steps that a line has told.
pub const MOST_TRACED: u64 = 10_000;

/// What a line without its end asks for, of an account of these rules. `most` steps are asked for if it doesn't say how many.
pub fn parse_line(alloc: Global, rules: Rules, text: &[u8], most: u64) -> Result<Line, AllocError> {
    let (word, rest) = split_word(text);
    if is_blank_line(text) {
        Ok(Line::Blank)
    } else if begins_with(b'%', word) {
        Ok(Line::Blank)
    } else if begins_with(b':', word) {
        parse_order(alloc, rules, word, rest, most)
    } else {
        parse_goal(alloc, text)
    }
}

/// Whether bytes begin with this one.
fn begins_with(byte: u8, bytes: &[u8]) -> bool {
    match bytes {
        [] => false,
        [first, ..] => *first == byte,
    }
}

/// The goal of a line.
fn parse_goal(alloc: Global, text: &[u8]) -> Result<Line, AllocError> {
    match read_goal(alloc, text) {
        Ok(goal) => Ok(Line::Goal(goal)),
        Err(ReadFault::Bad { line: _line }) => Ok(Line::NoGoal),
        Err(ReadFault::Memory) => Err(AllocError),
    }
}

/// What a word with a colon before it and what is after it ask for.
fn parse_order(
    alloc: Global,
    rules: Rules,
    word: &[u8],
    rest: &[u8],
    most: u64,
) -> Result<Line, AllocError> {
    if is_same(word, b":step") {
        Ok(parse_step(rest, most))
    } else if is_same(word, b":trace") {
        Ok(parse_trace(rest))
    } else if is_same(word, b":goals") {
        Ok(alone(Line::Show(Table::Goals), rest))
    } else if is_same(word, b":waits") {
        Ok(alone(Line::Show(Table::Waits), rest))
    } else if is_same(word, b":shoens") {
        Ok(alone(Line::Show(Table::Shoens), rest))
    } else if is_same(word, b":stats") {
        Ok(alone(Line::Show(Table::Used), rest))
    } else if is_same(word, b":load") {
        parse_load(alloc, rest)
    } else if is_same(word, b":reload") {
        Ok(alone(Line::Reload, rest))
    } else if is_same(word, b":help") {
        let (topic, _behind) = split_word(rest);
        Ok(Line::Help(Vec::from_slice(alloc, topic)?))
    } else if is_same(word, b":quit") {
        Ok(alone(Line::Quit, rest))
    } else if is_same(word, b":reports") {
        parse_reports(alloc, rules, word, rest)
    } else {
        parse_command(alloc, rules, word, rest)
    }
}

/// A line that has nothing after its word.
fn alone(line: Line, rest: &[u8]) -> Line {
    if is_blank_line(rest) {
        line
    } else {
        Line::Unknown
    }
}

/// What stands after `:step`: how many steps, or nothing.
fn parse_step(rest: &[u8], most: u64) -> Line {
    if is_blank_line(rest) {
        return Line::Step(most);
    }
    match only_number(rest) {
        Some(steps) => Line::Step(steps),
        None => Line::Unknown,
    }
}

/// What stands after `:trace`: how many steps, or nothing.
fn parse_trace(rest: &[u8]) -> Line {
    if is_blank_line(rest) {
        return Line::Trace(1);
    }
    match up_to(MOST_TRACED, only_number(rest)) {
        Some(steps) => Line::Trace(steps),
        None => Line::Unknown,
    }
}

/// What stands after `:load`: a file's name.
fn parse_load(alloc: Global, rest: &[u8]) -> Result<Line, AllocError> {
    let (name, behind) = split_word(rest);
    if is_blank_line(rest) || !is_blank_line(behind) {
        return Ok(Line::Unknown);
    }
    Ok(Line::Load(Vec::from_slice(alloc, name)?))
}

/// What stands after `:reports`: a shoen's number, or that of a report too.
fn parse_reports(
    alloc: Global,
    rules: Rules,
    word: &[u8],
    rest: &[u8],
) -> Result<Line, AllocError> {
    match only_number(rest) {
        Some(shoen) => Ok(Line::Command(Command::Does(Event::Read(Query::Reports {
            shoen: ShoenNo(shoen),
            from: 1,
        })))),
        None => parse_command(alloc, rules, word, rest),
    }
}

/// The command of the account that a word without its colon and what is after it are.
fn parse_command(
    alloc: Global,
    rules: Rules,
    word: &[u8],
    rest: &[u8],
) -> Result<Line, AllocError> {
    let mut text = Vec::from_slice(alloc, without_first(word))?;
    text.extend_from_slice(rest)?;
    let parsed = parse(alloc, rules, text.as_slice())?;
    Ok(command_line(parsed))
}

/// The line that is this command, if there is one.
fn command_line(parsed: Parsed) -> Line {
    match parsed {
        Parsed::Command(command) => Line::Command(command),
        Parsed::Refused => Line::Unknown,
    }
}

/// Bytes without the first of them.
fn without_first(bytes: &[u8]) -> &[u8] {
    match bytes {
        [] => bytes,
        [_first, rest @ ..] => rest,
    }
}
