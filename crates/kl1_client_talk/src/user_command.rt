// What a line of the user asks for.

use crate::request::Page;
use kl1_lines::{is_blank_line, is_same, number_in, only_number, split_word, without_return};

/// What a line of the user asks for.
#[derive(Clone, Copy)]
pub enum UserCommand<'a> {
    /// Nothing: it is blank.
    Nothing,
    /// Help on what this names, without the blanks around it, or on all.
    Help(&'a [u8]),
    /// That the file is loaded whose name is this without the blanks around it.
    Load(&'a [u8]),
    /// That the journal is kept as the file whose name is this without the blanks around it.
    Save(&'a [u8]),
    /// That all waits until the shoen of this number has ended, or for this number of seconds.
    Wait(u64, Option<u64>),
    /// The reports of the shoen of this number as they come, until it has ended.
    Watch(u64),
    /// Pages from this number on.
    Pages(Page, u64),
    /// A reply that lists lines, if it is no refusal.
    List,
    /// That the session ends, with a farewell that is shown.
    Logout,
    /// That the session ends.
    Quit,
    /// A reply of one line.
    OneLine,
}

/// What a line, without its line feed, asks for. A line that is no good one of its kind goes to the server, which refuses it.
pub fn command_in(line: &[u8]) -> UserCommand<'_> {
    let (word, rest) = split_word(without_return(line));
    if word.is_empty() {
        UserCommand::Nothing
    } else if is_same(word, b"load") {
        if is_blank_line(rest) {
            UserCommand::OneLine
        } else {
            UserCommand::Load(rest)
        }
    } else if is_same(word, b"save") {
        if is_blank_line(rest) {
            UserCommand::OneLine
        } else {
            UserCommand::Save(rest)
        }
    } else if is_same(word, b"wait") {
        wait_by(rest)
    } else if is_same(word, b"watch") {
        match only_number(rest) {
            Some(shoen) => UserCommand::Watch(shoen),
            None => UserCommand::OneLine,
        }
    } else if is_same(word, b"reports") {
        reports_by(rest)
    } else if is_same(word, b"journal") {
        journal_by(rest)
    } else if is_same(word, b"modules") {
        UserCommand::List
    } else if is_same(word, b"logout") {
        UserCommand::Logout
    } else if is_same(word, b"quit") {
        if is_blank_line(rest) {
            UserCommand::Quit
        } else {
            UserCommand::OneLine
        }
    } else if is_same(word, b"help") || is_same(word, b"?") {
        UserCommand::Help(rest)
    } else {
        UserCommand::OneLine
    }
}

/// What a line asks for that has this after `wait`.
fn wait_by(rest: &[u8]) -> UserCommand<'_> {
    let (first, rest) = split_word(rest);
    match number_in(first) {
        None => UserCommand::OneLine,
        Some(shoen) => {
            if is_blank_line(rest) {
                UserCommand::Wait(shoen, None)
            } else {
                match only_number(rest) {
                    None => UserCommand::OneLine,
                    Some(seconds) => UserCommand::Wait(shoen, Some(seconds)),
                }
            }
        }
    }
}

/// What a line asks for that has this after `reports`.
fn reports_by(rest: &[u8]) -> UserCommand<'_> {
    let (first, rest) = split_word(rest);
    match (number_in(first), only_number(rest)) {
        (Some(shoen), Some(from)) => UserCommand::Pages(Page::Reports { shoen }, from),
        _ => UserCommand::List,
    }
}

/// What a line asks for that has this after `journal`.
fn journal_by(rest: &[u8]) -> UserCommand<'_> {
    let (first, rest) = split_word(rest);
    match (number_in(first), only_number(rest)) {
        (Some(from), Some(count)) => UserCommand::Pages(Page::Journal { count }, from),
        _ => UserCommand::List,
    }
}
