// A whole talk.

use crate::caller::Caller;
use crate::connection::Connection;
use crate::fault::Fault;
use crate::listing::{ask_list, ask_one, ask_pages};
use crate::reply::{is_bad_source, is_bye, is_refusal};
use crate::reply_writer::ReplyWriter;
use crate::request::Request;
use crate::saving::save;
use crate::summary::TalkSummary;
use crate::turn_end::TurnEnd;
use crate::user_command::{UserCommand, command_in};
use crate::watching::{wait, watch};
use kl1_lines::{Sink, Source, without_return};
use kl1_reasons::{NamedText, put_reasons};
use std::alloc::Global;

/// Logs in to the account, asks for what the caller's lines ask for, one after another, shows the replies, and logs out. The reply to
/// the login is shown if it is a refusal, and then nothing else is asked for.
pub fn talk<S: Source, T: Sink, O: Sink, C: Caller>(
    alloc: Global,
    connection: &mut Connection<S, T>,
    shown: &mut ReplyWriter<O>,
    caller: &mut C,
    name: &[u8],
    key: &[u8],
) -> Result<TalkSummary, Fault> {
    connection.ask(Request::Login(name, key))?;
    let first = connection.line();
    if is_refusal(first) {
        shown.line(first)?;
        shown.flush()?;
        caller.turned(TurnEnd::Over, first);
        return Ok(TalkSummary {
            was_refused: true,
            lacked_file: false,
            stood_still: false,
        });
    }
    let lacks = take_turns(alloc, connection, shown, caller)?;
    let was_refused = connection.was_refused();
    Ok(TalkSummary {
        was_refused,
        lacked_file: lacks.0,
        stood_still: lacks.1,
    })
}

/// Asks for what the caller's lines ask for, and logs out. Tells whether a file could not be loaded or written, and whether a shoen that
/// was waited for had not ended.
fn take_turns<S: Source, T: Sink, O: Sink, C: Caller>(
    alloc: Global,
    connection: &mut Connection<S, T>,
    shown: &mut ReplyWriter<O>,
    caller: &mut C,
) -> Result<(bool, bool), Fault> {
    let mut line = Vec::new(alloc);
    let mut lacked_file = false;
    let mut stood_still = false;
    for _ in 0..u64::MAX {
        let found = caller.next(&mut line)?;
        if !found {
            log_out(connection)?;
            return Ok((lacked_file, stood_still));
        }
        let end = take_turn(alloc, connection, shown, caller, line.as_slice())?;
        shown.flush()?;
        caller.turned(end, connection.line());
        lacked_file = end.lacks_file(lacked_file);
        stood_still = end.stands_still(stood_still);
        if end.is_over() {
            return Ok((lacked_file, stood_still));
        }
    }
    Err(Fault::Commands)
}

/// Asks for the end of the session.
fn log_out<S: Source, T: Sink>(connection: &mut Connection<S, T>) -> Result<(), Fault> {
    connection.ask(Request::Line(b"logout"))
}

/// Asks for what a line wants, and shows the reply.
fn take_turn<S: Source, T: Sink, O: Sink, C: Caller>(
    alloc: Global,
    connection: &mut Connection<S, T>,
    shown: &mut ReplyWriter<O>,
    caller: &mut C,
    line: &[u8],
) -> Result<TurnEnd, Fault> {
    let command = command_in(line);
    let line = without_return(line);
    match command {
        UserCommand::Nothing => Ok(TurnEnd::GoesOn),
        UserCommand::Help(topic) => {
            caller.help(topic.trim_ascii());
            Ok(TurnEnd::GoesOn)
        }
        UserCommand::Load(text) => load(alloc, connection, shown, caller, text),
        UserCommand::Save(text) => save(alloc, connection, shown, caller, text),
        UserCommand::Wait(shoen, seconds) => wait(connection, shown, caller, shoen, seconds),
        UserCommand::Watch(shoen) => {
            watch(connection, shown, caller, shoen)?;
            Ok(TurnEnd::GoesOn)
        }
        UserCommand::Pages(page, from) => {
            if shown.are_pages_joined() {
                ask_pages(connection, shown, page, from)?;
                Ok(TurnEnd::GoesOn)
            } else {
                ask_list(connection, shown, line)?;
                Ok(TurnEnd::GoesOn)
            }
        }
        UserCommand::List => {
            ask_list(connection, shown, line)?;
            Ok(TurnEnd::GoesOn)
        }
        UserCommand::Logout => {
            ask_one(connection, shown, Request::Line(line))?;
            if is_bye(connection.line()) {
                Ok(TurnEnd::Over)
            } else {
                Ok(TurnEnd::GoesOn)
            }
        }
        UserCommand::Quit => {
            log_out(connection)?;
            Ok(TurnEnd::Over)
        }
        UserCommand::OneLine => {
            ask_one(connection, shown, Request::Line(line))?;
            Ok(TurnEnd::GoesOn)
        }
    }
}

/// Loads the file whose name is in this text, and shows the reply.
fn load<S: Source, T: Sink, O: Sink, C: Caller>(
    alloc: Global,
    connection: &mut Connection<S, T>,
    shown: &mut ReplyWriter<O>,
    caller: &mut C,
    text: &[u8],
) -> Result<TurnEnd, Fault> {
    let mut source = Vec::new(alloc);
    let name = text.trim_ascii();
    let found = caller.file(name, &mut source)?;
    if !found {
        return Ok(TurnEnd::LacksFile);
    }
    let text = source.as_slice();
    ask_one(connection, shown, Request::Load(text))?;
    shown.flush()?;
    explain(alloc, caller, NamedText { name, text }, connection.line())?;
    Ok(TurnEnd::GoesOn)
}

/// Has the caller told why a file is no module, if it was refused as one that is none.
fn explain<C: Caller>(
    alloc: Global,
    caller: &mut C,
    file: NamedText<'_>,
    reply: &[u8],
) -> Result<(), Fault> {
    if !is_bad_source(reply) {
        return Ok(());
    }
    let mut lines = Vec::new(alloc);
    let _is_refused = put_reasons(alloc, file, &mut lines)?;
    caller.explain(lines.as_slice());
    Ok(())
}
