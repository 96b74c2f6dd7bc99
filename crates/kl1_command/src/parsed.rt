// The commands of lines and records.

ghost use Rattle.std.specs.Prelude.{◌≡◌, IfOk, Some, option_map};
ghost use Rattle.kl1_model.specs.declared.limits.TheConstants.{MOST_STEPS};
ghost use Rattle.kl1_model.specs.declared.message.Message.TheVariants.{Allow};
ghost use Rattle.kl1_model.specs.Line.{only_number, up_to};
ghost use Rattle.kl1_model.specs.Event.{value, status, control, reduce, read, forget};
ghost use Rattle.kl1_model.specs.Module.{read_goal};
ghost use Rattle.kl1_model.specs.Telling.{read_answer};
ghost use Rattle.kl1_model_server.specs.Command.{parse, command_by, command_of, does, run, by_two, start_command, start_with, answer_command, answer_with, reports_command, journal_command, alone_command};
ghost use Rattle.kl1_lines.specs.Records.{request_of};
ghost use Rattle.kl1_user_events.specs.Views.{event_of};
ghost use Rattle.kl1_command.specs.Commands.{parsed_view};

use crate::command::Command;
use kl1_lines::{Request, is_blank_line, is_same, number_in, only_number, split_word, up_to};
use kl1_model::limits::{MOST_COMMAND_BYTES, MOST_LISTED, MOST_PRIORITY, MOST_STEPS};
use kl1_model::{Message, Rules};
use kl1_read::{ReadFault, read_answer, read_goal};
use kl1_user_events::{ClauseNo, Event, GoalNo, Query, ShoenNo};
use std::alloc::{AllocError, Global};

/// What a line or a record asks for.
#[derive(Drop)]
pub enum Parsed {
    /// This command.
    Command(Command),
    /// No command, which is refused.
    Refused,
}

/// The command of a record by these rules.
pub fn command_in(alloc: Global, rules: Rules, request: Request<'_>) -> Result<Parsed, AllocError>
    ensures { IfOk result (λ parsed. parsed_view parsed ≡ command_of rules (request_of request.entry)) }
{
    match request {
        Request::Load(source) => {
            let source = Vec::from_slice(alloc, source)?;
            Ok(does(Event::Load { source }))
        }
        Request::SpoiledLoad => Ok(Parsed::Refused),
        Request::Line(line) => parse(alloc, rules, line),
    }
}

/// The command of a line by these rules, without its end. A load alone is none, since its source is not there.
pub fn parse(alloc: Global, rules: Rules, line: &[u8]) -> Result<Parsed, AllocError>
    ensures { IfOk result (λ parsed. parsed_view parsed ≡ parse rules line.now) }
{
    if line.len() > MOST_COMMAND_BYTES {
        return Ok(Parsed::Refused);
    }
    let (word, rest) = split_word(line);
    parse_by(alloc, rules, word, rest)
}

/// The command of a line by its first word and what is after it, by these rules.
fn parse_by(alloc: Global, rules: Rules, word: &[u8], rest: &[u8]) -> Result<Parsed, AllocError>
    ensures { IfOk result (λ parsed. parsed_view parsed ≡ command_by rules word.now rest.now) }
{
    if is_same(word, b"start") {
        parse_start(alloc, rest)
    } else if is_same(word, b"run") {
        Ok(parse_run(rest))
    } else if is_same(word, b"stop") {
        Ok(parse_send(Message::Stop, rest))
    } else if is_same(word, b"resume") {
        Ok(parse_send(Message::Start, rest))
    } else if is_same(word, b"abort") {
        Ok(parse_send(Message::Abort, rest))
    } else if is_same(word, b"allow") {
        Ok(parse_allow(rest))
    } else if is_same(word, b"value") {
        Ok(parse_value(rest))
    } else if is_same(word, b"status") {
        Ok(parse_status(rest))
    } else if is_same(word, b"reports") {
        Ok(parse_reports(rest))
    } else if is_same(word, b"modules") {
        Ok(parse_alone(Event::Read(Query::Modules), rest))
    } else if is_same(word, b"quiet") {
        Ok(parse_alone(Event::Read(Query::Quiet), rest))
    } else if is_same(word, b"reduce") {
        Ok(parse_reduce(rest))
    } else if is_same(word, b"journal") {
        Ok(parse_journal(rest))
    } else if is_same(word, b"login") {
        Ok(parse_alone(Event::Login, rest))
    } else if is_same(word, b"logout") {
        Ok(parse_alone(Event::Logout, rest))
    } else if is_same(word, b"reset") {
        Ok(parse_alone(Event::Reset, rest))
    } else if is_same(word, b"answer") {
        parse_answer(alloc, rules, rest)
    } else if is_same(word, b"forget") && rules.has_forgetting() {
        Ok(parse_forget(rest))
    } else {
        Ok(Parsed::Refused)
    }
}

/// The command that is one event.
fn does(event: Event) -> Parsed
    ensures { parsed_view result ≡ Some (does (event_of event)) }
{
    Parsed::Command(Command::Does(event))
}

/// What stands after `run`.
fn parse_run(rest: &[u8]) -> Parsed
    ensures { parsed_view result ≡ option_map run (up_to MOST_STEPS (only_number rest.now)) }
{
    match up_to(MOST_STEPS, only_number(rest)) {
        Some(steps) => Parsed::Command(Command::Run(steps)),
        None => Parsed::Refused,
    }
}

/// What stands after `stop`, `resume` and `abort`, by which this message is sent.
fn parse_send(message: Message, rest: &[u8]) -> Parsed
    ensures { parsed_view result ≡ option_map (λ n. does (control n message)) (only_number rest.now) }
{
    match only_number(rest) {
        Some(shoen) => does(Event::Control {
            shoen: ShoenNo(shoen),
            message,
        }),
        None => Parsed::Refused,
    }
}

/// What stands after `allow`.
fn parse_allow(rest: &[u8]) -> Parsed
    ensures { parsed_view result ≡ by_two (λ n more. Some (does (control n (Allow more)))) rest.now }
{
    let (first, rest) = split_word(rest);
    let Some(shoen) = number_in(first) else {
        return Parsed::Refused;
    };
    let Some(more) = only_number(rest) else {
        return Parsed::Refused;
    };
    does(Event::Control {
        shoen: ShoenNo(shoen),
        message: Message::Allow(more),
    })
}

/// What stands after `value`.
fn parse_value(rest: &[u8]) -> Parsed
    ensures { parsed_view result ≡ option_map (λ n. does (read (value n))) (only_number rest.now) }
{
    match only_number(rest) {
        Some(shoen) => does(Event::Read(Query::Value(ShoenNo(shoen)))),
        None => Parsed::Refused,
    }
}

/// What stands after `status`.
fn parse_status(rest: &[u8]) -> Parsed
    ensures { parsed_view result ≡ option_map (λ n. does (read (status n))) (only_number rest.now) }
{
    match only_number(rest) {
        Some(shoen) => does(Event::Read(Query::Status(ShoenNo(shoen)))),
        None => Parsed::Refused,
    }
}

/// What stands after `reports`: a shoen's number, and that of the first report, from 1.
fn parse_reports(rest: &[u8]) -> Parsed
    ensures { parsed_view result ≡ reports_command rest.now }
{
    let (first, rest) = split_word(rest);
    let Some(shoen) = number_in(first) else {
        return Parsed::Refused;
    };
    let Some(from) = only_number(rest) else {
        return Parsed::Refused;
    };
    if from < 1 {
        return Parsed::Refused;
    }
    does(Event::Read(Query::Reports {
        shoen: ShoenNo(shoen),
        from,
    }))
}

/// An event whose word has nothing after it.
fn parse_alone(event: Event, rest: &[u8]) -> Parsed
    ensures { parsed_view result ≡ alone_command (event_of event) rest.now }
{
    if is_blank_line(rest) {
        does(event)
    } else {
        Parsed::Refused
    }
}

/// What stands after `journal`: a line's number, from 1, and how many lines at most, from 1.
fn parse_journal(rest: &[u8]) -> Parsed
    ensures { parsed_view result ≡ journal_command rest.now }
{
    let (first, rest) = split_word(rest);
    let Some(from) = number_in(first) else {
        return Parsed::Refused;
    };
    let Some(count) = only_number(rest) else {
        return Parsed::Refused;
    };
    if from < 1 || count < 1 || count > MOST_LISTED as u64 {
        return Parsed::Refused;
    }
    Parsed::Command(Command::Shows { from, count })
}

/// What stands after `reduce`.
fn parse_reduce(rest: &[u8]) -> Parsed
    ensures { parsed_view result ≡ by_two (λ goal clause. Some (does (reduce goal clause))) rest.now }
{
    let (first, rest) = split_word(rest);
    let Some(goal) = number_in(first) else {
        return Parsed::Refused;
    };
    let Some(clause) = only_number(rest) else {
        return Parsed::Refused;
    };
    does(Event::Reduce {
        goal: GoalNo(goal),
        clause: ClauseNo(clause),
    })
}

/// What stands after `start`.
fn parse_start(alloc: Global, rest: &[u8]) -> Result<Parsed, AllocError>
    ensures { IfOk result (λ parsed. parsed_view parsed ≡ start_command rest.now) }
{
    let (first, rest) = split_word(rest);
    let (second, rest) = split_word(rest);
    let (third, goal) = split_word(rest);
    let Some(allowance) = number_in(first) else {
        return Ok(Parsed::Refused);
    };
    let Some(low) = number_in(second) else {
        return Ok(Parsed::Refused);
    };
    let Some(high) = number_in(third) else {
        return Ok(Parsed::Refused);
    };
    start_of(alloc, allowance, low, high, goal)
}

#[tactic(auto, using(crate::proofs::Starts::out_of_order, crate::proofs::Starts::too_great))]
/// The start of the goal that bytes are, if the priorities are a range and there is one.
fn start_of(
    alloc: Global,
    allowance: u64,
    low: u64,
    high: u64,
    goal: &[u8],
) -> Result<Parsed, AllocError>
    ensures { IfOk result (λ parsed. parsed_view parsed ≡ start_with allowance low high (read_goal goal.now)) }
{
    if low > high {
        return Ok(Parsed::Refused);
    }
    if high > MOST_PRIORITY {
        return Ok(Parsed::Refused);
    }
    match read_goal(alloc, goal) {
        Ok(goal) => Ok(does(Event::Start {
            allowance,
            low,
            high,
            goal,
        })),
        Err(ReadFault::Bad { line: _line }) => Ok(Parsed::Refused),
        Err(ReadFault::Memory) => Err(AllocError),
    }
}

/// What stands after `forget`: a shoen's number, and how many reports.
fn parse_forget(rest: &[u8]) -> Parsed
    ensures { parsed_view result ≡ by_two (λ n count. Some (does (forget n count))) rest.now }
{
    let (first, rest) = split_word(rest);
    let Some(shoen) = number_in(first) else {
        return Parsed::Refused;
    };
    let Some(count) = only_number(rest) else {
        return Parsed::Refused;
    };
    does(Event::Forget {
        shoen: ShoenNo(shoen),
        count,
    })
}

/// What stands after `answer`: a shoen's number, a report's, from 1, and then a goal, as these rules read it.
fn parse_answer(alloc: Global, rules: Rules, rest: &[u8]) -> Result<Parsed, AllocError>
    ensures { IfOk result (λ parsed. parsed_view parsed ≡ answer_command rules rest.now) }
{
    let (first, rest) = split_word(rest);
    let (second, goal) = split_word(rest);
    let Some(shoen) = number_in(first) else {
        return Ok(Parsed::Refused);
    };
    let Some(report) = number_in(second) else {
        return Ok(Parsed::Refused);
    };
    answer_of(alloc, rules, shoen, report, goal)
}

/// The answer with the goal that bytes are, if the report's number is at least 1 and there is one.
#[tactic(auto, using(crate::proofs::Starts::no_report))]
fn answer_of(
    alloc: Global,
    rules: Rules,
    shoen: u64,
    report: u64,
    goal: &[u8],
) -> Result<Parsed, AllocError>
    ensures { IfOk result (λ parsed. parsed_view parsed ≡ answer_with shoen report (read_answer rules goal.now)) }
{
    if report < 1 {
        return Ok(Parsed::Refused);
    }
    match read_answer(alloc, rules, goal) {
        Ok(goal) => Ok(does(Event::Answer {
            shoen: ShoenNo(shoen),
            report,
            goal,
        })),
        Err(ReadFault::Bad { line: _line }) => Ok(Parsed::Refused),
        Err(ReadFault::Memory) => Err(AllocError),
    }
}
