// What a session is asked.

ghost use Rattle.std.specs.Prelude.{◌≡◌, IfOk};
ghost use Rattle.kl1_model.specs.Record.{other_line};
ghost use Rattle.kl1_lines.specs.Records.{request_of};
ghost use Rattle.kl1_command.specs.Commands.{parsed_view};
ghost use Rattle.kl1_model_server.specs.Inputs.{input_of, input_by, login_in};
ghost use Rattle.kl1_session.specs.Asking.{input_view};

use kl1_command::{Command, Parsed, command_in, parse};
use kl1_lines::{Request, is_blank_line, is_same, split_word};
use kl1_model::Rules;
use kl1_model::limits::MOST_COMMAND_BYTES;
use kl1_user_events::Refusal;
use std::alloc::{AllocError, Global};

/// What a session is asked.
#[derive(Drop)]
pub enum Input {
    /// To log in to the account of this name by this key.
    Login { name: Vec<u8>, key: Vec<u8> },
    /// To do this command.
    Command(Command),
    /// What is no command, with the reason for which it is refused.
    Refused(Refusal),
}

/// The input that a request is, by the rules of the accounts.
pub(crate) fn input_in(
    alloc: Global,
    rules: Rules,
    request: Request<'_>,
) -> Result<Input, AllocError>
    ensures { IfOk result (λ input. input_view input ≡ input_of rules (request_of request.entry)) }
{
    match request {
        Request::Line(line) => line_input(alloc, rules, line),
        Request::Load(source) => Ok(input_by(command_in(alloc, rules, Request::Load(source))?)),
        Request::SpoiledLoad => Ok(Input::Refused(Refusal::Syntax)),
    }
}

/// The input that a parsed line is.
fn input_by(parsed: Parsed) -> Input
    ensures { input_view result ≡ input_by (parsed_view parsed) }
{
    match parsed {
        Parsed::Command(command) => Input::Command(command),
        Parsed::Refused => Input::Refused(Refusal::Syntax),
    }
}

/// The input that a line is.
fn line_input(alloc: Global, rules: Rules, line: &[u8]) -> Result<Input, AllocError>
    ensures { IfOk result (λ input. input_view input ≡ input_of rules (other_line line.now)) }
{
    let (word, rest) = split_word(line);
    if line.len() <= MOST_COMMAND_BYTES && is_same(word, b"login") {
        login_by(alloc, rest)
    } else {
        Ok(input_by(parse(alloc, rules, line)?))
    }
}

/// A login, from what stands after the word for it.
fn login_by(alloc: Global, line: &[u8]) -> Result<Input, AllocError>
    ensures { IfOk result (λ input. input_view input ≡ login_in line.now) }
{
    let (name, rest) = split_word(line);
    let (key, behind) = split_word(rest);
    if key.is_empty() || !is_blank_line(behind) {
        return Ok(Input::Refused(Refusal::Syntax));
    }
    Ok(Input::Login {
        name: Vec::from_slice(alloc, name)?,
        key: Vec::from_slice(alloc, key)?,
    })
}
