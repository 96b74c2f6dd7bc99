// What a request that is let in asks to be done.

ghost use Rattle.std.specs.Prelude.{◌≡◌, IfOk, option_map};
ghost use Rattle.kl1_command.specs.Commands.{parsed_view, command_view};
ghost use Rattle.kl1_host_web.specs.Wishes.{wish_view, IsRead, text_in, login_in, is_plain, plain, command_in, load_in, owned, anyone, IsWish};

use kl1_command::{Command, Parsed, parse};
use kl1_host_door::{Allowed, Ask, Refusal};
use kl1_model::Rules;
use kl1_user_events::Event;
use serde_json::Value;
use std::alloc::{AllocError, Global};

/// What a request asks to be done. Accounts are numbers, from 0.
#[derive(Drop)]
pub enum Wish {
    /// It is refused.
    Refuse(Refusal),
    /// It is a line that is no command.
    Syntax,
    /// To let in by this name and key.
    Enter { name: Vec<u8>, key: Vec<u8> },
    /// To close the session of an account.
    Leave { account: usize },
    /// To do a command to an account.
    Do { account: usize, command: Command },
    /// To load a module into an account.
    Load { account: usize, source: Vec<u8> },
    /// To tell which account this is.
    Tell(usize),
    /// To show something of an account.
    Show { account: usize, ask: Ask },
    /// To show what is of no account.
    Open(Ask),
}

/// What is read from a body, if it is JSON.
fn read_body(alloc: Global, body: &[u8]) -> Result<Option<Value>, AllocError>
    ensures { IfOk result (IsRead body.now) }
{
    match Value::from_slice(alloc, body) {
        Ok(value) => Ok(Some(value)),
        Err(error) => {
            if error.is_memory() {
                Err(AllocError)
            } else {
                Ok(None)
            }
        }
    }
}

/// The text that a member of a value is, if there is a value.
fn text_in<'v>(value: &'v Option<Value>, name: &str) -> Option<&'v str>
    ensures { option_map (λ text. text.now) result ≡ text_in name.now value.now }
{
    match value {
        None => None,
        Some(value) => value.get(name).and_then(Value::as_str),
    }
}

/// A login by the name and the key of a value.
fn login_in(alloc: Global, value: &Option<Value>) -> Result<Wish, AllocError>
    ensures { IfOk result (λ wish. wish_view wish ≡ login_in value.now) }
{
    let Some(name) = text_in(value, "name") else {
        return Ok(Wish::Refuse(Refusal::BadBody));
    };
    let Some(key) = text_in(value, "key") else {
        return Ok(Wish::Refuse(Refusal::BadBody));
    };
    Ok(Wish::Enter {
        name: Vec::from_slice(alloc, name.as_bytes())?,
        key: Vec::from_slice(alloc, key.as_bytes())?,
    })
}

/// Whether a command may come from a browser: logins, logouts and loads come otherwise.
fn is_plain(command: &Command) -> bool
    ensures { result ≡ is_plain (command_view command.now) }
{
    match command {
        Command::Does(Event::Login) => false,
        Command::Does(Event::Logout) => false,
        Command::Does(Event::Load { .. }) => false,
        _ => true,
    }
}

/// A command that was parsed, done to an account.
fn plain_wish(account: usize, parsed: Parsed) -> Wish
    ensures { wish_view result ≡ plain account (parsed_view parsed) }
{
    match parsed {
        Parsed::Refused => Wish::Syntax,
        Parsed::Command(command) => {
            if is_plain(&command) {
                Wish::Do { account, command }
            } else {
                Wish::Syntax
            }
        }
    }
}

/// The command that the line of a value is, done to an account.
fn command_in(alloc: Global, account: usize, value: &Option<Value>) -> Result<Wish, AllocError>
    ensures { IfOk result (λ wish. wish_view wish ≡ command_in account value.now) }
{
    match text_in(value, "line") {
        None => Ok(Wish::Refuse(Refusal::BadBody)),
        Some(line) => Ok(plain_wish(account, parse(alloc, Rules::Five, line.as_bytes())?)),
    }
}

/// The load of the text of a value into an account.
fn load_in(alloc: Global, account: usize, value: &Option<Value>) -> Result<Wish, AllocError>
    ensures { IfOk result (λ wish. wish_view wish ≡ load_in account value.now) }
{
    match text_in(value, "text") {
        None => Ok(Wish::Refuse(Refusal::BadBody)),
        Some(text) => Ok(Wish::Load {
            account,
            source: Vec::from_slice(alloc, text.as_bytes())?,
        }),
    }
}

/// What is asked of the account of this number.
fn owned_wish(
    alloc: Global,
    account: usize,
    ask: Ask,
    value: &Option<Value>,
) -> Result<Wish, AllocError>
    ensures { IfOk result (λ wish. wish_view wish ≡ owned account ask value.now) }
{
    match ask {
        Ask::Session => Ok(Wish::Tell(account)),
        Ask::Logout => Ok(Wish::Leave { account }),
        Ask::Command => command_in(alloc, account, value),
        Ask::Load => load_in(alloc, account, value),
        _ => Ok(Wish::Show { account, ask }),
    }
}

/// What is asked without a session.
fn open_wish(alloc: Global, ask: Ask, value: &Option<Value>) -> Result<Wish, AllocError>
    ensures { IfOk result (λ wish. wish_view wish ≡ anyone ask value.now) }
{
    match ask {
        Ask::Login => login_in(alloc, value),
        _ => Ok(Wish::Open(ask)),
    }
}

/// What a request that is let in asks to be done.
pub fn wish_of(alloc: Global, allowed: &Allowed, body: &[u8]) -> Result<Wish, AllocError>
    ensures { IfOk result (IsWish allowed.now body.now) }
{
    let value = read_body(alloc, body)?;
    match allowed {
        Allowed::Anyone(ask) => open_wish(alloc, *ask, &value),
        Allowed::Owner { account, ask, .. } => owned_wish(alloc, *account, *ask, &value),
    }
}
