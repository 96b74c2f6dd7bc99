// What a request asks for.

ghost use Rattle.std.specs.Prelude.{◌≡◌};
ghost use Rattle.kl1_host_door.specs.Asks.{method_in, is_change, fits, path_of, ask_at, ask_by, page_by, ask_of};

use crate::refusal::Refusal;
use kl1_lines::number_in;

/// How a request is made.
#[derive(Clone, Copy)]
pub enum Method {
    Get,
    Post,
}

/// What a request asks for.
#[derive(Clone, Copy)]
pub enum Ask {
    /// A file of the page, or a path at which nothing stands.
    File,
    /// To open a session.
    Login,
    /// Whose session it is.
    Session,
    /// To close the session.
    Logout,
    /// To do a command.
    Command,
    /// To load a module.
    Load,
    /// What the account has of what is limited, and its modules.
    Account,
    /// The shoens with numbers from one on.
    Shoens(u64),
    /// The goals that wait.
    Waiting,
    /// What the host has done.
    Metrics,
    /// Whether the host is there.
    Health,
}

/// What stands at paths of its own.
const NAMED: [Ask; 10] = [
    Ask::Login,
    Ask::Session,
    Ask::Logout,
    Ask::Command,
    Ask::Load,
    Ask::Account,
    Ask::Shoens(1),
    Ask::Waiting,
    Ask::Metrics,
    Ask::Health,
];

/// The path of a page of shoens up to the number.
const SHOENS_FROM: &[u8] = b"/api/shoens?from=";

/// The method that a word names.
pub(crate) fn method_in(word: &[u8]) -> Option<Method>
    ensures { result ≡ method_in word.now }
{
    if word == b"GET".as_slice() {
        Some(Method::Get)
    } else if word == b"POST".as_slice() {
        Some(Method::Post)
    } else {
        None
    }
}

/// Whether something changes by what is asked for.
pub(crate) fn is_change(ask: Ask) -> bool
    ensures { result ≡ is_change ask }
{
    match ask {
        Ask::Login => true,
        Ask::Logout => true,
        Ask::Command => true,
        Ask::Load => true,
        _ => false,
    }
}

/// Whether something is asked for by its method.
fn fits(method: Method, ask: Ask) -> bool
    ensures { result ≡ fits method ask }
{
    match method {
        Method::Get => !is_change(ask),
        Method::Post => is_change(ask),
    }
}

/// The path at which something stands; empty if it is a file.
fn path_of(ask: Ask) -> &'static [u8]
    ensures { result.now ≡ path_of ask }
{
    match ask {
        Ask::File => b"",
        Ask::Login => b"/api/login",
        Ask::Session => b"/api/session",
        Ask::Logout => b"/api/logout",
        Ask::Command => b"/api/command",
        Ask::Load => b"/api/load",
        Ask::Account => b"/api/account",
        Ask::Shoens(_) => b"/api/shoens",
        Ask::Waiting => b"/api/waiting",
        Ask::Metrics => b"/metrics",
        Ask::Health => b"/healthz",
    }
}

/// What stands at a path.
fn ask_at(path: &[u8]) -> Ask
    ensures { result ≡ ask_at path.now }
{
    let mut rest = NAMED.as_slice();
    while let [first, others @ ..] = rest {
        if path == path_of(*first) {
            return *first;
        }
        rest = others;
    }
    Ask::File
}

/// What is asked for, if it is by its method.
fn ask_by(method: Method, ask: Ask) -> Result<Ask, Refusal>
    ensures { result ≡ ask_by method ask }
{
    if fits(method, ask) {
        Ok(ask)
    } else {
        Err(Refusal::Method)
    }
}

/// The page of shoens that these digits ask for.
fn page_by(method: Method, digits: &[u8]) -> Result<Ask, Refusal>
    ensures { result ≡ page_by method digits.now }
{
    match number_in(digits) {
        Some(from) => ask_by(method, Ask::Shoens(from)),
        None => Err(Refusal::Query),
    }
}

/// What a request by a method asks for of a target: a path, or a page of shoens by the number of the first.
pub(crate) fn ask_of(method: Method, target: &[u8]) -> Result<Ask, Refusal>
    ensures { result ≡ ask_of method target.now }
{
    if target.starts_with(SHOENS_FROM) {
        let digits = &target[SHOENS_FROM.len()..];
        return page_by(method, digits);
    }
    if target.contains(&b'?') {
        return Err(Refusal::Query);
    }
    ask_by(method, ask_at(target))
}
