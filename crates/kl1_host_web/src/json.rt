// Answers in JSON.

ghost use Rattle.std.specs.Prelude.{◌≡◌, ◌<◌, ◌++◌, ℕ, false, List, OnOk, IfOk};
ghost use Rattle.serde_json.specs.Data.{string, array, object, no_members, put as with_member, Items};
ghost use Rattle.serde_json.specs.View.{view};
ghost use Rattle.serde_json.specs.Written.{compact_text, has_float, items_have_float};
ghost use Rattle.kl1_session.specs.Replies.{told};
ghost use Rattle.kl1_host_door.specs.declared.answer.Content.TheVariants.{Json};
ghost use Rattle.kl1_host_web.specs.Telling.{IsRefusal, IsWait, shown, lines_data, IsReply, IsLoad, IsSyntax, IsNamed};
ghost use Rattle.kl1_host_web.specs.Beginning.{IsWelcome};

use crate::accounts::Accounts;
use kl1_command::{Performed, put_reply};
use kl1_host_door::{Answer, Content, Cookie, Refusal, Status, WebSession, status_of, words_of};
use kl1_lines::split_feed;
use kl1_reasons::{MOST_REASONS, Reason, reasons_of};
use kl1_user_events::Reply;
use serde_json::{Map, Value, json, push, put};
use std::alloc::{AllocError, Global};
use std::str;

/// An answer of a value.
pub(crate) fn told_value(
    alloc: Global,
    status: Status,
    cookie: Cookie,
    value: &Value,
) -> Result<Answer, AllocError>
    ensures head { IfOk result (λ answer. (answer.status ≡ status) × (answer.cookie ≡ cookie)) }
    ensures content { IfOk result (λ answer. answer.content ≡ Json) }
    ensures text { IfOk result (λ answer. has_float (view value.now) ≡ false → answer.body.items ≡ compact_text (view value.now)) }
{
    Ok(Answer {
        status,
        content: Content::Json,
        cookie,
        body: value.to_string(alloc)?.into_bytes(),
    })
}

/// An object of two members.
pub(crate) fn pair_value(
    alloc: Global,
    first: &str,
    one: Value,
    second: &str,
    other: Value,
) -> Result<Value, AllocError>
    ensures { IfOk result (λ value. view value ≡ object (with_member second.now (view other) (with_member first.now (view one) no_members))) }
{
    let mut map = Map::new(alloc);
    put(&mut map, alloc, first, one)?;
    put(&mut map, alloc, second, other)?;
    Ok(Value::Object(map))
}

/// The answer to a request that is refused.
pub fn refused(alloc: Global, refusal: Refusal) -> Result<Answer, AllocError>
    ensures { IfOk result (IsRefusal refusal) }
{
    let value = json!(in alloc; {"error": (words_of(refusal))})?;
    told_value(alloc, status_of(refusal), Cookie::Kept, &value)
}

/// The answer to who asks for an account that is being restored, of whose events so many are done.
pub(crate) fn restoring(alloc: Global, done: u64, all: u64) -> Result<Answer, AllocError>
    ensures { IfOk result IsWait }
{
    let words = format!(in alloc;
        "The account is being restored: {done} of its {all} events are done. Try again."
    )?;
    let value = json!(in alloc; {"error": (words.as_str())})?;
    told_value(alloc, Status::Unavailable, Cookie::Kept, &value)
}

/// Bytes as a text; nothing if they are none in UTF-8, as those of replies always are.
#[tactic(auto, using(crate::proofs::Answering::shown_whole, crate::proofs::Answering::shown_none))]
fn text_of(bytes: &[u8]) -> &str
    ensures { result.now ≡ shown bytes.now }
{
    match str::from_utf8(bytes) {
        Ok(text) => text,
        Err(_) => "",
    }
}

/// A text as a value.
pub(crate) fn text_value(alloc: Global, bytes: &[u8]) -> Result<Value, AllocError>
    ensures { IfOk result (λ value. view value ≡ string (shown bytes.now)) }
{
    let text = text_of(bytes);
    json!(in alloc; text)
}

/// Puts what is told of a command after the bytes.
fn put_performed(out: &mut Vec<u8>, performed: &Performed) -> Result<(), AllocError>
    ensures { OnOk result (out.new.items ≡ out.old.items ++ told performed.now) }
{
    match performed {
        Performed::Whole(reply) => put_reply(out, reply),
        Performed::Short { steps } => put_reply(out, &Reply::Ran(*steps)),
        Performed::Memory => out.extend_from_slice(b"- 10 memory\n"),
    }
}

/// The lines of a text, of which each has its end.
fn lines_value(alloc: Global, text: &[u8]) -> Result<Value, AllocError>
    ensures { IfOk result (λ value. view value ≡ lines_data text.now) }
{
    let mut lines = Vec::new(alloc);
    let mut rest = text;
    'lines: while let Some((line, others)) = split_feed(rest) {
        push(&mut lines, text_value(alloc, line)?)?;
        rest = others;
    }
    Ok(Value::Array(lines))
}

/// The lines that are told of a command.
fn reply_value(alloc: Global, performed: &Performed) -> Result<Value, AllocError>
    ensures { IfOk result (λ value. view value ≡ lines_data (told performed.now)) }
{
    let mut text = Vec::new(alloc);
    put_performed(&mut text, performed)?;
    lines_value(alloc, text.as_slice())
}

/// The answer to a command.
pub(crate) fn told_command(
    alloc: Global,
    performed: &Performed,
    cookie: Cookie,
) -> Result<Answer, AllocError>
    ensures { IfOk result (IsReply performed.now cookie) }
{
    let reply = reply_value(alloc, performed)?;
    let value = json!(in alloc; {"reply": reply})?;
    told_value(alloc, Status::Good, cookie, &value)
}

/// The name of an account as a value.
fn name_value<A: Accounts>(alloc: Global, accounts: &A, account: usize) -> Result<Value, AllocError>
    requires { account < (A.house accounts.now).accounts }
    ensures { IfOk result (λ value. view value ≡ string (shown ((A.house accounts.now).names account))) }
{
    let mut name = Vec::new(alloc);
    accounts.put_name(account, &mut name)?;
    text_value(alloc, name.as_slice())
}

/// The answer to a login: the name of the account and the token of the session, which a browser is told here alone, with its cookie.
pub(crate) fn told_session<A: Accounts>(
    alloc: Global,
    accounts: &A,
    session: &WebSession,
) -> Result<Answer, AllocError>
    requires { session.now.account < (A.house accounts.now).accounts }
    ensures { IfOk result (IsWelcome (A.house accounts.now).names session.now) }
{
    let name = name_value(alloc, accounts, session.account)?;
    let token = text_value(alloc, session.token.as_slice())?;
    let value = pair_value(alloc, "name", name, "token", token)?;
    told_value(alloc, Status::Good, Cookie::Set(session.id), &value)
}

/// The name of an account.
pub(crate) fn told_name<A: Accounts>(
    alloc: Global,
    accounts: &A,
    account: usize,
) -> Result<Answer, AllocError>
    requires { account < (A.house accounts.now).accounts }
    ensures { IfOk result (IsNamed ((A.house accounts.now).names account)) }
{
    let name = name_value(alloc, accounts, account)?;
    let value = json!(in alloc; {"name": name})?;
    told_value(alloc, Status::Good, Cookie::Kept, &value)
}

/// The answer to a line that is no command.
pub(crate) fn told_syntax(alloc: Global) -> Result<Answer, AllocError>
    ensures { IfOk result IsSyntax }
{
    let value = json!(in alloc; {"reply": ["- 1 syntax"]})?;
    told_value(alloc, Status::Good, Cookie::Kept, &value)
}

/// Puts hints on one line after the bytes.
fn put_hints(out: &mut Vec<u8>, hints: &[Vec<u8>]) -> Result<(), AllocError> {
    for hint in hints {
        if !out.is_empty() {
            out.extend_from_slice(b"; ")?;
        }
        out.extend_from_slice(hint.as_slice())?;
    }
    Ok(())
}

/// A reason with the place of which it tells.
fn reason_value(alloc: Global, reason: &Reason) -> Result<Value, AllocError>
    ensures { IfOk result (λ value. has_float (view value) ≡ false) }
{
    let mut hints = Vec::new(alloc);
    put_hints(&mut hints, reason.words.hints.as_slice())?;
    let why = text_value(alloc, reason.words.why.as_slice())?;
    let hint = text_value(alloc, hints.as_slice())?;
    json!(in alloc; {
        "line": (reason.place.line),
        "column": (reason.place.column),
        "why": why,
        "hint": hint
    })
}

/// The reasons why a source is refused; none if it isn't.
fn reasons_value(alloc: Global, source: &[u8]) -> Result<Value, AllocError>
    ensures { IfOk result (λ value. (reasons : Items) × (view value ≡ array reasons) × (items_have_float reasons ≡ false)) }
{
    let reasons = reasons_of(alloc, source, MOST_REASONS)?;
    let mut values = Vec::new(alloc);
    for reason in reasons.as_slice() {
        push(&mut values, reason_value(alloc, reason)?)?;
    }
    Ok(Value::Array(values))
}

/// The answer to a load.
pub(crate) fn told_load(
    alloc: Global,
    performed: &Performed,
    source: &[u8],
) -> Result<Answer, AllocError>
    ensures { IfOk result (IsLoad performed.now) }
{
    let reply = reply_value(alloc, performed)?;
    let reasons = reasons_value(alloc, source)?;
    let value = pair_value(alloc, "reply", reply, "reasons", reasons)?;
    told_value(alloc, Status::Good, Cookie::Kept, &value)
}
