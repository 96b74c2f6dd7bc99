// What an account shows, and what the host has done, as answers.

ghost use Rattle.std.specs.Prelude.{◌≡◌, false, slice_get, IfOk};
ghost use Rattle.serde_json.specs.Data.{array, Items};
ghost use Rattle.serde_json.specs.View.{view};
ghost use Rattle.serde_json.specs.Written.{has_float, items_have_float};
ghost use Rattle.kl1_host_page.specs.Files.{file_at};
ghost use Rattle.kl1_host_web.specs.Telling.{IsView, IsFile, IsPage, IsShoens, ShowsAll, number_data};

use crate::accounts::{Accounts, Stop, Viewer};
use crate::json::{pair_value, refused, text_value, told_value};
use crate::metrics::put_metrics;
use crate::waiting::waiting_value;
use kl1_command::Performed;
use kl1_host_door::limits::SHOENS_A_PAGE;
use kl1_host_door::{Answer, Ask, Content, Cookie, Refusal, Status};
use kl1_host_page::file_at;
use kl1_lines::{number_in, put_decimal, split_name};
use kl1_model::Condition;
use kl1_user_events::{Reply, ShoenNo, ShoenView, Usage, Used};
use serde_json::{Value, json, push};
use std::alloc::{AllocError, Global};

/// What there is of something, and the most that there may be.
fn used_value(alloc: Global, used: Used) -> Result<Value, AllocError> {
    json!(in alloc; {"count": (used.count), "most": (used.most)})
}

/// What an account has of what is limited.
fn usage_value(alloc: Global, usage: &Usage) -> Result<Value, AllocError> {
    let goals = used_value(alloc, usage.goals)?;
    let names = used_value(alloc, usage.names)?;
    let shoens = used_value(alloc, usage.shoens)?;
    let variables = used_value(alloc, usage.variables)?;
    let structures = used_value(alloc, usage.structures)?;
    let reports = used_value(alloc, usage.reports)?;
    let entries = used_value(alloc, usage.entries)?;
    json!(in alloc; {
        "goals": goals,
        "names": names,
        "shoens": shoens,
        "variables": variables,
        "structures": structures,
        "reports": reports,
        "entries": entries
    })
}

/// A module, from its line of a reply: its name, the bytes of its source, and its clauses. A name in quotes may have blanks, so the
/// numbers are taken from the end.
fn module_value(alloc: Global, line: &[u8]) -> Result<Value, AllocError> {
    let (rest, clauses) = cut_last(line);
    let (name, bytes) = cut_last(rest);
    let name = text_value(alloc, name)?;
    let bytes = number_in(bytes).unwrap_or(0);
    let clauses = number_in(clauses).unwrap_or(0);
    json!(in alloc; {"name": name, "bytes": bytes, "clauses": clauses})
}

/// What stands before the last space of a line, and what after it.
fn cut_last(line: &[u8]) -> (&[u8], &[u8]) {
    match line.iter().rposition(|byte| *byte == b' ') {
        Some(place) if place < line.len() => (&line[..place], &line[place + 1..]),
        _ => (line, &[]),
    }
}

/// The modules that a reply lists.
fn modules_value(alloc: Global, performed: &Performed) -> Result<Value, AllocError> {
    let mut values = Vec::new(alloc);
    if let Performed::Whole(Reply::Listed(listed)) = performed {
        for line in listed.texts() {
            push(&mut values, module_value(alloc, line.as_slice())?)?;
        }
    }
    Ok(Value::Array(values))
}

/// Why an account does no more, as a value.
fn stopped_value(alloc: Global, stopped: Option<Stop>) -> Result<Value, AllocError> {
    match stopped {
        None => Ok(Value::Null),
        Some(Stop::Disk) => json!(in alloc; "disk"),
        Some(Stop::Memory) => json!(in alloc; "memory"),
    }
}

/// What an account has of what is limited, its modules, and whether it is quiet.
fn account_value<V: Viewer>(
    alloc: Global,
    viewer: &mut V,
    name: &[u8],
    quiet: &Performed,
    modules: &Performed,
) -> Result<Value, AllocError> {
    let name = text_value(alloc, name)?;
    let quiet = matches!(quiet, Performed::Whole(Reply::Quiet(true)));
    let usage = viewer.usage()?;
    let usage = usage_value(alloc, &usage)?;
    let stopped = stopped_value(alloc, viewer.stopped())?;
    let modules = modules_value(alloc, modules)?;
    json!(in alloc; {
        "name": name,
        "quiet": quiet,
        "stopped": stopped,
        "usage": usage,
        "modules": modules
    })
}

/// What an account has of what is limited, its modules, and whether it is quiet.
pub(crate) fn account_page<V: Viewer>(
    alloc: Global,
    viewer: &mut V,
    name: &[u8],
    quiet: &Performed,
    modules: &Performed,
) -> Result<Answer, AllocError>
    ensures { IfOk result IsView }
{
    let value = account_value(alloc, viewer, name, quiet, modules)?;
    told_value(alloc, Status::Good, Cookie::Kept, &value)
}

/// The word for the state of a shoen.
fn condition_word(condition: Condition) -> &'static str {
    match condition {
        Condition::Terminated => "terminated",
        Condition::Aborted => "aborted",
        Condition::Stopped => "stopped",
        Condition::Exhausted => "exhausted",
        Condition::Running => "running",
    }
}

/// A number that may be greater than a browser's are exact, as a text.
fn large_value(alloc: Global, number: u64) -> Result<Value, AllocError>
    ensures { IfOk result (λ value. has_float (view value) ≡ false) }
{
    let mut text = Vec::new(alloc);
    put_decimal(&mut text, number)?;
    text_value(alloc, text.as_slice())
}

/// The number of a shoen, if there is one.
fn shoen_value(alloc: Global, shoen: Option<ShoenNo>) -> Result<Value, AllocError>
    ensures { IfOk result (λ value. has_float (view value) ≡ false) }
{
    match shoen {
        None => Ok(Value::Null),
        Some(ShoenNo(number)) => json!(in alloc; number),
    }
}

/// A shoen.
fn view_value(alloc: Global, shoen: &ShoenView) -> Result<Value, AllocError>
    ensures { IfOk result (λ value. has_float (view value) ≡ false) }
{
    let parent = shoen_value(alloc, shoen.parent)?;
    let charged = large_value(alloc, shoen.charged)?;
    let allowance = large_value(alloc, shoen.allowance)?;
    json!(in alloc; {
        "number": (shoen.number.0),
        "parent": parent,
        "condition": (condition_word(shoen.condition)),
        "charged": charged,
        "allowance": allowance,
        "alive": (shoen.alive)
    })
}

/// The number of the shoen at a place, if there is one.
fn next_value(alloc: Global, views: &[ShoenView], place: usize) -> Result<Value, AllocError>
    ensures { IfOk result (λ value. view value ≡ number_data (slice_get views.now place)) }
{
    match views.get(place) {
        None => Ok(Value::Null),
        Some(view) => json!(in alloc; (view.number.0)),
    }
}

/// The first shoens of these, as many as a page has.
fn shoens_value(alloc: Global, views: &[ShoenView]) -> Result<Value, AllocError>
    ensures { IfOk result (λ value. (shoens : Items) × (view value ≡ array shoens) × (items_have_float shoens ≡ false)) }
{
    let mut shoens = Vec::new(alloc);
    for view in &views[..views.len().min(SHOENS_A_PAGE)] {
        push(&mut shoens, view_value(alloc, view)?)?;
    }
    Ok(Value::Array(shoens))
}

/// The shoens from one on, and the number of the first of the next page.
pub(crate) fn shoens_page<V: Viewer>(
    alloc: Global,
    viewer: &mut V,
    from: u64,
) -> Result<Answer, AllocError>
    ensures { IfOk result (IsShoens (V.lists (V.account viewer.old)) from) }
{
    let views = viewer.shoens_from(ShoenNo(from), SHOENS_A_PAGE + 1)?;
    let next = next_value(alloc, views.as_slice(), SHOENS_A_PAGE)?;
    let shoens = shoens_value(alloc, views.as_slice())?;
    let value = pair_value(alloc, "next", next, "shoens", shoens)?;
    told_value(alloc, Status::Good, Cookie::Kept, &value)
}

/// The goals that wait.
pub(crate) fn waiting_page<V: Viewer>(alloc: Global, viewer: &mut V) -> Result<Answer, AllocError>
    ensures { IfOk result IsView }
{
    let value = waiting_value(alloc, viewer)?;
    told_value(alloc, Status::Good, Cookie::Kept, &value)
}

/// A text as an answer.
fn told_text(alloc: Global, content: Content, text: &[u8]) -> Result<Answer, AllocError>
    ensures { IfOk result (IsFile content text.now) }
{
    Ok(Answer {
        status: Status::Good,
        content,
        cookie: Cookie::Kept,
        body: Vec::from_slice(alloc, text)?,
    })
}

/// The file of the page at a path.
#[tactic(auto, using(crate::proofs::Wanting::page_is))]
fn file_page(alloc: Global, path: &[u8]) -> Result<Answer, AllocError>
    ensures { IfOk result (IsPage (file_at path.now)) }
{
    match file_at(path) {
        Some(file) => told_text(alloc, file.content, file.text.as_bytes()),
        None => refused(alloc, Refusal::NoPage),
    }
}

/// What is of no account: a file of the page, what the host has done, or that it is there.
pub(crate) fn open_page<A: Accounts>(
    alloc: Global,
    accounts: &A,
    ask: Ask,
    target: &[u8],
) -> Result<Answer, AllocError>
    ensures { IfOk result (ShowsAll ask target.now) }
{
    match ask {
        Ask::File => file_page(alloc, target),
        Ask::Metrics => {
            let mut text = Vec::new(alloc);
            put_metrics(&mut text, accounts)?;
            told_text(alloc, Content::Text, text.as_slice())
        }
        Ask::Health => told_text(alloc, Content::Text, b"ok\n"),
        _ => refused(alloc, Refusal::NoPage),
    }
}
