// Why goals are refused.

ghost use Rattle.std.specs.Prelude.{IfOk};
ghost use Rattle.kl1_reasons.specs.Reasons.{ExplainsGoal};

use crate::predicates::Predicates;
use crate::reason::Reason;
use kl1_read::{ReadFault, read_goal};
use kl1_reasons_items::{Item, Token, place_of, tokens_of};
use kl1_reasons_words::{Finding, Main, Outline, Part, Role, Say, Step, known, said};
use kl1_text::AtomText;
use std::alloc::{AllocError, Global};

/// The most bytes of a goal that a hint repeats.
const MOST_REPEATED: usize = 200;

/// Why a text is no goal, if it is none. `modules` are those that a hint may name.
pub fn reason_of_goal(
    alloc: Global,
    text: &[u8],
    modules: &[Predicates],
) -> Result<Option<Reason>, AllocError>
    ensures { IfOk result (ExplainsGoal text.now) }
{
    match read_goal(alloc, text) {
        Ok(_goal) => Ok(None),
        Err(ReadFault::Memory) => Err(AllocError),
        Err(ReadFault::Bad { line }) => {
            let Finding { at, words } = goal_finding(alloc, text, modules)?;
            let at = at.min(text.len());
            Ok(Some(Reason {
                line,
                start: 0,
                at,
                end: text.len(),
                place: place_of(text, at),
                words,
            }))
        }
    }
}

/// What is wrong with a text that is no goal.
fn goal_finding(alloc: Global, text: &[u8], modules: &[Predicates]) -> Result<Finding, AllocError> {
    let item = Item {
        start: 0,
        end: text.len(),
    };
    let tokens = tokens_of(alloc, text, item)?;
    if let Some(found) = token_finding(alloc, text, tokens.as_slice(), modules)? {
        return Ok(found);
    }
    known(
        alloc,
        0,
        b"this is no goal",
        b"a goal is module:predicate(..)",
    )
}

/// What is wrong with tokens that are no goal, as they show it.
fn token_finding(alloc: Global, text: &[u8], tokens: &[Token], modules: &[Predicates]) -> Step {
    let Some(first) = tokens.first() else {
        return Ok(Some(known(
            alloc,
            0,
            b"a goal is wanted",
            b"a goal is module:predicate(..)",
        )?));
    };
    let mut outline = Outline::new(alloc, text, tokens, *first, Role::Goal);
    if let Some(found) = outline.read()? {
        return Ok(Some(found));
    }
    match outline.head() {
        Some(part) => part_finding(alloc, &outline, part, modules),
        None => Ok(None),
    }
}

/// What is wrong with the one part of a text that is no goal.
fn part_finding(alloc: Global, outline: &Outline<'_>, part: &Part, modules: &[Predicates]) -> Step {
    if let Some(found) = outline.check_goal(part)? {
        return Ok(Some(found));
    }
    match (part.main, outline.tokens.get(part.place)) {
        (Main::Name, Some(name)) => no_module(alloc, outline, name, part.count, modules),
        _ => outline.check_depth(),
    }
}

/// What is told of a goal that names no module: which one has its predicate, or else the first.
fn no_module(
    alloc: Global,
    outline: &Outline<'_>,
    name: &Token,
    count: u64,
    modules: &[Predicates],
) -> Step {
    let bytes = name.bytes(outline.text);
    let named = match AtomText::read(name.name(outline.text)) {
        Some(predicate) => module_with(modules, &predicate, count),
        None => AtomText::of(b"m"),
    }
    .unpacked();
    // A goal that is long or has several lines isn't repeated in a hint.
    let goal = if outline.text.len() > MOST_REPEATED || outline.text.contains(&b'\n') {
        bytes
    } else {
        outline.text
    };
    let hint = qualified(alloc, named.as_slice(), goal)?;
    outline.say(
        name.start,
        &[
            Say::Text(bytes),
            Say::Text(b"/"),
            Say::Number(count),
            Say::Text(b" names no module"),
        ],
        &[Say::Text(hint.as_slice())],
    )
}

/// The hint to write a goal with its module.
fn qualified<'t>(alloc: Global, module: &'t [u8], goal: &'t [u8]) -> Result<Vec<u8>, AllocError> {
    let parts = [
        Say::Text(b"write "),
        Say::Text(module),
        Say::Text(b":"),
        Say::Text(goal),
    ];
    said(alloc, &parts)
}

/// The name of the module that has a predicate with `count` arguments, or else of the first, or `m`.
fn module_with(modules: &[Predicates], predicate: &AtomText, count: u64) -> AtomText {
    let mut name = None;
    for module in modules {
        if module.has(predicate, count) {
            return module.module.unwrap_or(AtomText::of(b"m"));
        }
        name = name.or(module.module);
    }
    name.unwrap_or(AtomText::of(b"m"))
}
