// Why sources are refused.

ghost use Rattle.std.specs.Prelude.{◌≡◌, ◌++◌, ◌∷◌, [], None, All, length, List, IfOk, OnOk};
ghost use Rattle.kl1_reasons.specs.declared.reason.Reason as model;
ghost use Rattle.kl1_reasons_items.specs.Places.{first_place};
ghost use Rattle.kl1_reasons.specs.Reasons.{Explain, Explains, IsNext};

use crate::guess::{Guess, guess_on};
use crate::judged::line_refused;
use crate::reason::{Reason, reason_in};
use kl1_model::limits::MOST_SOURCE_BYTES;
use kl1_reasons_items::{Place, front_behind, item_on};
use kl1_reasons_words::Words;
use std::alloc::{AllocError, Global};

/// The most reasons that are told of one source.
pub const MOST_REASONS: usize = 20;

/// The reasons why a source is refused, in the order of its items: one for each that is bad, but at most `most`.
pub fn reasons_of(alloc: Global, text: &[u8], most: usize) -> Result<Vec<Reason>, AllocError>
    ensures { IfOk result (λ reasons. Explains most text.now reasons.items) }
{
    let mut reasons = Vec::new(alloc);
    if text.len() > MOST_SOURCE_BYTES {
        reasons.push(too_long(alloc, text)?)?;
        return Ok(reasons);
    }
    put_reasons(alloc, text, most, &mut reasons)?;
    Ok(reasons)
}

/// The reason for a source that is too long.
fn too_long(alloc: Global, text: &[u8]) -> Result<Reason, AllocError>
    ensures { IfOk result (λ reason. reason.place ≡ first_place) }
{
    let hint = Vec::from_slice(
        alloc,
        b"put some of its predicates into a module of their own",
    )?;
    let mut hints = Vec::new(alloc);
    hints.push(hint)?;
    Ok(Reason {
        line: 1,
        start: 0,
        at: 0,
        end: text.len(),
        place: Place { line: 1, column: 1 },
        words: Words {
            why: Vec::from_slice(alloc, b"a source has at most 65,536 bytes")?,
            hints,
        },
    })
}

/// Puts the reasons why a source that isn't too long is refused after none.
#[tactic(auto, using(crate::proofs::Explaining::so_far_begins, crate::proofs::Explaining::so_far_more, crate::proofs::Explaining::so_far_none, crate::proofs::Explaining::so_far_full))]
fn put_reasons(
    alloc: Global,
    text: &[u8],
    most: usize,
    reasons: &mut Vec<Reason>,
) -> Result<(), AllocError>
    requires { reasons.old.items ≡ [] }
    ensures { OnOk result (Explain most text.now None reasons.new.items) }
{
    let mut front = None;
    let mut left = most;
    while left > 0 {
        match next_reason(alloc, text, front)? {
            None => return Ok(()),
            Some(reason) => {
                front = Some(front_behind(text, reason.end));
                reasons.push(reason)?;
                left -= 1;
            }
        }
    }
    Ok(())
}

/// The next reason for a source whose front may be given up.
#[tactic(auto, using(crate::proofs::RefusedLines::refused_has_line))]
fn next_reason(
    alloc: Global,
    text: &[u8],
    front: Option<usize>,
) -> Result<Option<Reason>, AllocError>
    ensures { IfOk result (IsNext text.now front) }
{
    match line_refused(alloc, text, front)? {
        None => Ok(None),
        Some(line) => {
            let Guess { start, finding } = guess_on(alloc, text, front, line)?;
            let item = item_on(text, start, line);
            Ok(Some(reason_in(text, line, item, finding)))
        }
    }
}
