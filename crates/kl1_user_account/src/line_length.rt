// Whether the lines of a journal for starts and answers are too long.

ghost use Rattle.std.specs.Prelude.{◌≡◌, ◌≤◌, ◌+◌, ◌++◌, ◌∷◌, [], nat_le, decimal, codes, length, IsTrue, IfOk, OnOk};
ghost use Rattle.kl1_model.specs.Print.{print};
ghost use Rattle.kl1_model.specs.Meaning.{is_writable};
ghost use Rattle.kl1_model.specs.Opening.{start_line};
ghost use Rattle.kl1_model.specs.Answering.{answer_line};
ghost use Rattle.kl1_model.specs.declared.limits.TheConstants.{MOST_LINE_BYTES};

use itoa::Buffer;
use kl1_model::limits::MOST_LINE_BYTES;
use kl1_term::{Term, put_whole};
use std::alloc::{AllocError, Global};

/// The most nodes of a goal whose line is short whatever its names and numbers are: of a node at most 264 bytes are printed, and of
/// the rest of the line at most 69.
const MOST_SHORT_NODES: usize = 992;

/// Whether a goal has so few nodes that its text, with 69 bytes for the rest of its line, can't be too long for a line.
fn is_short(goal: &Term) -> bool
    requires { IsTrue (is_writable goal.now) }
    ensures { IsTrue result → length (print goal.now) + 69 ≤ MOST_LINE_BYTES }
{
    // This is called for the fact that it proves: the goal's variables have numbers of 64 bits.
    let _highest = goal.highest();
    goal.nodes().len() <= MOST_SHORT_NODES
}

/// Puts a number and a blank after bytes. After an error some of them may be there.
fn put_number(line: &mut Vec<u8>, number: u64) -> Result<(), AllocError>
    ensures { OnOk result (line.new.items ≡ line.old.items ++ decimal number ++ 32 ∷ []) }
{
    let mut buffer = Buffer::new();
    line.extend_from_slice(buffer.format(number).as_bytes())?;
    line.extend_from_slice(b" ")
}

/// Puts the rest of the line of a journal for a start after its first word. After an error some of it may be there.
#[tactic(auto, using(crate::proofs::StartLines::line_is))]
fn put_start(
    alloc: Global,
    line: &mut Vec<u8>,
    allowance: u64,
    low: u64,
    high: u64,
    goal: &Term,
) -> Result<(), AllocError>
    requires { line.old.items ≡ codes "start " }
    ensures { OnOk result (line.new.items ≡ start_line allowance low high goal.now) }
{
    put_number(line, allowance)?;
    put_number(line, low)?;
    put_number(line, high)?;
    put_whole(alloc, line, goal)
}

/// Whether the line of a journal for a start isn't too long. It is made only if the goal has so many nodes that it may be.
pub(crate) fn fits_start(
    alloc: Global,
    allowance: u64,
    low: u64,
    high: u64,
    goal: &Term,
) -> Result<bool, AllocError>
    requires { IsTrue (is_writable goal.now) }
    ensures { IfOk result (λ fits. fits ≡ nat_le (length (start_line allowance low high goal.now)) MOST_LINE_BYTES) }
{
    if is_short(goal) {
        return Ok(true);
    }
    let mut line = Vec::from_slice(alloc, b"start ")?;
    put_start(alloc, &mut line, allowance, low, high, goal)?;
    Ok(line.len() <= MOST_LINE_BYTES)
}

/// Puts the rest of the line of a journal for an answer after its first word. After an error some of it may be there.
#[tactic(auto, using(crate::proofs::StartLines::answer_is))]
fn put_answer(
    alloc: Global,
    line: &mut Vec<u8>,
    number: u64,
    report: u64,
    goal: &Term,
) -> Result<(), AllocError>
    requires { line.old.items ≡ codes "answer " }
    ensures { OnOk result (line.new.items ≡ answer_line number report goal.now) }
{
    put_number(line, number)?;
    put_number(line, report)?;
    put_whole(alloc, line, goal)
}

/// Whether the line of a journal for an answer isn't too long. It is made only if the goal has so many nodes that it may be.
pub(crate) fn fits_answer(
    alloc: Global,
    number: u64,
    report: u64,
    goal: &Term,
) -> Result<bool, AllocError>
    requires { IsTrue (is_writable goal.now) }
    ensures { IfOk result (λ fits. fits ≡ nat_le (length (answer_line number report goal.now)) MOST_LINE_BYTES) }
{
    if is_short(goal) {
        return Ok(true);
    }
    let mut line = Vec::from_slice(alloc, b"answer ")?;
    put_answer(alloc, &mut line, number, report, goal)?;
    Ok(line.len() <= MOST_LINE_BYTES)
}
