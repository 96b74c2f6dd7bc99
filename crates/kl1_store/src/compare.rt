// Two cells side by side, without binding anything.

ghost use Rattle.std.specs.Prelude.{◌≡◌, ℕ, true, List, [], ◌∷◌, ◌++◌, IfOk, OnOk, IsTrue};
ghost use Rattle.kl1_store.specs.Done.{IsKnown, MayHave};
ghost use Rattle.kl1_store.specs.Held.{Held, IsIn, IsWalked};
ghost use Rattle.kl1_store.specs.Sound.{IsFormed};
ghost use Rattle.kl1_store.specs.Waiting.{ArePairs};
ghost use Rattle.kl1_store.specs.Compares.{ComparesAs, ComparedAs};
ghost use Rattle.kl1_store.specs.Unbound.{AreUnbound};

use crate::advance::turn;
use crate::cell::Cell;
use crate::cells::Cells;
use crate::frame::Frame;
use crate::meeting::Meeting;
use crate::meets::meet;
use crate::sides::Sides;
use kl1_text::NameValue;
use std::alloc::{AllocError, Global};
use std::collections::HashSet;

/// The pairs of structures that are compared before one is put down as known, of the first level, and for each level more.
const FIRST_SPARED: usize = 64;

const SPARED_BY_LEVEL: usize = 4;

/// Puts a variable on the list of those that are waited for, and says yes.
fn wait_for(waits: &mut Vec<u32>, variable: u32) -> Result<bool, AllocError>
    ensures { IfOk result (λ found. (found ≡ true) × (waits.new.items ≡ waits.old.items ++ variable ∷ [])) }
{
    waits.push(variable)?;
    Ok(true)
}

/// Looks at two cells that stand for themselves: false if they clash at once.
pub(crate) fn compare_sides<N: NameValue>(
    cells: &Cells<N>,
    frames: &mut Vec<Frame>,
    waits: &mut Vec<u32>,
    left: Cell<N>,
    right: Cell<N>,
) -> Result<bool, AllocError>
    requires formed { IsFormed cells.now.held }
    requires left_in { IsIn cells.now.held left }
    requires right_in { IsIn cells.now.held right }
    requires left_walked { IsWalked cells.now.held left }
    requires right_walked { IsWalked cells.now.held right }
    requires pairs { ArePairs cells.now.held frames.old.items }
    ensures compares { IfOk result (ComparesAs N.built cells.now.held left right frames.old.items frames.new.items waits.old.items waits.new.items) }
    ensures unbound { OnOk result (AreUnbound cells.now.held waits.old.items → AreUnbound cells.now.held waits.new.items) }
{
    if let Some(variable) = left.variable() {
        match right.variable() {
            Some(other) => {
                if variable == other {
                    return Ok(true);
                }
                waits.push(variable)?;
                return wait_for(waits, other);
            }
            None => return wait_for(waits, variable),
        }
    }
    if let Some(variable) = right.variable() {
        return wait_for(waits, variable);
    }
    match meet(cells, left, right) {
        Meeting::Same => Ok(true),
        Meeting::Clash => Ok(false),
        Meeting::Bind(_, _) => Ok(false),
        Meeting::Open(frame) => {
            frames.push(frame)?;
            Ok(true)
        }
    }
}

/// Whether two cells are structures that were compared.
fn is_known<N: Copy>(pairs: &HashSet<[u32; 2]>, left: Cell<N>, right: Cell<N>) -> bool
    ensures { IsTrue result → IsKnown left right pairs.now.keys }
{
    if let Cell::Structure(first) = left {
        if let Cell::Structure(second) = right {
            return pairs.contains(&[first, second]);
        }
    }
    false
}

/// Puts a pair that was compared down as known, unless some are still to be spared.
#[inline]
#[tactic(auto, using(crate::proofs::Comparing::pair_kept))]
fn put_down(
    pairs: &mut HashSet<[u32; 2]>,
    spared: &mut usize,
    frame: Frame,
) -> Result<(), AllocError>
    ensures { OnOk result (MayHave frame.left frame.right pairs.old.keys pairs.new.keys) }
{
    if *spared > 0 {
        *spared -= 1;
        return Ok(());
    }
    pairs.insert([frame.left, frame.right])?;
    Ok(())
}

/// Compares two cells: false if they clash; `waits` gets the variables for which they wait, and `frames` is scratch.
pub fn compare<N: NameValue>(
    cells: &Cells<N>,
    frames: &mut Vec<Frame>,
    alloc: Global,
    waits: &mut Vec<u32>,
    left: Cell<N>,
    right: Cell<N>,
) -> Result<bool, AllocError>
    requires left_in { IsIn cells.now.held left }
    requires right_in { IsIn cells.now.held right }
    ensures compared { IfOk result (ComparedAs N.built cells.now.held left right waits.old.items waits.new.items) }
    ensures unbound { OnOk result (AreUnbound cells.now.held waits.old.items → AreUnbound cells.now.held waits.new.items) }
{
    // Only for the proof: what the cells hold is formed.
    let _ = cells.mark();
    frames.clear();
    // The structures, by number, that were compared. To empty a set that was large would cost what it once held. Up to some pairs for
    // each level that they reach none is put down: in lists none ever is, and what is looked at twice is no more than that.
    let mut pairs = HashSet::new(alloc);
    let mut deepest: usize = 0;
    let mut spared = FIRST_SPARED;
    let first = cells.walk(left);
    let second = cells.walk(right);
    if !compare_sides(cells, frames, waits, first, second)? {
        return Ok(false);
    }
    while let Some(frame) = frames.pop() {
        if frame.next >= frame.count {
            put_down(&mut pairs, &mut spared, frame)?;
            continue;
        }
        let depth = frames.len();
        if depth > deepest {
            deepest = depth;
            spared = spared.saturating_add(SPARED_BY_LEVEL);
        }
        let Sides { left, right } = turn(cells, frame);
        frames.push(frame.onward())?;
        if is_known(&pairs, left, right) {
            continue;
        }
        if !compare_sides(cells, frames, waits, left, right)? {
            return Ok(false);
        }
    }
    Ok(true)
}
