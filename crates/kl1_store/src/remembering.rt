// Two cells side by side, by what was compared before.

ghost use Rattle.std.specs.Prelude.{◌≡◌, ℕ, ◌<◌, List, [], length, IfOk, OnOk};
ghost use Rattle.std.specs.List.{All};
ghost use Rattle.kl1_store.specs.Held.{Held, IsIn};
ghost use Rattle.kl1_store.specs.Sameness.{AlikeAs};
ghost use Rattle.kl1_store.specs.Resting.{AreRests};
ghost use Rattle.kl1_store.specs.Remembers.{IsRemembered, Remembers, RecalledAs};

use crate::cell::Cell;
use crate::cells::Cells;
use crate::compare::compare;
use crate::course::Course;
use crate::frame::Frame;
use crate::progress::Progress;
use crate::rest::Rest;
use crate::resume::resume;
use crate::same_scratch::{Remembered, SameScratch};
use kl1_text::NameValue;
use std::alloc::{AllocError, Global};

/// The most comparisons that are remembered at a time.
const MOST: usize = 16;

/// What is remembered of two structures. If something is, `waits` gets the variables that they wait for, after those in it.
fn recall<N: NameValue>(
    cells: &Cells<N>,
    remembered: &[Remembered],
    waits: &mut Vec<u32>,
    left: u32,
    right: u32,
) -> Result<Option<bool>, AllocError>
    requires { All (IsRemembered N.built cells.now.held) remembered.now }
    ensures { IfOk result (RecalledAs N.built cells.now.held left right waits.old.items waits.new.items) }
{
    let mut rest = remembered;
    while let [first, more @ ..] = rest {
        if first.left == left {
            if first.right == right {
                waits.extend_from_slice(first.waits.as_slice())?;
                return Ok(Some(first.alike));
            }
        }
        rest = more;
    }
    Ok(None)
}

/// Compares two cells: false if they clash. `found` has just the variables for which they wait, and none if they clash.
fn compare_alone<N: NameValue>(
    cells: &Cells<N>,
    frames: &mut Vec<Frame>,
    alloc: Global,
    found: &mut Vec<u32>,
    left: Cell<N>,
    right: Cell<N>,
) -> Result<bool, AllocError>
    requires left_in { IsIn cells.now.held left }
    requires right_in { IsIn cells.now.held right }
    ensures { IfOk result (AlikeAs N.built cells.now.held left right [] found.new.items) }
{
    found.clear();
    if !compare(cells, frames, alloc, found, left, right)? {
        found.clear();
        return Ok(false);
    }
    Ok(true)
}

/// Compares two structures, from where their comparison was left last.
fn compare_anew<N: NameValue>(
    cells: &Cells<N>,
    rests: &[Rest],
    frames: &mut Vec<Frame>,
    alloc: Global,
    left: u32,
    right: u32,
) -> Result<Remembered, AllocError>
    requires rests { AreRests N.built cells.now.held rests.now }
    requires left_in { left < length cells.now.held.structures }
    requires right_in { right < length cells.now.held.structures }
    ensures remembered { IfOk result (IsRemembered N.built cells.now.held) }
    ensures left { IfOk result (λ found. found.left ≡ left) }
    ensures right { IfOk result (λ found. found.right ≡ right) }
{
    let mut course = Course::new(alloc);
    let mut waits = Vec::new(alloc);
    let progress = resume(cells, rests, frames, &mut course, &mut waits, left, right)?;
    match progress {
        Progress::Ends => {
            let is_worth_keeping = course.is_long();
            Ok(Remembered {
                left,
                right,
                alike: true,
                waits,
                is_worth_keeping,
                pairs: course.pairs,
            })
        }
        Progress::Clashes => {
            waits.clear();
            Ok(Remembered {
                left,
                right,
                alike: false,
                waits,
                is_worth_keeping: false,
                pairs: course.pairs,
            })
        }
        Progress::Tires => {
            let first = Cell::Structure(left);
            let second = Cell::Structure(right);
            let alike = compare_alone(cells, frames, alloc, &mut waits, first, second)?;
            Ok(Remembered {
                left,
                right,
                alike,
                waits,
                is_worth_keeping: false,
                pairs: course.pairs,
            })
        }
    }
}

/// Compares two structures, and remembers what this gave, if it isn't remembered already and there aren't too many others.
fn compare_structures<N: NameValue>(
    cells: &Cells<N>,
    rests: &[Rest],
    scratch: &mut SameScratch,
    alloc: Global,
    waits: &mut Vec<u32>,
    left: u32,
    right: u32,
) -> Result<bool, AllocError>
    requires rests { AreRests N.built cells.now.held rests.now }
    requires left_in { left < length cells.now.held.structures }
    requires right_in { right < length cells.now.held.structures }
    requires remembers { Remembers N.built cells.now.held scratch.old }
    ensures alike { IfOk result (AlikeAs N.built cells.now.held (Cell.Structure left) (Cell.Structure right) waits.old.items waits.new.items) }
    ensures remembers { OnOk result (Remembers N.built cells.now.held scratch.new) }
{
    if let Some(alike) = recall(cells, scratch.remembered.as_slice(), waits, left, right)? {
        return Ok(alike);
    }
    let found = compare_anew(cells, rests, &mut scratch.frames, alloc, left, right)?;
    waits.extend_from_slice(found.waits.as_slice())?;
    let alike = found.alike;
    if scratch.remembered.len() < MOST {
        scratch.remembered.push(found)?;
    }
    Ok(alike)
}

/// Whether two cells may mean the same term: false if they clash. Else `waits` gets the variables that this waits for, after
/// those in it.
pub fn compare_once<N: NameValue>(
    cells: &Cells<N>,
    rests: &[Rest],
    scratch: &mut SameScratch,
    alloc: Global,
    waits: &mut Vec<u32>,
    left: Cell<N>,
    right: Cell<N>,
) -> Result<bool, AllocError>
    requires rests { AreRests N.built cells.now.held rests.now }
    requires left_in { IsIn cells.now.held left }
    requires right_in { IsIn cells.now.held right }
    requires remembers { Remembers N.built cells.now.held scratch.old }
    ensures alike { IfOk result (AlikeAs N.built cells.now.held left right waits.old.items waits.new.items) }
    ensures remembers { OnOk result (Remembers N.built cells.now.held scratch.new) }
{
    let first = cells.walk(left);
    let second = cells.walk(right);
    if let Cell::Structure(structure) = first {
        if let Cell::Structure(other) = second {
            return compare_structures(cells, rests, scratch, alloc, waits, structure, other);
        }
    }
    let alike = compare_alone(
        cells,
        &mut scratch.frames,
        alloc,
        &mut scratch.waits,
        left,
        right,
    )?;
    waits.extend_from_slice(scratch.waits.as_slice())?;
    Ok(alike)
}
