// Two structures side by side, from where their comparison was left.

ghost use Rattle.std.specs.Prelude.{◌≡◌, ◌<◌, ◌++◌, [], length, IfOk, IfSome};
ghost use Rattle.std.specs.List.{All};
ghost use Rattle.kl1_store.specs.Waiting.{waiting, ArePairs};
ghost use Rattle.kl1_store.specs.Resting.{turns_of, heads_of, IsOpen, IsLeft, AreRests};
ghost use Rattle.kl1_store.specs.Resumes.{IsOnCourse, LooksAs, ComesToRest};

use crate::advance::turn;
use crate::cell::Cell;
use crate::cells::Cells;
use crate::compare::compare_sides;
use crate::course::Course;
use crate::frame::Frame;
use crate::progress::Progress;
use crate::rest::Rest;
use crate::sides::Sides;
use kl1_text::NameValue;
use std::alloc::AllocError;

/// Looks at the arguments in turn of a pair: false if they clash at once.
fn look_at<N: NameValue>(
    cells: &Cells<N>,
    frames: &mut Vec<Frame>,
    course: &mut Course,
    waits: &mut Vec<u32>,
    frame: Frame,
) -> Result<bool, AllocError>
    requires each { IsOpen cells.now.held frame }
    requires pairs { ArePairs cells.now.held frames.old.items }
    requires course { IsOnCourse N.built cells.now.held course.old.pairs.items waits.old.items }
    ensures { IfOk result (LooksAs N.built cells.now.held frame frames.old.items frames.new.items course.old.pairs.items course.new.pairs.items waits.new.items) }
{
    let Sides { left, right } = turn(cells, frame);
    course.meet(frames.len());
    let before = waits.len();
    if !compare_sides(cells, frames, waits, left, right)? {
        return Ok(false);
    }
    if waits.len() <= before {
        return Ok(true);
    }
    course.pairs.push(frame)?;
    Ok(true)
}

/// Compares the pairs that wait, to the end.
fn go_on<N: NameValue>(
    cells: &Cells<N>,
    frames: &mut Vec<Frame>,
    course: &mut Course,
    waits: &mut Vec<u32>,
) -> Result<Progress, AllocError>
    requires pairs { ArePairs cells.now.held frames.old.items }
    requires course { IsOnCourse N.built cells.now.held course.old.pairs.items waits.old.items }
    ensures { IfOk result (ComesToRest N.built cells.now.held (λ f. turns_of f cells.now.held course.old.pairs.items ++ waiting f cells.now.held [] frames.old.items) course.new.pairs.items waits.new.items) }
{
    while let Some(frame) = frames.pop() {
        if frame.next >= frame.count {
            if !course.close() {
                return Ok(Progress::Tires);
            }
            continue;
        }
        frames.push(frame.onward())?;
        if !look_at(cells, frames, course, waits, frame)? {
            return Ok(Progress::Clashes);
        }
    }
    Ok(Progress::Ends)
}

/// Compares two structures from their heads. Nothing was looked at yet.
fn compare_heads<N: NameValue>(
    cells: &Cells<N>,
    frames: &mut Vec<Frame>,
    course: &mut Course,
    waits: &mut Vec<u32>,
    left: u32,
    right: u32,
) -> Result<Progress, AllocError>
    requires left { left < length cells.now.held.structures }
    requires right { right < length cells.now.held.structures }
    requires each { course.old.pairs.items ≡ [] }
    requires waits { waits.old.items ≡ [] }
    ensures { IfOk result (ComesToRest N.built cells.now.held (λ f. heads_of left right f cells.now.held) course.new.pairs.items waits.new.items) }
{
    // Only for the proof: what the cells hold is formed.
    let _ = cells.mark();
    frames.clear();
    let first = Cell::Structure(left);
    let second = Cell::Structure(right);
    if !compare_sides(cells, frames, waits, first, second)? {
        return Ok(Progress::Clashes);
    }
    if waits.is_empty() {
        return go_on(cells, frames, course, waits);
    }
    Ok(Progress::Tires)
}

/// Compares what was left. Nothing was looked at yet.
fn compare_left<N: NameValue>(
    cells: &Cells<N>,
    frames: &mut Vec<Frame>,
    course: &mut Course,
    waits: &mut Vec<u32>,
    left: &[Frame],
) -> Result<Progress, AllocError>
    requires left { All (IsOpen cells.now.held) left.now }
    requires each { course.old.pairs.items ≡ [] }
    requires waits { waits.old.items ≡ [] }
    ensures { IfOk result (ComesToRest N.built cells.now.held (λ f. turns_of f cells.now.held left.now) course.new.pairs.items waits.new.items) }
{
    let mut rest = left;
    while let [first, more @ ..] = rest {
        frames.clear();
        if !look_at(cells, frames, course, waits, *first)? {
            return Ok(Progress::Clashes);
        }
        match go_on(cells, frames, course, waits)? {
            Progress::Ends => {}
            Progress::Clashes => return Ok(Progress::Clashes),
            Progress::Tires => return Ok(Progress::Tires),
        }
        rest = more;
    }
    Ok(Progress::Ends)
}

/// What was left last of two structures, if anything is kept of them.
fn newest<'a, N: NameValue>(
    cells: &Cells<N>,
    rests: &'a [Rest],
    left: u32,
    right: u32,
) -> Option<&'a Rest>
    requires { AreRests N.built cells.now.held rests.now }
    ensures { IfSome result (λ rest. IsLeft N.built cells.now.held left right rest.now.pairs.items) }
{
    let mut count = rests.len();
    while count > 0 {
        count -= 1;
        let rest = &rests[count];
        if rest.left == left {
            if rest.right == right {
                return Some(rest);
            }
        }
    }
    None
}

/// Compares two structures, from where their comparison was left last. Nothing was looked at yet.
pub(crate) fn resume<N: NameValue>(
    cells: &Cells<N>,
    rests: &[Rest],
    frames: &mut Vec<Frame>,
    course: &mut Course,
    waits: &mut Vec<u32>,
    left: u32,
    right: u32,
) -> Result<Progress, AllocError>
    requires rests { AreRests N.built cells.now.held rests.now }
    requires left { left < length cells.now.held.structures }
    requires right { right < length cells.now.held.structures }
    requires each { course.old.pairs.items ≡ [] }
    requires waits { waits.old.items ≡ [] }
    ensures { IfOk result (ComesToRest N.built cells.now.held (λ f. heads_of left right f cells.now.held) course.new.pairs.items waits.new.items) }
{
    match newest(cells, rests, left, right) {
        None => compare_heads(cells, frames, course, waits, left, right),
        Some(rest) => compare_left(cells, frames, course, waits, rest.pairs.as_slice()),
    }
}
