// A circle of goals that wait for variables of each other.

use crate::standing::{Awaited, WaitingGoal};
use kl1_lines::put_decimal;
use kl1_user_events::GoalNo;
use std::alloc::{AllocError, Global};

/// The most goals among which a circle is looked for.
const MOST_IN_CIRCLE: usize = 64;

/// The place of a goal among those that wait.
fn place_of(waiting: &[WaitingGoal], goal: GoalNo) -> Option<usize> {
    for (place, other) in waiting.iter().enumerate() {
        if other.goal.number.0 == goal.0 {
            return Some(place);
        }
    }
    None
}

/// Whether the goal at a place waits for a variable.
fn is_awaited(waiting: &[WaitingGoal], place: usize, variable: u64) -> bool {
    if let Some(goal) = waiting.get(place) {
        for awaited in goal.awaits.as_slice() {
            if awaited.variable == variable {
                return true;
            }
        }
    }
    false
}

/// The place of the first goal that waits and has this variable, if it doesn't wait for that one.
fn holder_in(waiting: &[WaitingGoal], awaited: &Awaited) -> Option<usize> {
    for holder in awaited.holders.first.as_slice() {
        if let Some(place) = place_of(waiting, *holder) {
            if !is_awaited(waiting, place, awaited.variable) {
                return Some(place);
            }
        }
    }
    None
}

/// The place of the first goal that waits for something else and has a variable for which the goal at a place waits.
fn next_after(waiting: &[WaitingGoal], place: usize) -> Option<usize> {
    for awaited in waiting.get(place)?.awaits.as_slice() {
        if let Some(next) = holder_in(waiting, awaited) {
            return Some(next);
        }
    }
    None
}

/// The places on the way from a goal back to itself, if it leads there.
fn circle_from(
    alloc: Global,
    waiting: &[WaitingGoal],
    start: usize,
) -> Result<Option<Vec<usize>>, AllocError> {
    let mut places = Vec::new(alloc);
    let mut place = start;
    for _ in waiting {
        places.push(place)?;
        match next_after(waiting, place) {
            Some(next) if next == start => return Ok(Some(places)),
            Some(next) => place = next,
            None => return Ok(None),
        }
    }
    Ok(None)
}

/// Puts the line of a circle of goals that wait for variables of each other after the bytes, if one is found.
pub(crate) fn put_circle(
    alloc: Global,
    waiting: &[WaitingGoal],
    out: &mut Vec<u8>,
) -> Result<(), AllocError> {
    let looked = waiting.get(..MOST_IN_CIRCLE).unwrap_or(waiting);
    for start in 0..looked.len() {
        if let Some(places) = circle_from(alloc, looked, start)? {
            return put_places(looked, places.as_slice(), out);
        }
    }
    Ok(())
}

/// Puts the line of a circle of the goals at these places after the bytes.
fn put_places(
    waiting: &[WaitingGoal],
    places: &[usize],
    out: &mut Vec<u8>,
) -> Result<(), AllocError> {
    let mut words: &[u8] = b"  a circle: ";
    for place in places {
        out.extend_from_slice(words)?;
        put_number_at(waiting, *place, out)?;
        words = b" waits for a variable of ";
    }
    if let [first, ..] = places {
        out.extend_from_slice(words)?;
        put_number_at(waiting, *first, out)?;
    }
    out.push(b'\n')?;
    Ok(())
}

/// Puts the number of the goal at a place after the bytes.
fn put_number_at(
    waiting: &[WaitingGoal],
    place: usize,
    out: &mut Vec<u8>,
) -> Result<(), AllocError> {
    match waiting.get(place) {
        Some(goal) => put_decimal(out, goal.goal.number.0),
        None => Ok(()),
    }
}
