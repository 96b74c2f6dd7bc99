// Goals and shoens of a kind, among all.

use crate::held::{are_numbered, is_left_in, is_still, waits_in};
use kl1_user_events::{GoalView, ShoenView};
use std::alloc::{AllocError, Global};

/// The goals that wait for variables alone.
pub(crate) fn waiting_among(
    alloc: Global,
    shoens: &[ShoenView],
    goals: &[GoalView],
) -> Result<Vec<GoalView>, AllocError> {
    let is_numbered = are_numbered(shoens);
    let mut waiting = Vec::new(alloc);
    for goal in goals {
        if waits_in(shoens, is_numbered, goal) {
            waiting.push(*goal)?;
        }
    }
    Ok(waiting)
}

/// The goals that wait for an answer alone.
pub(crate) fn unanswered_among(
    alloc: Global,
    shoens: &[ShoenView],
    goals: &[GoalView],
) -> Result<Vec<GoalView>, AllocError> {
    let is_numbered = are_numbered(shoens);
    let mut unanswered = Vec::new(alloc);
    for goal in goals {
        if is_left_in(shoens, is_numbered, goal) {
            unanswered.push(*goal)?;
        }
    }
    Ok(unanswered)
}

/// The shoens that live, and hold their goals back.
pub(crate) fn still_among(
    alloc: Global,
    shoens: &[ShoenView],
) -> Result<Vec<ShoenView>, AllocError> {
    let mut still = Vec::new(alloc);
    for shoen in shoens {
        if is_still(shoen.condition) {
            still.push(*shoen)?;
        }
    }
    Ok(still)
}
