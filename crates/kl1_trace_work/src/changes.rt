// What is new or changed after a step.

use crate::seen::NewGoal;
use kl1_model::Condition;
use kl1_user_events::{GoalView, ShoenView, TaskKind};
use std::alloc::{AllocError, Global};

/// The greatest number of goals, and of one before.
pub fn last_of(goals: &[GoalView], before: u64) -> u64 {
    let mut last = before;
    for goal in goals {
        last = last.max(goal.number.0);
    }
    last
}

/// Whether two states are one.
fn is_same(one: Condition, other: Condition) -> bool {
    match (one, other) {
        (Condition::Terminated, Condition::Terminated) => true,
        (Condition::Aborted, Condition::Aborted) => true,
        (Condition::Stopped, Condition::Stopped) => true,
        (Condition::Exhausted, Condition::Exhausted) => true,
        (Condition::Running, Condition::Running) => true,
        _ => false,
    }
}

/// The shoens that are in another state than before. They are in order of their numbers.
pub fn changed_among(
    alloc: Global,
    before: &[ShoenView],
    now: &[ShoenView],
) -> Result<Vec<ShoenView>, AllocError> {
    let mut changed = Vec::new(alloc);
    for (old, shoen) in before.iter().zip(now.iter()) {
        if !is_same(old.condition, shoen.condition) {
            changed.push(*shoen)?;
        }
    }
    Ok(changed)
}

/// Whether a goal waits for an answer to an exception.
fn is_substitute(goal: &NewGoal) -> bool {
    match goal.view.task {
        TaskKind::Substitutes => true,
        TaskKind::Monitor => false,
        TaskKind::Reduces => false,
    }
}

/// How many of new goals wait for an answer to an exception.
pub fn raised_among(new: &[NewGoal]) -> usize {
    let mut count: usize = 0;
    for goal in new {
        if is_substitute(goal) {
            count = count.saturating_add(1);
        }
    }
    count
}

/// Shoens that are new, and shoens in another state than before.
#[derive(Drop)]
pub struct Shoens {
    pub opened: Vec<ShoenView>,
    pub changed: Vec<ShoenView>,
}
