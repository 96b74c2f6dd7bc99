// In which order goals that wait are told.

use crate::holders::{holders_of, variables_of};
use kl1_command::Views;
use kl1_user_events::{GoalNo, GoalView};
use std::alloc::{AllocError, Global};

/// Of how many goals that wait it is looked whether others have their variables, each of which is looked for in all goals.
fn goals_looked(goals: usize) -> usize {
    if goals <= 10_000 { 128 } else { 16 }
}

/// The goals that wait of which it is looked whether others have their variables: the first ones.
fn looked_of<'a>(goals: &[GoalView], waiting: &'a [GoalView]) -> &'a [GoalView] {
    let most = goals_looked(goals.len());
    waiting.get(..most).unwrap_or(waiting)
}

/// The goals that wait after those.
fn later_of<'a>(goals: &[GoalView], waiting: &'a [GoalView]) -> &'a [GoalView] {
    let most = goals_looked(goals.len());
    waiting.get(most..).unwrap_or(&[])
}

/// Whether it is known that no other of the goals has a variable.
fn is_alone<H: Views>(
    alloc: Global,
    host: &H,
    goals: &[GoalView],
    goal: GoalNo,
    variable: &u64,
) -> Result<bool, AllocError> {
    let holders = holders_of(alloc, host, goals, goal, *variable)?;
    Ok(holders.is_none())
}

/// Whether it is known that no other of the goals has any of these variables.
fn are_alone<H: Views>(
    alloc: Global,
    host: &H,
    goals: &[GoalView],
    goal: GoalNo,
    variables: &[u64],
) -> Result<bool, AllocError> {
    for variable in variables {
        let alone = is_alone(alloc, host, goals, goal, variable)?;
        if !alone {
            return Ok(false);
        }
    }
    Ok(true)
}

/// Whether it is known that no other of the goals has a variable that this one waits for.
fn is_root<H: Views>(
    alloc: Global,
    host: &H,
    goals: &[GoalView],
    goal: &GoalView,
) -> Result<bool, AllocError> {
    let awaited = host.awaited(goal.number)?;
    let variables = variables_of(&awaited);
    are_alone(alloc, host, goals, goal.number, variables)
}

/// Puts a goal after the roots or after the others.
fn put_in(
    is_first: bool,
    goal: &GoalView,
    roots: &mut Vec<GoalView>,
    others: &mut Vec<GoalView>,
) -> Result<(), AllocError> {
    if is_first {
        roots.push(*goal)?;
    } else {
        others.push(*goal)?;
    }
    Ok(())
}

/// Goals that wait, in the order in which they are told: of the first ones those of which no other goal has the variables, then the rest
/// of the first ones, and then all others.
pub(crate) fn ordered<H: Views>(
    alloc: Global,
    host: &H,
    goals: &[GoalView],
    waiting: &[GoalView],
) -> Result<Vec<GoalView>, AllocError> {
    let looked = looked_of(goals, waiting);
    let later = later_of(goals, waiting);
    let mut roots = Vec::new(alloc);
    let mut others = Vec::new(alloc);
    for goal in looked {
        let is_first = is_root(alloc, host, goals, goal)?;
        put_in(is_first, goal, &mut roots, &mut others)?;
    }
    roots.extend_from_slice(others.as_slice())?;
    roots.extend_from_slice(later)?;
    Ok(roots)
}
