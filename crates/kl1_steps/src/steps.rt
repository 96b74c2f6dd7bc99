// First steps that are told one by one.

use kl1_command::{UnbookedHost, Views};
use kl1_user_events::{ClauseNo, GoalNo};
use std::alloc::AllocError;

/// What is told of each step: which one it will be, and what the account is after it. It may look at the account, and changes nothing.
pub trait StepWatch<H: UnbookedHost + Views> {
    /// Takes the goal that is to be reduced, and its clause.
    fn before(&mut self, host: &mut H, goal: GoalNo, clause: ClauseNo) -> Result<(), AllocError>;

    /// Takes the goal that was reduced, and its clause. Answers whether it wants to be told more.
    fn after(&mut self, host: &mut H, goal: GoalNo, clause: ClauseNo) -> Result<bool, AllocError>;
}

/// Does the first step and tells it. Answers whether it was done and more are wanted. After an `Err` it may be done.
fn step_once<H: UnbookedHost + Views, W: StepWatch<H>>(
    host: &mut H,
    watch: &mut W,
) -> Result<bool, AllocError> {
    let Some((goal, clause)) = host.pick() else {
        return Ok(false);
    };
    watch.before(host, goal, clause)?;
    match host.reduce(goal, clause) {
        Ok(None) => { watch.after(host, goal, clause) }
        Ok(Some(_refusal)) => Ok(false),
        Err(error) => Err(error),
    }
}

/// Does first steps, at most `most`, and tells each; ends if none can step, one is refused, or no more are wanted. After an `Err` some of
/// them may be done.
pub fn step_through<H: UnbookedHost + Views, W: StepWatch<H>>(
    host: &mut H,
    most: u64,
    watch: &mut W,
) -> Result<(), AllocError> {
    for _ in 0..most {
        if !step_once(host, watch)? {
            return Ok(());
        }
    }
    Ok(())
}
