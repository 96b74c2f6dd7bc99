// All shoens and goals of an account, as they are shown.

use kl1_command::Views;
use kl1_user_events::{GoalNo, GoalView, ShoenNo, ShoenView};
use std::alloc::AllocError;

/// More than an account has of shoens or goals by any rules.
const ALL: usize = 4_294_967_296;

/// Whether these are fewer than may be asked for, and so all.
fn are_all<T>(items: &[T]) -> bool {
    items.len() < ALL
}

/// All shoens of an account.
pub(crate) fn shoens_in<H: Views>(host: &H) -> Result<Vec<ShoenView>, AllocError> {
    let shoens = host.shoens_from(ShoenNo(0), ALL)?;
    if are_all(shoens.as_slice()) {
        Ok(shoens)
    } else {
        Err(AllocError)
    }
}

/// All goals of an account.
pub(crate) fn goals_in<H: Views>(host: &H) -> Result<Vec<GoalView>, AllocError> {
    let goals = host.goals_from(GoalNo(0), ALL)?;
    if are_all(goals.as_slice()) {
        Ok(goals)
    } else {
        Err(AllocError)
    }
}
