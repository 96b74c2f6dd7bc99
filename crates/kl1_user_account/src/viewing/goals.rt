// What is shown of goals.

ghost use Rattle.std.specs.Prelude.{◌≡◌, ◌-◌, map, take, filter, IfOk};
ghost use Rattle.kl1_goals.specs.Lists.{is_after};
ghost use Rattle.kl1_goals.specs.Readies.{stands};
ghost use Rattle.kl1_user_account.specs.Viewed.{kind_shown, goal_shown};

use kl1_goals::{Goal, GoalTable, Task};
use kl1_text::CellName;
use kl1_user_events::{GoalNo, GoalView, ShoenNo, TaskKind};
use std::alloc::{AllocError, Global};

/// What a goal with a task does.
fn kind_of(task: Task<CellName>) -> TaskKind
    ensures { result ≡ kind_shown task }
{
    match task {
        Task::Monitor => TaskKind::Monitor,
        Task::Reduces(_) => TaskKind::Reduces,
        Task::Substitutes(_) => TaskKind::Substitutes,
    }
}

/// What is shown of a goal.
fn view_of(goal: &Goal<CellName>) -> GoalView
    ensures { result ≡ goal_shown goal.now }
{
    GoalView {
        number: GoalNo(goal.number),
        shoen: ShoenNo(goal.shoen),
        priority: goal.priority,
        task: kind_of(goal.task),
        can_step: goal.is_enabled && goal.standing.clause().is_some(),
    }
}

/// What is shown of the goals with numbers from one on, of the first `count` of them.
pub(crate) fn goals_from(
    alloc: Global,
    goals: &GoalTable<CellName>,
    from: u64,
    count: usize,
) -> Result<Vec<GoalView>, AllocError>
    ensures { IfOk result (λ views. views.items ≡ map goal_shown (take count (filter (is_after (from - 1)) goals.now.goals))) }
{
    let mut views = Vec::new(alloc);
    let mut before = from.saturating_sub(1);
    let mut left = count;
    while 0 < left {
        let Some(goal) = goals.after(before) else {
            return Ok(views);
        };
        views.push(view_of(&goal))?;
        before = goal.number;
        left -= 1;
    }
    Ok(views)
}
