// What is shown of a goal.

use crate::numbers::{GoalNo, ShoenNo};

/// What a goal does: it reads the control stream of its shoen, it is to be reduced, or it waits for what takes the place of a goal that
/// raised an exception.
#[derive(Clone, Copy)]
pub enum TaskKind {
    Monitor,
    Reduces,
    Substitutes,
}

/// What is shown of a goal: its number, its shoen, its priority, what it does, and whether it can step now.
#[derive(Clone, Copy)]
pub struct GoalView {
    pub number: GoalNo,
    pub shoen: ShoenNo,
    pub priority: u64,
    pub task: TaskKind,
    pub can_step: bool,
}

/// How much of a goal's text is shown: as many bytes as a reply has of a value, so many bytes, or all of it; three dots stand behind a
/// text that is cut.
#[derive(Clone, Copy)]
pub enum Extent {
    Cut,
    AtMost(usize),
    Whole,
}

/// Whether a variable is in a goal's term, as far as that was looked at.
#[derive(Clone, Copy)]
pub enum Presence {
    Present,
    Absent,
    Unknown,
}
