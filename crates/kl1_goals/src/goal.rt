// Goals.

ghost use Rattle.std.specs.Prelude.{◌≡◌, ◌≤◌, cond, Some, None};
ghost use Rattle.kl1_model.specs.declared.limits.TheConstants.{MONITOR_PRIORITY};
ghost use Rattle.kl1_goals.specs.Lists.{is_monitor, is_goal_of};
ghost use Rattle.kl1_goals.specs.Readies.{stands};

use crate::standing::Standing;
use crate::task::Task;

/// A goal: its number in the account, from 1, its task, the number of its shoen, its priority, at most a monitor's, what it
/// could do as of the last change, and whether its shoen lets it step; a monitor is always let.
#[derive(Clone, Copy)]
pub struct Goal<N> {
    pub number: u64,
    pub task: Task<N>,
    pub shoen: u64,
    pub priority: u64,
    pub standing: Standing,
    pub is_enabled: bool,
}

impl<N> Goal<N> {
    /// Whether it is a monitor.
    pub fn is_monitor(&self) -> bool
        ensures { result ≡ is_monitor self.now }
    {
        match self.task {
            Task::Monitor => true,
            Task::Reduces(_) => false,
            Task::Substitutes(_) => false,
        }
    }

    /// Whether it is of a shoen, and not its monitor.
    pub(crate) fn is_goal_of(&self, shoen: u64) -> bool
        ensures { result ≡ is_goal_of shoen self.now }
    {
        self.shoen == shoen && !self.is_monitor()
    }

    /// The priority, if it can step.
    pub(crate) fn ready_priority(&self) -> Option<u16>
        requires { self.now.priority ≤ MONITOR_PRIORITY }
        ensures { result ≡ cond (stands self.now) (Some self.now.priority) None }
    {
        if !self.is_enabled {
            return None;
        }
        match self.standing.clause() {
            None => None,
            Some(_) => Some(self.priority as u16),
        }
    }
}
