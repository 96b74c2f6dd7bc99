// Which goals are looked at, and which may step.

ghost use Rattle.std.specs.Prelude.{◌≡◌, ◌||◌, ℕ, true, OnOk};
ghost use Rattle.std.specs.List.Sorted.{IsStrictlyIncreasing};
ghost use Rattle.kl1_model.specs.Module.{is_among};
ghost use Rattle.kl1_goals.specs.Lists.{is_monitor};
ghost use Rattle.kl1_shoen.specs.Shoens.{is_enabled_at};
ghost use Rattle.kl1_user_effects.specs.Installing.{shifted_by};

use kl1_goals::{Goal, GoalTable};
use kl1_shoen::{Shift, ShoenTree};
use kl1_text::CellName;
use std::alloc::AllocError;

/// Puts numbers in order, each once.
#[inline(always)]
pub fn put_in_order(numbers: &mut Vec<u64>)
    ensures same { (n : ℕ) → is_among n numbers.new.items ≡ is_among n numbers.old.items }
    ensures once { IsStrictlyIncreasing numbers.new.items }
{
    if numbers.len() > 1 {
        numbers.sort_unstable();
        numbers.dedup();
    }
}

/// Lets the goals of shoens step, or holds them back, one shift after another.
pub fn enable_each(goals: &mut GoalTable<CellName>, shifts: &[Shift]) -> Result<(), AllocError>
    ensures ok { OnOk result (goals.new.goals ≡ shifted_by shifts.now goals.old.goals) }
    ensures rest { goals.new ≡ record goals.old { goals = goals.new.goals } }
{
    for shift in shifts {
        goals.enable(shift.shoen, shift.is_enabled)?;
    }
    Ok(())
}

/// Whether the shoen of a goal lets it step; a monitor is always let. Shoen `running` is known to let its goals step.
pub fn may_step(shoens: &ShoenTree<CellName>, running: u64, goal: &Goal<CellName>) -> bool
    requires { is_enabled_at shoens.now.shoens shoens.now.work running ≡ true }
    ensures { result ≡ (is_monitor goal.now || is_enabled_at shoens.now.shoens shoens.now.work goal.now.shoen) }
{
    if goal.shoen == running {
        return true;
    }
    goal.is_monitor() || shoens.is_enabled(goal.shoen)
}
