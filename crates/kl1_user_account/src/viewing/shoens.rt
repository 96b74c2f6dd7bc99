// What is shown of shoens.

ghost use Rattle.std.specs.Prelude.{◌≡◌, ◌-◌, map, filter, take, drop, IfOk};
ghost use Rattle.kl1_user_events.specs.Viewing.{parent_shown};
ghost use Rattle.kl1_user_account.specs.Viewed.{shoen_shown, is_kept_shoen};

use crate::asking::{condition_of, is_forgotten};
use kl1_goals::GoalTable;
use kl1_shoen::{Shoen, ShoenTree};
use kl1_text::CellName;
use kl1_user_events::{ShoenNo, ShoenView};
use std::alloc::{AllocError, Global};

/// A parent by its number; `None` if that is 0: the console started the shoen.
fn parent_of(number: u64) -> Option<ShoenNo>
    ensures { result ≡ parent_shown number }
{
    if number == 0 {
        return None;
    }
    Some(ShoenNo(number))
}

/// What is shown of a shoen.
pub(crate) fn view_of(
    shoens: &ShoenTree<CellName>,
    goals: &GoalTable<CellName>,
    shoen: &Shoen<CellName>,
) -> ShoenView
    ensures { result ≡ shoen_shown shoens.now.shoens shoens.now.work goals.now.goals shoen.now }
{
    let charged = shoens.charged(shoen.number);
    ShoenView {
        number: ShoenNo(shoen.number),
        parent: parent_of(shoen.parent),
        condition: condition_of(shoen, charged),
        charged,
        allowance: shoen.allowance,
        alive: goals.count(shoen.number),
    }
}

/// What is shown of the shoens with numbers from one on that weren't let go, of the first `count` of them.
pub(crate) fn shoens_from(
    alloc: Global,
    shoens: &ShoenTree<CellName>,
    goals: &GoalTable<CellName>,
    from: u64,
    count: usize,
) -> Result<Vec<ShoenView>, AllocError>
    ensures { IfOk result (λ views. views.items ≡ map (shoen_shown shoens.now.shoens shoens.now.work goals.now.goals) (take count (filter is_kept_shoen (drop (from - 1) shoens.now.shoens)))) }
{
    let mut views = Vec::new(alloc);
    let mut before = from.saturating_sub(1);
    let mut left = count;
    while 0 < left && before < shoens.len() {
        let Some(shoen) = shoens.lend(before + 1) else {
            return Ok(views);
        };
        before += 1;
        if is_forgotten(shoen.life) {
            continue;
        }
        views.push(view_of(shoens, goals, shoen))?;
        left -= 1;
    }
    Ok(views)
}
