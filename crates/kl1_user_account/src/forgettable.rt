// What may be let go.

ghost use Rattle.std.specs.Prelude.{◌≡◌, ◌&&◌};
ghost use Rattle.kl1_model.specs.Forgetting.{may_forget};
ghost use Rattle.kl1_model.specs.State.{has_forgetting};
ghost use Rattle.kl1_store.specs.Held.{IsIn};
ghost use Rattle.kl1_user_effects.specs.Kept.{AreShoensIn};
ghost use Rattle.kl1_user_account.specs.Forgetting.{ForgetsAs, LeavesReports};

use kl1_goals::Rules;
use kl1_machine::Machine;
use kl1_shoen::Origin;
use kl1_store::{Cell, Store};
use kl1_stream::without_reports;
use kl1_text::CellName;
use kl1_user_effects::are_numbers;
use kl1_user_events::Refusal;

/// What comes of a letting go: a refusal, what is left of reports after the first, or that a shoen goes.
#[derive(Drop)]
pub(crate) enum Forgetting {
    Refused(Refusal),
    Reports(Cell<CellName>),
    Shoen,
}

/// What is left of the reports of a shoen, which lives or not, after its first `count`, if these can be let go.
fn left_of(
    store: &Store<CellName>,
    origin: &Origin<CellName>,
    lives: bool,
    count: u64,
) -> Option<Cell<CellName>>
    requires { IsIn store.now.held origin.now.reports }
    ensures { LeavesReports store.now.held origin.now lives count result }
{
    if count <= origin.forgotten {
        return None;
    }
    without_reports(store, origin.reports, count - origin.forgotten, lives)
}

/// Whether numbers may stand in a letting go by these rules.
fn may_forget(rules: Rules, number: u64, count: u64) -> bool
    ensures { result ≡ (has_forgetting rules && may_forget number count) }
{
    rules.has_forgetting() && are_numbers(number, count)
}

/// What comes of letting go the first `count` reports of shoen `number`, or the shoen if that is 0, in an account with this machine, whose
/// journal is full or not.
pub(crate) fn forgetting_of(machine: &Machine, is_full: bool, number: u64, count: u64) -> Forgetting
    requires { AreShoensIn machine.now.store.held machine.now.shoens.shoens }
    ensures { ForgetsAs machine.now.rules machine.now.store.held machine.now.shoens.shoens is_full number count result }
{
    if !may_forget(machine.rules, number, count) {
        return Forgetting::Refused(Refusal::Syntax);
    }
    // Only for the proof: the shoens are numbered in order.
    let _numbered = machine.shoens.len();
    let Some(origin) = machine.shoens.origin_at(number) else {
        return Forgetting::Refused(Refusal::NoShoen);
    };
    if is_full {
        return Forgetting::Refused(Refusal::Journal);
    }
    let lives = machine.shoens.lives(number);
    if count == 0 {
        if lives {
            return Forgetting::Refused(Refusal::Answer);
        }
        return Forgetting::Shoen;
    }
    match left_of(&machine.store, &origin, lives, count) {
        None => Forgetting::Refused(Refusal::Answer),
        Some(left) => Forgetting::Reports(left),
    }
}
