// What holds of the tally between any two steps, and what each kind of step adds.

ghost use Rattle.std.specs.Prelude.{true, false};
ghost use Rattle.kl1_tally.specs.Laws.{RuleAddsUp, StepCountsOne, CutKeeps, JoinKeeps};

use crate::law::{Joined, Law, Parted, RaiseEvent, RaiseStep, Sizes};
use crate::view::View;
use atomic_table::{Join, Play, Split, TableRule};

/// At each moment the book of each account says what all seats counted of it, each account has one book, and no seat has events of
/// another account than its own. An event adds one mark of the seat's own account to both sides, cutting and joining seats lose none and
/// make none. It does nothing: its contract is this law, of the rule and the steps by which `Tally` has its words.
pub fn seats_add_up()
    ensures rule { RuleAddsUp ⟦<Law as TableRule<(), View, Sizes>>⟧.holds }
    ensures event { StepCountsOne false ⟦<RaiseEvent as Play<(), View>>⟧.then }
    ensures step { StepCountsOne true ⟦<RaiseStep as Play<(), View>>⟧.then }
    ensures cut { CutKeeps ⟦<Parted as Split<View>>⟧.left ⟦<Parted as Split<View>>⟧.right }
    ensures join { JoinKeeps ⟦<Joined as Join<View>>⟧.both ⟦<Joined as Join<View>>⟧.spent }
{}
