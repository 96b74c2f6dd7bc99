// Taking back what a store holds.

ghost use Rattle.std.specs.Prelude.{◌≡◌};
ghost use Rattle.kl1_store.specs.Held.{Held, sizes_of};
ghost use Rattle.kl1_store.specs.Sound.{IsFormed, Grown};
ghost use Rattle.kl1_store.specs.Levels.{AreLevels};
ghost use Rattle.kl1_store.specs.Spending.{FreesRoom};

use crate::cells::Cells;
use crate::levels::Levels;
use crate::mark::Mark;
use kl1_text::NameValue;

/// Takes back all that was done since `mark`, and the levels of what is gone.
pub fn take_back<N: NameValue>(cells: &mut Cells<N>, levels: &mut Levels, mark: Mark)
    requires mark { (h : Held N) × ((mark ≡ sizes_of h) × (IsFormed h × Grown h cells.old.held)) }
    requires levels { AreLevels cells.old.held levels.old }
    ensures held { (h : Held N) → mark ≡ sizes_of h → Grown h cells.old.held → cells.new.held ≡ h }
    ensures levels { AreLevels cells.new.held levels.new }
    ensures room { FreesRoom cells.old.held cells.old.room cells.new.held cells.new.room }
{
    cells.back(mark);
    levels.keep(mark.variables as usize, mark.structures as usize);
}
