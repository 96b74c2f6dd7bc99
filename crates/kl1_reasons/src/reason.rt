// Why an item or a goal is refused.

ghost use Rattle.std.specs.Prelude.{◌≡◌, ◌≤◌, length, drop};
ghost use Rattle.kl1_reasons_items.specs.declared.within.Within.TheVariants.{Plain};
ghost use Rattle.kl1_reasons_items.specs.Items.{behind_item};
ghost use Rattle.kl1_reasons_items.specs.Places.{place_of};
ghost use Rattle.kl1_reasons.specs.Reasons.{IsInItem};

use kl1_reasons_items::{Item, Place, place_of};
use kl1_reasons_words::{Finding, Words};

/// Why an item of a source, or a goal, is refused.
#[derive(Drop)]
pub struct Reason {
    /// The line on which the item begins, from 1.
    pub line: u64,
    /// How many bytes stand before the item.
    pub start: usize,
    /// How many bytes stand before what the reason tells of.
    pub at: usize,
    /// How many bytes stand before what is after the item.
    pub end: usize,
    /// The place of what the reason tells of.
    pub place: Place,
    /// What is wrong there, and what may help.
    pub words: Words,
}

/// The reason for an item that begins on this line, at the place that was found if that is within it.
pub(crate) fn reason_in(text: &[u8], line: u64, item: Item, finding: Finding) -> Reason
    requires begins { (place_of text.now item.start).line ≡ line }
    requires ends { drop item.end text.now ≡ behind_item Plain (drop item.start text.now) }
    requires ordered { item.start ≤ item.end }
    requires within { item.end ≤ length text.now }
    ensures in_item { IsInItem text.now result }
    ensures line { result.line ≡ line }
{
    let Item { start, end } = item;
    let Finding { at, words } = finding;
    let at = at.max(start).min(end);
    Reason {
        line,
        start,
        at,
        end,
        place: place_of(text, at),
        words,
    }
}
