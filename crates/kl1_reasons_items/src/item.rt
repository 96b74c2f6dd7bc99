// Items of a text by their bytes.

ghost use Rattle.std.specs.Prelude.{◌≡◌, ◌≤◌, length, drop};
ghost use Rattle.kl1_reasons_items.specs.declared.within.Within.TheVariants.{Plain};
ghost use Rattle.kl1_reasons_items.specs.Items.{behind_item};
ghost use Rattle.kl1_reasons_items.specs.Places.{HasLine};
ghost use Rattle.kl1_reasons_items.specs.Places.{place_of};

use crate::cut::item_end;
use crate::place::{line_start, place_of};

/// An item: how many bytes stand before it, and how many up to its end.
#[derive(Clone, Copy)]
pub struct Item {
    pub start: usize,
    pub end: usize,
}

/// The item that begins at `guess` if that is on this line, or else one that begins there.
pub fn item_on(text: &[u8], guess: usize, line: u64) -> Item
    requires { HasLine text.now line }
    ensures begins { (place_of text.now result.start).line ≡ line }
    ensures ends { drop result.end text.now ≡ behind_item Plain (drop result.start text.now) }
    ensures ordered { result.start ≤ result.end }
    ensures within { result.end ≤ length text.now }
{
    let start = if guess <= text.len() && place_of(text, guess).line == line {
        guess
    } else {
        line_start(text, line)
    };
    Item {
        start,
        end: item_end(text, start),
    }
}
