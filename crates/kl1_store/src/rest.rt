// What is left of comparisons that stayed open.

ghost use Rattle.std.specs.Prelude.{◌≡◌, true, []};
ghost use Rattle.std.specs.List.{All};
ghost use Rattle.kl1_store.specs.Held.{Held};
ghost use Rattle.kl1_store.specs.Remembers.{IsRemembered};
ghost use Rattle.kl1_store.specs.Resting.{IsLeft, AreRests};

use crate::cells::Cells;
use crate::frame::Frame;
use crate::same_scratch::Remembered;
use kl1_text::NameValue;
use std::alloc::{AllocError, Global};

/// The most rests that are kept at a time.
const MOST: usize = 16;

/// The structures `left` and `right` were compared: the arguments in turn of these pairs wait for a variable, and all others were the same.
#[derive(Drop)]
pub(crate) struct Rest {
    pub(crate) left: u32,
    pub(crate) right: u32,
    pub(crate) pairs: Vec<Frame>,
}

/// Keeps what is left of a comparison, in place of all others if there are too many.
fn keep<N: NameValue>(
    cells: &Cells<N>,
    rests: &mut Vec<Rest>,
    alloc: Global,
    found: &Remembered,
) -> Result<(), AllocError>
    requires rests { AreRests N.built cells.now.held rests.old.items }
    requires found { IsLeft N.built cells.now.held found.now.left found.now.right found.now.pairs.items }
    ensures { AreRests N.built cells.now.held rests.new.items }
{
    // Only for the proof: what the cells hold is formed.
    let _ = cells.mark();
    let mut pairs = Vec::new(alloc);
    pairs.extend_from_slice(found.pairs.as_slice())?;
    if rests.len() >= MOST {
        rests.clear();
    }
    rests.push(Rest {
        left: found.left,
        right: found.right,
        pairs,
    })?;
    Ok(())
}

/// Keeps what is left of comparisons, of each that is worth it.
pub(crate) fn keep_each<N: NameValue>(
    cells: &Cells<N>,
    rests: &mut Vec<Rest>,
    alloc: Global,
    remembered: &[Remembered],
) -> Result<(), AllocError>
    requires rests { AreRests N.built cells.now.held rests.old.items }
    requires remembered { All (IsRemembered N.built cells.now.held) remembered.now }
    ensures { AreRests N.built cells.now.held rests.new.items }
{
    let mut rest = remembered;
    while let [first, more @ ..] = rest {
        if first.is_worth_keeping {
            keep(cells, rests, alloc, first)?;
        }
        rest = more;
    }
    Ok(())
}

/// Lets go of all rests. It stands apart, since most stores keep none.
#[inline]
pub(crate) fn forget_rests(rests: &mut Vec<Rest>)
    ensures { rests.new.items ≡ [] }
{
    if !rests.is_empty() {
        rests.clear();
    }
}
