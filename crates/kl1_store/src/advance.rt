// The waiting equations, up to the next binding.

ghost use Rattle.std.specs.Prelude.{◌≡◌, ℕ, ◌<◌, List, IfOk};
ghost use Rattle.kl1_store.specs.Held.{IsIn, IsWalked};
ghost use Rattle.kl1_store.specs.Meaning.{term_of};
ghost use Rattle.kl1_store.specs.Nested.{IsNested, ExpectsNext};
ghost use Rattle.kl1_store.specs.Merged.{AreMerged};
ghost use Rattle.kl1_store.specs.Waiting.{IsPair, ArePairs, IsTurn};
ghost use Rattle.kl1_store.specs.Unifies.{ComesTo};

use crate::cell::Cell;
use crate::cells::Cells;
use crate::frame::Frame;
use crate::meeting::Meeting;
use crate::meets::meet;
use crate::merges::Merges;
use crate::next::Next;
use crate::sides::Sides;
use kl1_text::NameValue;
use std::alloc::AllocError;

/// What the arguments in turn of a pair stand for.
pub fn turn<N: NameValue>(cells: &Cells<N>, frame: Frame) -> Sides<N>
    requires pair { IsPair cells.now.held frame }
    requires more { frame.next < frame.count }
    ensures { IsTurn cells.now.held frame result.left result.right }
{
    let left = cells.argument(frame.left, frame.next);
    let right = cells.argument(frame.right, frame.next);
    let left = cells.walk(left);
    let right = cells.walk(right);
    Sides { left, right }
}

/// A cell for another that is equal to it by what was merged.
fn merged<N: NameValue>(cells: &Cells<N>, merges: &mut Merges, cell: Cell<N>) -> Cell<N>
    requires inside { IsIn cells.now.held cell }
    requires walked { IsWalked cells.now.held cell }
    requires merged { AreMerged cells.now.held merges.old }
    ensures merges { merges.new ≡ merges.old }
    ensures inside { IsIn cells.now.held result }
    ensures walked { IsWalked cells.now.held result }
    ensures means { (f : N → List ℕ) → term_of f cells.now.held result ≡ term_of f cells.now.held cell }
{
    match cell {
        Cell::Variable(_) => cell,
        Cell::Integer(_) => cell,
        Cell::Atom(_) => cell,
        Cell::Structure(structure) => Cell::Structure(merges.root(structure)),
    }
}

/// What the arguments in turn of a pair stand for, by what was merged.
fn merged_turn<N: NameValue>(cells: &Cells<N>, merges: &mut Merges, frame: Frame) -> Sides<N>
    requires pair { IsPair cells.now.held frame }
    requires more { frame.next < frame.count }
    requires merged { AreMerged cells.now.held merges.old }
    ensures merges { merges.new ≡ merges.old }
    ensures turn { IsTurn cells.now.held frame result.left result.right }
{
    let Sides { left, right } = turn(cells, frame);
    Sides {
        left: merged(cells, merges, left),
        right: merged(cells, merges, right),
    }
}

/// Takes the waiting equations one after another, until one asks for a binding.
pub fn advance<N: NameValue>(
    cells: &Cells<N>,
    frames: &mut Vec<Frame>,
    merges: &mut Merges,
) -> Result<Next<N>, AllocError>
    requires pairs { ArePairs cells.now.held frames.old.items }
    requires nested { IsNested cells.now.held frames.old.items }
    requires merged { AreMerged cells.now.held merges.old }
    ensures next { IfOk result (ComesTo N.built cells.now.held frames.old.items frames.new.items) }
    ensures expects { IfOk result (ExpectsNext cells.now.held frames.new.items) }
    ensures merged { IfOk result (λ next. AreMerged cells.now.held merges.new) }
{
    // Only for the proof: what the cells hold is formed.
    let _ = cells.mark();
    while let Some(frame) = frames.pop() {
        if frame.next >= frame.count {
            merges.join(frame.left, frame.right)?;
            continue;
        }
        let Sides { left, right } = merged_turn(cells, merges, frame);
        frames.push(frame.onward())?;
        match meet(cells, left, right) {
            Meeting::Same => {}
            Meeting::Clash => return Ok(Next::Never),
            Meeting::Bind(variable, value) => return Ok(Next::Binds(variable, value)),
            Meeting::Open(inner) => frames.push(inner)?,
        }
    }
    Ok(Next::Finished)
}
