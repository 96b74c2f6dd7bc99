// The front equation, one kind of cell after another.

ghost use Rattle.std.specs.Prelude.{◌≡◌, ℕ, suc, ◌<◌, false, length, slice_get};
ghost use Rattle.kl1_store.specs.Held.{Held, is_bound, IsIn, IsWalked};
ghost use Rattle.kl1_store.specs.Sound.{IsFormed};
ghost use Rattle.kl1_store.specs.Meets.{MeetsAs};
ghost use Rattle.kl1_store.specs.Value.{IsNoVariable};

use crate::cell::Cell;
use crate::cells::Cells;
use crate::frame::Frame;
use crate::meeting::Meeting;
use kl1_text::NameValue;

/// What an equation of two cells leads to, neither of them a bound variable.
pub fn meet<N: NameValue>(cells: &Cells<N>, left: Cell<N>, right: Cell<N>) -> Meeting<N>
    requires formed { IsFormed cells.now.held }
    requires left_in { IsIn cells.now.held left }
    requires right_in { IsIn cells.now.held right }
    requires left_walked { IsWalked cells.now.held left }
    requires right_walked { IsWalked cells.now.held right }
    ensures { MeetsAs N.built cells.now.held left right result }
{
    if let Some(variable) = left.variable() {
        return match right.variable() {
            Some(other) => two_variables(cells, variable, other),
            None => Meeting::Bind(variable, right),
        };
    }
    if let Some(variable) = right.variable() {
        return Meeting::Bind(variable, left);
    }
    match left {
        Cell::Integer(integer) => match right {
            Cell::Integer(other) => {
                if integer == other {
                    return Meeting::Same;
                }
                Meeting::Clash
            }
            _ => Meeting::Clash,
        },
        Cell::Atom(name) => match right {
            Cell::Atom(other) => {
                if name.same(&other) {
                    return Meeting::Same;
                }
                Meeting::Clash
            }
            _ => Meeting::Clash,
        },
        Cell::Structure(structure) => match right {
            Cell::Structure(other) => two_structures(cells, structure, other),
            _ => Meeting::Clash,
        },
        Cell::Variable(_) => Meeting::Clash,
    }
}

fn two_variables<N: NameValue>(cells: &Cells<N>, left: u32, right: u32) -> Meeting<N>
    requires formed { IsFormed cells.now.held }
    requires left_in { left < cells.now.held.variables }
    requires right_in { right < cells.now.held.variables }
    requires left_walked { is_bound left cells.now.held.bindings ≡ false }
    requires right_walked { is_bound right cells.now.held.bindings ≡ false }
    ensures { MeetsAs N.built cells.now.held (Cell.Variable left) (Cell.Variable right) result }
{
    if left == right {
        return Meeting::Same;
    }
    if left < right {
        return Meeting::Bind(right, Cell::Variable(left));
    }
    Meeting::Bind(left, Cell::Variable(right))
}

fn two_structures<N: NameValue>(cells: &Cells<N>, left: u32, right: u32) -> Meeting<N>
    requires left_in { left < length cells.now.held.structures }
    requires right_in { right < length cells.now.held.structures }
    ensures { MeetsAs N.built cells.now.held (Cell.Structure left) (Cell.Structure right) result }
{
    if left == right {
        return Meeting::Same;
    }
    let first = cells.head(left);
    let second = cells.head(right);
    if first.count != second.count {
        return Meeting::Clash;
    }
    if first.name.same(&second.name) {
        return Meeting::Open(Frame {
            left,
            right,
            next: 0,
            count: first.count,
        });
    }
    Meeting::Clash
}
