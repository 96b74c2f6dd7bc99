// Variables that become constants, in room that is there.

ghost use Rattle.std.specs.Prelude.{◌≡◌, ◌<◌, false, OnOk, OnErr, IsOk};
ghost use Rattle.kl1_store.specs.declared.unified.Unified.TheVariants.{Bound};
ghost use Rattle.kl1_store.specs.Held.{with_binding, is_bound};
ghost use Rattle.kl1_store.specs.Constants.{IsConstant, HasJustBound, Rebinds};
ghost use Rattle.kl1_store.specs.Levels.{AreLevels};
ghost use Rattle.kl1_store.specs.Spending.{SpendsOnBindings};
ghost use Rattle.kl1_store.specs.Unification.{UnifiesAs};

use crate::cell::Cell;
use crate::cells::Cells;
use crate::levels::Levels;
use crate::mark::Mark;
use crate::point::Point;
use crate::rest::forget_rests;
use crate::store::Store;
use crate::take_back::take_back;
use kl1_text::NameValue;
use std::alloc::AllocError;

/// Binds the variable that alone was bound since a mark, to a constant, to another one instead.
fn rebind<N: NameValue>(
    cells: &mut Cells<N>,
    levels: &mut Levels,
    mark: Mark,
    variable: u32,
    constant: Cell<N>,
)
    requires constant { IsConstant constant }
    requires bound { HasJustBound mark variable cells.old.held }
    requires levels { AreLevels cells.old.held levels.old }
    ensures held { Rebinds mark variable constant cells.old.held cells.new.held }
    ensures count { cells.new.held.variables ≡ cells.old.held.variables }
    ensures levels { AreLevels cells.new.held levels.new }
{
    take_back(cells, levels, mark);
    match cells.bind(variable, constant) {
        Ok(()) => {}
        Err(_refused) => unreachable!(),
    }
}

impl<N: NameValue> Store<N> {
    /// Binds the variable that alone was bound since a mark, to a constant, to another one instead, without memory. What hangs on
    /// variables stays.
    pub fn rebind_constant(&mut self, mark: Point, variable: u32, constant: Cell<N>)
        requires constant { IsConstant constant }
        requires bound { HasJustBound mark.sizes variable self.old.held }
        ensures held { Rebinds mark.sizes variable constant self.old.held self.new.held }
        ensures hooks { self.new.hooks ≡ self.old.hooks }
    {
        self.fingers.cut(mark.sizes);
        rebind(
            &mut self.cells,
            &mut self.levels,
            mark.sizes,
            variable,
            constant,
        );
        forget_rests(&mut self.rests);
    }

    /// Binds an unbound variable to an atom or an integer: what unification of the two does.
    pub fn unify_constant(&mut self, variable: u32, constant: Cell<N>) -> Result<(), AllocError>
        requires within { variable < self.old.held.variables }
        requires unbound { is_bound variable self.old.held.bindings ≡ false }
        requires constant { IsConstant constant }
        ensures held { OnOk result (self.new.held ≡ with_binding self.old.held variable constant) }
        ensures unifies { OnOk result (UnifiesAs N.built self.old.held self.new.held (Cell.Variable variable) constant Bound) }
        ensures err { OnErr result (self.new.held ≡ self.old.held) }
        ensures room { 0 < self.old.room.bindings → IsOk result }
        ensures spends { SpendsOnBindings self.old.held self.old.room self.new.held self.new.room }
        ensures hooks { self.new.hooks ≡ self.old.hooks }
        ensures hook_room { self.new.hook_room ≡ self.old.hook_room }
    {
        self.cells.bind(variable, constant)
    }

    /// Binds an unbound variable to an atom or an integer, in room that is there: what unification of the two does.
    pub fn bind_constant(&mut self, variable: u32, constant: Cell<N>)
        requires within { variable < self.old.held.variables }
        requires unbound { is_bound variable self.old.held.bindings ≡ false }
        requires constant { IsConstant constant }
        requires room { 0 < self.old.room.bindings }
        ensures held { self.new.held ≡ with_binding self.old.held variable constant }
        ensures unifies { UnifiesAs N.built self.old.held self.new.held (Cell.Variable variable) constant Bound }
        ensures spends { SpendsOnBindings self.old.held self.old.room self.new.held self.new.room }
        ensures hooks { self.new.hooks ≡ self.old.hooks }
        ensures hook_room { self.new.hook_room ≡ self.old.hook_room }
    {
        match self.cells.bind(variable, constant) {
            Ok(()) => {}
            Err(_refused) => unreachable!(),
        }
    }
}
