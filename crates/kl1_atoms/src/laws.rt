// What holds of the shared table between any two steps.

ghost use Rattle.std.specs.Prelude.{ℕ};
ghost use Rattle.atomic_table.specs.Table.{State};
ghost use Rattle.kl1_atoms.specs.declared.face.View.{View as Seen};
ghost use Rattle.kl1_atoms.specs.Laws.{RuleShowsNames, ShowsNames};

use crate::atom_table::AtomTable;
use crate::face::{Size, View};
use crate::law::Law;
use atomic_table::{Table, TableRule};
use std::alloc::Global;

/// At each moment the shared table's words show a table of names, what each seat knows is in it, what each has noted on the
/// way is so, and no text is published twice. It does nothing: its contract is this law.
pub fn words_show_names()
    ensures { RuleShowsNames }
{}

impl AtomTable {
    /// Tells a caller's proof that whatever the rule of this table keeps between any two steps shows names. It does nothing.
    pub fn shows_names(&self)
        ensures { (s : State (Unit {0}) Seen) → ⟦<Law as TableRule<(), View, Size>>⟧.holds self.now.table.shared.key s → ShowsNames self.now.entries s }
    {
        // The type says that this is the table's rule.
        let _table: &Table<(), View, Size, Law, Global> = &self.table;
    }
}
