// What stands at the top of a cell's term.

use kl1_text::CellName;

/// What stands at the top of a cell's term, names as numbers: the number of a variable, an integer, an atom, or the name of a
/// structure with the number of its arguments.
#[derive(Clone, Copy)]
pub(crate) enum Top {
    Variable(u32),
    Integer(i64),
    Atom(CellName),
    Structure(CellName, usize),
}
