// Where predicates stand.

use kl1_clause::Predicate;
use kl1_text::CellName;

/// A predicate that was found among the modules of an account, and a number that says where it stands. Whoever gives that number when he
/// looks for it again spares the search; it says where to look, and nothing of what stands there.
#[derive(Clone, Copy)]
pub struct Located<'a> {
    pub place: u64,
    pub predicate: Predicate<'a, CellName>,
}

/// The number for the place of a module in order of loading and a row of its index, from 0.
pub(crate) fn place_of(module: usize, row: usize) -> u64 {
    (module as u64) << 32 | row as u64
}

/// The place of the module that a number says.
pub(crate) fn module_in(place: u64) -> usize {
    (place >> 32) as usize
}

/// The row of the module's index that it says.
pub(crate) fn row_in(place: u64) -> usize {
    (place & 0xffff_ffff) as usize
}
