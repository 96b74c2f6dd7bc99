// What stands at the top of a term.

use kl1_text::AtomText;

/// What stands at the top of a term: the number of a variable, an integer, an atom, or the name of a structure with the
/// number of its arguments, whose nodes follow.
#[derive(Clone, Copy)]
pub enum Node {
    Variable(u64),
    Integer(i64),
    Atom(AtomText),
    Structure(AtomText, usize),
}
