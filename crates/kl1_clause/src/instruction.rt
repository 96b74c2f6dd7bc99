// What stands at the top of a term of a clause.

use crate::name::Name;

/// What stands at the top of a term of a clause: the number of a variable, an integer, an atom, or the name of a structure
/// with the number of its arguments, whose instructions follow.
#[derive(Clone, Copy)]
pub enum Instruction {
    Variable(u64),
    Integer(i64),
    Atom(Name),
    Structure(Name, u32),
}
