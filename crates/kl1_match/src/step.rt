// What stands at the top of a term that is to be built.

/// What stands at the top of a term that is to be built: the number of a variable, an integer, an atom, or the name of a
/// structure with the number of its arguments.
pub(crate) enum Step<N> {
    Variable(u64),
    Integer(i64),
    Atom(N),
    Structure(N, usize),
}
