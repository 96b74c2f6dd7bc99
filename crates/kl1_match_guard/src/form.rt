// What a term is at the top.

/// What a term is at the top: an unbound variable, an integer, an atom with its name, or a structure with its name and how many
/// arguments it has.
#[derive(Clone, Copy)]
pub enum Form<N, V, S> {
    Variable(V),
    Integer(i64),
    Atom(N),
    Structure(N, u32, S),
}
