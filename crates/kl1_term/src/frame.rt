// What is to be printed after a term.

/// What is to be printed after the term that is being printed.
#[derive(Clone, Copy)]
pub(crate) enum Frame {
    /// The number of further arguments, each after a comma, and then `)`.
    Arguments(usize),
    /// The rest of a list, whose element the term is.
    Tail,
    /// The end of a list, whose last tail the term is.
    Bracket,
}
