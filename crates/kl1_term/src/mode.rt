// How the next term is printed.

use kl1_text::AtomText;

/// How the next term is printed.
#[derive(Clone, Copy)]
pub(crate) enum Mode {
    /// As it stands alone.
    Whole,
    /// As the rest of a list.
    Rest,
    /// As the first of two arguments of `:`, of which nothing is printed yet.
    Colon,
    /// As the second argument of `:`, whose first one is this atom, and nothing is printed yet.
    Behind(AtomText),
    /// Not at all: the term is printed.
    Done,
}
