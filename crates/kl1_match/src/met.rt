// What comes of a pattern beside a term.

/// What comes of a pattern beside a term.
#[derive(Clone, Copy)]
pub(crate) enum Met {
    /// They agree, or their arguments decide.
    Agrees,
    /// The term is this unbound variable, for which the pattern waits.
    Waits(u32),
    /// They never agree.
    Clashes,
}
