// What a byte stands in.

/// What a byte of a source stands in.
#[derive(Clone, Copy)]
pub enum Within {
    /// Neither of the others.
    Plain,
    /// Quotes.
    Quotes,
    /// A comment.
    Comment,
}
