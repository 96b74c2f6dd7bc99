// What a comparison came to.

/// What comparing two structures came to.
pub(crate) enum Progress {
    /// They were compared to the end, and nothing clashes.
    Ends,
    /// They clash.
    Clashes,
    /// Too many pairs were compared: it is left to one that knows pairs again.
    Tires,
}
