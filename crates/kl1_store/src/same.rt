// What passive equality comes to.

/// Whether terms are the same, as far as their variables let it be seen.
#[derive(Drop)]
pub enum Same {
    /// Each two are the same.
    Yes,
    /// Some two can't become the same.
    No,
    /// Neither, until one of these variables is bound; a variable may stand here more than once.
    Wait(Vec<u32>),
}
