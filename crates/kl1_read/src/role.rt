// Where a term stands in a clause.

/// Where a term stands in a clause: in its head, or in its guard after a head whose variables have numbers up to this.
#[derive(Clone, Copy)]
pub(crate) enum Role {
    Pattern,
    Test(u64),
}
