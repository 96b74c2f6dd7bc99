// What a look-up that publishes nothing finds.

/// What one bucket of a text's way shows.
#[derive(Clone, Copy)]
pub enum Glance {
    /// It is free.
    Free,
    /// It points to this entry, which has the text.
    Holds(u64),
    /// It points to an entry that has another text.
    Other,
}

/// Where a text's way ends.
#[derive(Clone, Copy)]
pub enum Sought {
    /// At this bucket, which points to this entry, which has the text.
    Found(u64, u64),
    /// At a free bucket, this many after the first.
    Free(u64),
}
