// Arguments of structures that stand in a row.

/// Arguments by their places among those of all structures of a store, from 0: those from `next` on and before `end`.
#[derive(Clone, Copy)]
pub struct Span {
    pub next: u32,
    pub end: u32,
}
