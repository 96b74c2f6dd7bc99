// What becomes of a report.

/// What becomes of a report: it is dropped, as the stream is broken; the stream is broken from now on; or it is sent, and the
/// stream's tail is the variable of this number. Only a report that is sent was made.
#[derive(Clone, Copy)]
pub enum Told {
    Dropped,
    Broken,
    Sent(u32),
}
