// Up to where a journal was put into its file.

/// How many lines of a journal's text were put into its file, and how many reductions the last of them has if it is a run, or else 0.
#[derive(Clone, Copy)]
pub struct Mark {
    pub lines: u64,
    pub run: u64,
}
