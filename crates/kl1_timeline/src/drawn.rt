// What stands in a picture of a run.

/// A process: a goal, and after each of its steps the goal that goes on with it.
#[derive(Drop)]
pub struct Lane {
    pub label: Vec<u8>,
    pub shoen: u64,
    /// The step that made it, and the one after which none of its goals is left, if there is one.
    pub begin: u64,
    pub end: Option<u64>,
    /// How many goals of it there are.
    pub alive: u64,
}

/// How a step is drawn.
#[derive(Clone, Copy)]
pub enum Mark {
    Reduction,
    BuiltIn,
    Exception,
}

/// A step in a lane.
#[derive(Drop)]
pub struct Dot {
    pub lane: usize,
    pub step: u64,
    pub mark: Mark,
    pub text: Vec<u8>,
}

/// A time in which a goal of a lane couldn't step: after a step, and up to another, if it wakes.
#[derive(Clone, Copy)]
pub struct Bar {
    pub lane: usize,
    pub goal: u64,
    pub begin: u64,
    pub end: Option<u64>,
}

/// What one lane did to another in a step.
#[derive(Clone, Copy)]
pub struct Arrow {
    pub from: usize,
    pub to: usize,
    pub step: u64,
    /// The goal that woke; `None` if the other lane was made.
    pub woken: Option<u64>,
}

/// What a shoen reported in a step.
#[derive(Drop)]
pub struct Report {
    pub step: u64,
    pub text: Vec<u8>,
    pub is_exception: bool,
}
