// What is counted of an account.

/// The last number of a goal; how many variables and structures starts, messages, answers and commits had; how many reports were made.
#[derive(Clone, Copy)]
pub struct Counts {
    pub last_goal: u64,
    pub variables: u64,
    pub nodes: u64,
    pub reports: u64,
}
