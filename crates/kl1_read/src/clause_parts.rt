// A clause as it is read.

use kl1_term::Term;
use kl1_text::AtomText;

/// A clause as it is read: its predicate's name, a pattern for each argument, its tests, the number of its section, from 0,
/// between the `otherwise`s of its predicate, and the goals of its body.
#[derive(Drop)]
pub struct ClauseParts {
    pub name: AtomText,
    pub patterns: Vec<Term>,
    pub tests: Vec<Term>,
    pub section: u64,
    pub body: Vec<GoalParts>,
}

/// A goal of a body as it is read, with the priority that it names, if any.
#[derive(Drop)]
pub struct GoalParts {
    pub goal: Term,
    pub priority: Option<u64>,
}
