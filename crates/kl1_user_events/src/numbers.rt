// The numbers of an account's goals and shoens, and of a predicate's clauses.

/// The number of a goal in its account, from 1.
#[derive(Clone, Copy)]
pub struct GoalNo(pub u64);

/// The number of a clause in its predicate, from 1, or 0, by which goals fail and built-in goals are reduced.
#[derive(Clone, Copy)]
pub struct ClauseNo(pub u64);

/// The number of a shoen in its account, from 1.
#[derive(Clone, Copy)]
pub struct ShoenNo(pub u64);
