//! What verdicts are made of, the match of a clause's head and its tests, and instances of bodies, over cells.
#![tactic(auto)]

mod agreeing;
mod arguments;
mod at_once;
mod building;
mod goal_cells;
mod heads;
mod instances;
mod meets;
mod met;
mod name_in;
mod passing;
mod place;
mod qualifying;
mod scratch;
mod skips;
mod span;
mod step;
mod test_scratch;
mod test_view;
mod testing;
mod variables;
mod verdict;

pub use agreeing::agrees_with_in_order;
pub use at_once::known_at_once;
pub use goal_cells::{
    put_goal, put_goal_variables, put_told_variables, reserve_goal, reserve_goal_beside,
};
pub use heads::{find_match, judge_plain};
pub use instances::{put_instance, put_kept_instance};
pub use name_in::name_at;
pub use place::Place;
pub use scratch::Scratch;
pub use span::Span;
pub use test_scratch::TestScratch;
pub use test_view::{TestAt, TestStructure, TestVariable, TestView};
pub use testing::run_tests;
pub use verdict::{Verdict, is_rejection};
