// What is shown of a shoen.

use crate::numbers::ShoenNo;
use kl1_model::Condition;

/// What is shown of a shoen: its number; its parent, `None` if the console started it; its state; what it was charged and its
/// allowance, both in reductions; and how many goals it has, those of its descendants and its monitor not among them.
#[derive(Clone, Copy)]
pub struct ShoenView {
    pub number: ShoenNo,
    pub parent: Option<ShoenNo>,
    pub condition: Condition,
    pub charged: u64,
    pub allowance: u64,
    pub alive: u64,
}
