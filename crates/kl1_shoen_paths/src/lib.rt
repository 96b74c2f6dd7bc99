//! What goes along the parents of shoens: charges, which are raised on a path, and the way down from a shoen to all below it.
#![tactic(auto)]

mod children;
mod parents;
mod raising;
mod shoen;
mod tracked;
mod walking;

pub use children::ChildLists;
pub use parents::{lent, parent_of};
pub use raising::raise;
pub use shoen::{Origin, Shoen};
pub use tracked::{TrackedList, Was, item_at, put_all_back};
pub use walking::flag_of;
