//! What goals can do, over cells: what goal a cell is, by which clause it can step, what it waits for, and its body's goals.
#![tactic(auto)]

mod assigning;
mod call;
mod calling;
mod codes;
mod committing;
mod judged;
mod kind;
mod look;
mod moves;
mod naming;
mod needs;
mod opening;
mod order;
mod predicates;
mod shape;
mod spelling;
mod standing;
mod substitute;
mod top;
mod trial;
mod walking;

pub use call::Call;
pub use committing::commit;
pub use judged::{call_at, commit_as_judged, move_as_judged};
pub use kind::{Kind, kind_of, kind_of_qualified};
pub use look::Look;
pub use moves::{Move, move_of};
pub use needs::{Needs, needs_of, priorities_of};
pub use order::{ExecuteArguments, look_at_order, number_at, order_at};
pub use predicates::or_none;
pub use spelling::{Spelling, spell};
pub use standing::standing_of;
pub use substitute::{substitute_as_judged, substitute_move, substitute_standing};
pub use trial::Trial;
