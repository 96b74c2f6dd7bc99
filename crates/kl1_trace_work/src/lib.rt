//! What is told of the steps of a run: each one in a trace, and what each predicate did in a profile.
#![tactic(auto)]

mod changes;
mod columns;
mod computed;
mod equated;
mod json;
mod pattern;
mod predicates;
mod prints;
mod profile;
mod seen;
mod table;
mod texts;
mod trace;
mod viewer;
mod waits;

pub use columns::put_front;
pub use equated::split_term;
pub use json::profile_json;
pub use pattern::Pattern;
pub use predicates::{Calling, Predicates};
pub use profile::{Counts, Profile, Row};
pub use seen::{NewGoal, Next, Observer, Seen};
pub use table::put_table;
pub use texts::{Texts, put_kind, put_name, put_readable, word_of};
pub use trace::Trace;
pub use viewer::{MOST_TEXT, Viewer, Watched, watch_first, watch_once, watch_step};
