// Rows and checks on accounts that threads command while workers go on with them; and how fast that is.

mod checks;
mod job;
mod play;
mod replaying;
mod restoring;
mod rows;
mod setup;
mod speeds;
mod starts;
mod tells;
mod threads;
mod tried;
mod wakes;

pub use checks::put_checks;
pub use rows::is_right;
pub use tells::{put_idle, put_times};
