// Checks of the table of names, also with several threads, and how fast names that are known are found in it.

mod agreement;
mod checks;
mod look_ups;
mod names;
mod seats;
mod sources;
mod tells;
mod times;

pub use checks::put_checks;
pub use tells::put_times;
