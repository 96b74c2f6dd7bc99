// Checks of the tally, also with several threads, and how fast events are counted in it.

mod checks;
mod counting;
mod raising;
mod sums;
mod tells;
mod times;

pub use checks::put_checks;
pub use tells::put_times;
