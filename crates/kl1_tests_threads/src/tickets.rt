// Checks of tickets, also with several threads.

mod checks;
mod left;
mod stand_ins;
mod threads;

pub use checks::put_checks;
