// Checks on the server: a conversation over streams in memory, cut at each place or failing at each call, and over a socket of this
// machine.

mod checks;
mod memory;
mod pieces;
mod row;
mod socket;

pub use checks::put_checks;
