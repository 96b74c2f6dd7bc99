//! The server at work: accounts of a pool behind a listening socket, one thread a connection and one a worker; what it is asked for,
//! and what it tells.
#![tactic(auto)]

mod accounts;
mod connection;
mod pool_handler;
mod run;
mod server;
mod startup;
mod startup_error;
mod threads;
mod told;
mod words;

pub use accounts::read_accounts;
pub use connection::serve;
pub use kl1_lines::FailureCounter;
pub use kl1_pool::Totals;
pub use kl1_session::{Disconnect, Key};
pub use run::{run_server, stop};
pub use server::serve_all;
pub use startup::{Startup, ready_by};
pub use startup_error::StartupError;
pub use told::put_served;
pub use words::{MOST_ACCEPT, MOST_WORKERS, Words, words_in};
