//! A server whose accounts outlive it, at work: accounts of a pool that are restored from their files, behind a listening socket, and what
//! is told to clients is on disk.
#![tactic(auto)]

mod account_place;
mod answers;
mod attending;
mod board;
mod budget;
mod connection;
mod connections;
mod exchange;
mod failing;
mod filling;
mod front;
mod handler;
mod histories;
mod host;
mod keeping;
mod last_note;
mod linking;
mod live;
mod lobby;
mod noting;
mod overruns;
mod place;
mod restoring;
mod running;
mod sources;
mod start_fault;
mod starting;
mod steering;
mod view;
mod visit;
mod visitors;
mod watching;

pub use account_place::{AccountPlace, PlaceState};
pub use budget::Budget;
pub use connection::serve;
pub use exchange::Notice;
pub use front::{Front, HostEvent, HostView, Performer, Sight};
pub use handler::HostHandler;
pub use host::{Host, Syncing};
pub use keeping::Opener;
pub use kl1_host_journals::{Keeper, OpenFault, Outgoing};
pub use kl1_pool::BookTotals;
pub use kl1_session::Disconnect;
pub use live::{Amounts, Live};
pub use lobby::Limits;
pub use restoring::AccountFile;
pub use running::Listeners;
pub use start_fault::StartFault;
pub use starting::{Setup, run_host};
pub use steering::Steering;
