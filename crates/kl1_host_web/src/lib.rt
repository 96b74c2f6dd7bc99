//! What browsers ask of a host: who is let in, what is done for them, and what they are shown.
#![tactic(auto)]

mod accounts;
mod asked_record;
mod granting;
mod incoming;
mod json;
mod metrics;
mod outcome;
mod pages;
mod secret;
mod serve;
mod site;
mod waiting;
mod wish;

pub use accounts::{Accounts, Measures, Stop, Sums, Viewer};
pub use asked_record::AskedRecord;
pub use granting::grant;
pub use kl1_host_door::{BookChange, LoginKeys, SessionBook, Site};
pub use outcome::Outcome;
pub use serve::Service;
pub use site::{Machine, Page};
pub use wish::{Wish, wish_of};
