// What is asked of an account.

use kl1_command::UnbookedHost;
use kl1_user_events::{Event, Query, Reply};
use std::alloc::AllocError;

/// What is answered to a query, which changes nothing.
pub(crate) fn ask<H: UnbookedHost>(host: &mut H, query: Query) -> Result<Reply, AllocError> {
    host.apply(&Event::Read(query))
}
