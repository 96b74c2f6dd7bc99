// When an account comes to take more bytes than it may, and when it no longer does.

ghost use Rattle.std.specs.Prelude.{◌≡◌, ◌<◌, false, length, nat_lt, slice_index_or, slice_set};
ghost use Rattle.kl1_host_work.specs.Overruns.{told_of};

use crate::front::HostEvent;

/// What is told of an account that takes this many bytes, of which it may take `most`; `None` if nothing has changed. `over` has of each
/// account whether it took too many when it was looked at last.
pub(crate) fn change_of(
    over: &mut [bool],
    account: usize,
    bytes: u64,
    most: u64,
) -> Option<HostEvent>
    requires { account < length over.old }
    ensures told { result ≡ told_of (slice_index_or over.old account false) (nat_lt most bytes) account bytes }
    ensures over { over.new ≡ slice_set over.old account (nat_lt most bytes) }
{
    let was = over[account];
    let is = most < bytes;
    over[account] = is;
    match (was, is) {
        (false, true) => Some(HostEvent::Full { account, bytes }),
        (true, false) => Some(HostEvent::Freed { account, bytes }),
        _ => None,
    }
}
