// Checks of a host over sockets of this machine and files in memory: it is stopped, its files are cut or fail, and it is started again.

mod guest;
mod hosted;
mod restarts;
mod visits;

use crate::host::restarts::{
    accounts_go_on_after_a_restart, cut_file_is_restored_to_its_whole_lines,
    failing_file_acknowledges_nothing_that_is_lost, refused_entry_ends_the_start,
};
use crate::host::visits::{
    address_has_a_limit, loads_have_a_limit, stop_ends_open_connections, stop_writes_what_is_left,
};
use crate::report::Report;
use std::alloc::Global;
use std::net::{Net, TcpListener, TcpStream};
use std::sync::Wait;
use std::thread::Threads;
use std::time::Clock;

/// Puts the line on each check.
pub(crate) fn put_checks<R>(report: &mut Report, rt: &R, alloc: Global)
where
    R: Net<Listener = TcpListener, Stream = TcpStream> + Threads + Wait + Clock + Sync,
{
    report.put(
        b"accounts_go_on_after_a_restart",
        Ok(accounts_go_on_after_a_restart(rt, alloc)),
    );
    report.put(
        b"cut_file_is_restored_to_its_whole_lines",
        cut_file_is_restored_to_its_whole_lines(rt, alloc),
    );
    report.put(
        b"refused_entry_ends_the_start",
        Ok(refused_entry_ends_the_start(rt, alloc)),
    );
    report.put(
        b"failing_file_acknowledges_nothing_that_is_lost",
        Ok(failing_file_acknowledges_nothing_that_is_lost(rt, alloc)),
    );
    report.put(
        b"stop_ends_open_connections",
        Ok(stop_ends_open_connections(rt, alloc)),
    );
    report.put(b"address_has_a_limit", Ok(address_has_a_limit(rt, alloc)));
    report.put(
        b"stop_writes_what_is_left",
        Ok(stop_writes_what_is_left(rt, alloc)),
    );
    report.put(b"loads_have_a_limit", Ok(loads_have_a_limit(rt, alloc)));
}
