// The checks by their names.

use crate::report::{Text, put_check};
use crate::server::memory::{is_closed_after_each_failure, is_same_at_each_cut};
use crate::server::socket::is_same_over_a_socket;
use std::net::{Net, TcpListener, TcpStream};
use std::sync::Wait;
use std::thread::Threads;

/// Puts a line on each check after a report.
pub fn put_checks<R>(rt: &R, out: &mut Text)
where
    R: Net<Listener = TcpListener, Stream = TcpStream> + Threads + Wait + Sync,
{
    let is_right = is_same_at_each_cut(rt, out.alloc);
    put_check(
        out,
        b"logins_and_commands_over_memory_cut_at_each_place",
        Ok(is_right),
    );
    let is_right = is_closed_after_each_failure(rt, out.alloc);
    put_check(
        out,
        b"no_session_is_open_after_a_call_of_a_stream_that_fails",
        Ok(is_right),
    );
    let is_right = is_same_over_a_socket(rt, out.alloc);
    put_check(out, b"logins_and_commands_over_a_socket", Ok(is_right));
}
