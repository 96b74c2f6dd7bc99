// The program around a host: a client that sends lines, and what comes back.

use kl1_host_work::{Front, HostEvent, HostView, Performer, PlaceState, Steering};
use kl1_lines::{Sink, Source};
use kl1_session::{Key, Keys};
use std::alloc::{AllocError, Global};
use std::io::{self, Read, Write};
use std::net::{Net, Shutdown, SocketAddr, TcpListener, TcpStream};
use std::sync::{Mutex, Wait};
use std::thread;
use std::time::{Clock, Duration};

/// The seconds for which a client waits for bytes.
const PATIENCE: u64 = 30;

/// The accounts with their keys.
pub(crate) fn keys(alloc: Global) -> Result<Vec<Key>, AllocError> {
    let mut keys = Vec::new(alloc);
    for (name, key) in [(b"alice".as_slice(), b"k1".as_slice()), (b"bob", b"k2")] {
        keys.push(Key {
            name: Vec::from_slice(alloc, name)?,
            key: Vec::from_slice(alloc, key)?,
        })?;
    }
    Ok(keys)
}

/// What is done with a host.
#[derive(Clone, Copy)]
pub(crate) enum Visit {
    /// Lines are sent, and all is read that comes back.
    Whole,
    /// Lines are sent, and as many bytes are read as this says; the connection stays open, and the host is stopped.
    Open(usize),
    /// Besides, another connection is opened meanwhile, of which all is read.
    Second(usize),
}

/// One client, which sends lines and reads what comes back.
#[derive(Drop)]
pub(crate) struct Guest<'g, R> {
    pub(crate) rt: &'g R,
    pub(crate) alloc: Global,
    pub(crate) keys: &'g [Key],
    pub(crate) address: SocketAddr,
    pub(crate) lines: &'g [u8],
    pub(crate) visit: Visit,
    pub(crate) open: Mutex<Option<TcpStream>>,
    pub(crate) replies: Mutex<Vec<u8>>,
}

/// What comes back from a host to lines, up to the end of the connection.
fn asked<R>(rt: &R, alloc: Global, address: SocketAddr, lines: &[u8]) -> io::Result<Vec<u8>>
where
    R: Net<Listener = TcpListener, Stream = TcpStream>,
{
    let stream = TcpStream::connect(rt, address)?;
    stream.set_read_timeout(Some(Duration::from_secs(PATIENCE)))?;
    let mut writer = &stream;
    let mut replies = Vec::new(alloc);
    let mut reader = &stream;
    // The host may have closed it by now; what came before a call that failed counts.
    let _ = writer.write_all(lines);
    let _ = stream.shutdown(Shutdown::Write);
    let _ = reader.read_to_end(&mut replies);
    Ok(replies)
}

/// Sends lines to a host, reads `count` bytes, and leaves the connection open.
fn opened<R>(
    rt: &R,
    alloc: Global,
    address: SocketAddr,
    lines: &[u8],
    count: usize,
) -> io::Result<(TcpStream, Vec<u8>)>
where
    R: Net<Listener = TcpListener, Stream = TcpStream>,
{
    let stream = TcpStream::connect(rt, address)?;
    stream.set_read_timeout(Some(Duration::from_secs(PATIENCE)))?;
    let mut writer = &stream;
    writer.write_all(lines)?;
    let mut replies = Vec::new(alloc);
    let mut buffer = [0u8; 1];
    let mut reader = &stream;
    for _ in 0..count {
        if reader.read(&mut buffer)? == 0 {
            break;
        }
        replies.extend_from_slice(&buffer)?;
    }
    Ok((stream, replies))
}

impl<R> Guest<'_, R>
where
    R: Net<Listener = TcpListener, Stream = TcpStream> + Wait,
{
    /// Sends the lines, and leaves the connection open; what came back.
    fn open(&self, count: usize) -> io::Result<Vec<u8>> {
        let (stream, replies) = opened(self.rt, self.alloc, self.address, self.lines, count)?;
        *self.open.lock(self.rt) = Some(stream);
        Ok(replies)
    }

    /// Visits the host; what came back.
    fn replies(&self) -> io::Result<Vec<u8>> {
        match self.visit {
            Visit::Whole => asked(self.rt, self.alloc, self.address, self.lines),
            Visit::Open(count) => self.open(count),
            Visit::Second(count) => {
                let mut first = self.open(count)?;
                let second = asked(self.rt, self.alloc, self.address, b"quiet\n")?;
                first.extend_from_slice(second.as_slice())?;
                Ok(first)
            }
        }
    }
}

impl<R: Wait + Clock> Guest<'_, R> {
    /// Waits until the account of each key is there; not if the host is to end.
    fn await_accounts<V: Steering>(&self, host: &V) -> bool {
        for _ in self.rt.forever() {
            if host.has_failed() {
                return false;
            }
            let are_open = (0..self.keys.len()).all(|place| matches!(
                host.standing(place),
                PlaceState::Open
            ));
            if are_open {
                return true;
            }
            thread::sleep(self.rt, Duration::from_millis(1));
        }
        false
    }
}

impl<'g, R> Front for Guest<'g, R>
where
    R: Net<Listener = TcpListener, Stream = TcpStream> + Wait + Clock,
{
    type Entrance = Keys<'g>;

    fn keys(&self) -> &[Key] {
        self.keys
    }

    #[tactic(auto, using(kl1_host_work::proofs::OpenedByName::found_by_name, kl1_host_work::proofs::NamesInOrder::length_names))]
    fn door(&self, _address: SocketAddr) -> (Keys<'g>, &[Key]) {
        (Keys { keys: self.keys }, self.keys)
    }

    fn tell(&self, _event: HostEvent) {}

    fn serve_pages<S: Source, T: Sink, P: Performer, V: HostView>(
        &self,
        _address: SocketAddr,
        _keys: &[Key],
        _source: &mut S,
        _sink: &mut T,
        _performer: &mut P,
        _host: &V,
    ) {}

    fn attend<P: Performer, V: HostView + Steering>(
        &self,
        _keys: &[Key],
        _performer: &mut P,
        host: &V,
    ) -> bool {
        if self.await_accounts(host)
            && let Ok(replies) = self.replies()
        {
            *self.replies.lock(self.rt) = replies;
        }
        false
    }
}
