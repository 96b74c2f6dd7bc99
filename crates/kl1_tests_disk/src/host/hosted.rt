// A host that is started, asked and stopped.

use crate::host::guest::{Guest, Visit, keys};
use crate::sums::text_in;
use kl1_host_journals::{OpenFault, open_file};
use kl1_host_work::{AccountFile, Limits, Listeners, Opener, Setup, StartFault, Syncing, run_host};
use kl1_log::{LogFile, Memory};
use kl1_pool::{AccountName, Rules};
use kl1_session::Key;
use std::alloc::{AllocError, Global};
use std::io;
use std::net::{Net, TcpListener, TcpStream};
use std::sync::{Mutex, Wait};
use std::thread::Threads;
use std::time::{Clock, Duration};

/// How the host is set up: one that does nothing that isn't asked for.
pub(crate) fn setup() -> Setup {
    Setup {
        workers: 0,
        connections: 4,
        limits: Limits {
            each: 4,
            waiting_each: 4,
            idle: Duration::from_secs(30),
            idle_login: Duration::from_secs(30),
        },
        syncing: Syncing {
            replies_wait: true,
            period: Duration::from_secs(3_600),
        },
        codes_each: 1_000,
        memory_each: u64::MAX,
        disk_each: u64::MAX,
        accounts: 2,
        places: 2,
    }
}

/// What came of a host: what it replied, and the texts of the journals that are surely on disk.
#[derive(Drop)]
pub(crate) struct Outcome {
    pub(crate) replies: Vec<u8>,
    pub(crate) files: Vec<Vec<u8>>,
}

/// Opens files in memory with these bytes, which do as many calls and bytes as `left` says, for the accounts of these keys.
#[derive(Drop)]
struct TextOpener<'o> {
    alloc: Global,
    keys: &'o [Key],
    texts: &'o [&'o [u8]],
    left: usize,
}

impl Opener<Memory> for TextOpener<'_> {
    fn open(&self, account: usize) -> Result<AccountFile<Memory>, OpenFault> {
        let (Some(key), Some(text)) = (self.keys.get(account), self.texts.get(account)) else {
            return Err(OpenFault::Failed(io::Error::other("no account")));
        };
        let (Some(name), Ok(bytes)) = (
            AccountName::read(key.name.as_slice()),
            Vec::from_slice(self.alloc, text),
        ) else {
            return Err(OpenFault::Failed(io::Error::other("no name")));
        };
        let disk = Memory::new(self.alloc, bytes, self.left);
        let opened = open_file(self.alloc, disk, Rules::Five, false)?;
        Ok(AccountFile { name, opened })
    }
}

/// The texts of the journals that are surely on the disks of files, if each of their lines has its sum.
fn on_disk(alloc: Global, files: &[LogFile<Memory>]) -> Result<Vec<Vec<u8>>, AllocError> {
    let mut all = Vec::new(alloc);
    for file in files {
        match file.disk().left_by_crash(0, false)? {
            Some(bytes) => all.push(text_in(alloc, bytes)?)?,
            None => return Err(AllocError),
        }
    }
    Ok(all)
}

/// Starts a host on files with these bytes, which do as many calls and bytes as `left` says, sends it lines, and stops it.
pub(crate) fn hosted<R>(
    rt: &R,
    alloc: Global,
    texts: &[&[u8]],
    left: usize,
    lines: &[u8],
) -> Result<Outcome, StartFault>
where
    R: Net<Listener = TcpListener, Stream = TcpStream> + Threads + Wait + Clock + Sync,
{
    visited(rt, alloc, texts, left, lines, Visit::Whole, setup())
}

/// Like `hosted`, of a host that is set up and visited so.
pub(crate) fn visited<R>(
    rt: &R,
    alloc: Global,
    texts: &[&[u8]],
    left: usize,
    lines: &[u8],
    visit: Visit,
    setup: Setup,
) -> Result<Outcome, StartFault>
where
    R: Net<Listener = TcpListener, Stream = TcpStream> + Threads + Wait + Clock + Sync,
{
    let keys = keys(alloc)?;
    let listener = match TcpListener::bind(rt, "127.0.0.1:0") {
        Ok(listener) => listener,
        Err(_) => return Err(StartFault::Threads),
    };
    let address = match listener.local_addr() {
        Ok(address) => address,
        Err(_) => return Err(StartFault::Threads),
    };
    let guest = Guest {
        rt,
        alloc,
        keys: keys.as_slice(),
        address,
        lines,
        visit,
        open: Mutex::new(None),
        replies: Mutex::new(Vec::new(alloc)),
    };
    let listeners = Listeners {
        clients: &listener,
        browsers: None,
    };
    let opener = TextOpener {
        alloc,
        keys: keys.as_slice(),
        texts,
        left,
    };
    let files = run_host(rt, alloc, listeners, &guest, &opener, setup)?;
    let Guest { replies, .. } = guest;
    Ok(Outcome {
        replies: replies.into_inner(),
        files: on_disk(alloc, files.as_slice())?,
    })
}
