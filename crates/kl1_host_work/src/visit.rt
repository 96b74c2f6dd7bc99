// A connection, and how far who connected has come.

ghost use Rattle.std.specs.Prelude.{◌≡◌};

use crate::answers::Answers;
use crate::lobby::Limits;
use kl1_session::Door;
use std::io::{self, ErrorKind, Read};
use std::net::{Shutdown, TcpStream};
use std::sync::Wait;
use std::sync::atomic::{AtomicBool, AtomicUsize, Ordering};
use std::time::{Clock, Duration};

/// The most bytes that are read of a connection that has shown no key: a login, a request for the page, a load that is refused. So what
/// strangers send takes little memory.
const MOST_STRANGE_BYTES: usize = 131_072;

/// A connection, and how far who connected has come: one that has shown no key is a stranger's.
#[derive(Drop)]
pub(crate) struct Visit {
    stream: TcpStream,
    /// How long it may be silent once it is in.
    idle: Duration,
    /// Whether a key has let in, or the cookie and the token of a session.
    is_in: AtomicBool,
    /// Whether a key is looked at: its thread may wait for a pause, and doesn't read meanwhile.
    is_trying: AtomicBool,
    /// 0, or one more than the number of the account of which an answer to it is made or written.
    answers: AtomicUsize,
    /// 0, or one more than the number of the account to which a key has let in last.
    account: AtomicUsize,
    /// Whether it is of a browser.
    is_page: AtomicBool,
}

impl Visit {
    /// A connection of which nothing is known.
    pub(crate) fn new(stream: TcpStream, limits: Limits) -> Self {
        let _ = stream.set_nodelay(true);
        set_up(&stream, limits.idle_login);
        Visit {
            stream,
            idle: limits.idle,
            is_in: AtomicBool::new(false),
            is_trying: AtomicBool::new(false),
            answers: AtomicUsize::new(0),
            account: AtomicUsize::new(0),
            is_page: AtomicBool::new(false),
        }
    }

    /// Whether an answer of this account to it may be made: not if as many are that aren't read.
    pub(crate) fn begin_answer<W: Wait>(
        &self,
        rt: &W,
        answers: &[Answers],
        account: usize,
    ) -> bool {
        let mark = account.saturating_add(1);
        if self.answers.load(Ordering::SeqCst) == mark {
            return true;
        }
        self.end_answer(rt, answers);
        let may_begin = match answers.get(account) {
            Some(others) => others.begin(rt),
            None => false,
        };
        if may_begin {
            self.answers.store(mark, Ordering::SeqCst);
        }
        may_begin
    }

    /// Takes in that what was answered to it is written.
    pub(crate) fn end_answer<W: Wait>(&self, rt: &W, answers: &[Answers]) {
        let mark = self.answers.swap(0, Ordering::SeqCst);
        if let Some(account) = mark.checked_sub(1)
            && let Some(others) = answers.get(account)
        {
            others.end(rt);
        }
    }

    /// The connection.
    pub(crate) fn stream(&self) -> &TcpStream {
        &self.stream
    }

    /// Notes that a key has let in, or the cookie and the token of a session. From now on it ends by silence alone, and what is written to it
    /// may wait as long.
    pub(crate) fn let_in(&self) {
        if !self.is_in.swap(true, Ordering::SeqCst) {
            set_up(&self.stream, self.idle);
        }
    }

    /// Notes to which account a key has let in.
    pub(crate) fn note_account(&self, account: usize) {
        self.account
            .store(account.saturating_add(1), Ordering::SeqCst);
    }

    /// Notes that it is of a browser.
    pub(crate) fn note_page(&self) {
        self.is_page.store(true, Ordering::SeqCst);
    }

    /// Whether a key has let in to one of these accounts last.
    pub(crate) fn is_of(&self, accounts: &[usize]) -> bool {
        match self.account.load(Ordering::SeqCst).checked_sub(1) {
            Some(account) => accounts.contains(&account),
            None => false,
        }
    }

    /// Whether it is of a browser, or of somebody who has shown no key.
    pub(crate) fn is_open_to_all(&self) -> bool {
        self.is_page.load(Ordering::SeqCst) || !self.is_in()
    }

    /// Reads nothing more of it: what it is answered is still written, and then it ends.
    pub(crate) fn end_reading(&self) {
        let _ = self.stream.shutdown(Shutdown::Read);
    }

    /// Whether a key has let in.
    pub(crate) fn is_in(&self) -> bool {
        self.is_in.load(Ordering::SeqCst)
    }

    /// Whether a key is looked at.
    pub(crate) fn is_trying(&self) -> bool {
        self.is_trying.load(Ordering::SeqCst)
    }

    /// Ends it: what its thread reads or writes from now on fails.
    pub(crate) fn end(&self) {
        let _ = self.stream.shutdown(Shutdown::Both);
    }
}

/// Who lets in whoever has connected: a door, from which the connection takes in that a key was right.
#[derive(Drop)]
pub(crate) struct WatchedDoor<'v, D: Door + Drop> {
    pub(crate) door: D,
    pub(crate) visit: &'v Visit,
}

impl<D: Door + Drop> Door for WatchedDoor<'_, D> {
    ghost accounts = { λ w. D.accounts w.door };

    ghost opens = { λ w. D.opens w.door };

    fn open(&mut self, name: &[u8], key: &[u8]) -> Option<usize> {
        self.visit.is_trying.store(true, Ordering::SeqCst);
        let found = self.door.open(name, key);
        // Before its key is no longer looked at, so that it never gives way as others do.
        if let Some(account) = found {
            self.visit.note_account(account);
            self.visit.let_in();
        }
        self.visit.is_trying.store(false, Ordering::SeqCst);
        found
    }
}

/// Lets a peer that sends nothing, or doesn't read, hold its thread for this long at most. A socket that can't do this serves all the same.
fn set_up(stream: &TcpStream, silence: Duration) {
    let _ = stream.set_read_timeout(Some(silence));
    let _ = stream.set_write_timeout(Some(silence));
}

/// The time since some start; 0 if the clock can't be read.
pub(crate) fn now_of<R: Clock>(rt: &R) -> Duration {
    match rt.monotonic() {
        Ok(time) => time,
        Err(_) => Duration::from_millis(0),
    }
}

/// What is read from a connection. A stranger's ends a time after it began, whatever comes meanwhile; later it ends by silence alone.
#[derive(Drop)]
pub(crate) struct VisitReader<'v, R: Wait + Clock> {
    rt: &'v R,
    visit: &'v Visit,
    idle_login: Duration,
    /// When it began.
    begun: Duration,
    /// How many bytes were read of it.
    count: usize,
    /// Where it is told that an answer was read.
    answers: &'v [Answers],
}

impl<'v, R: Wait + Clock> VisitReader<'v, R> {
    /// What is read from a connection that begins now.
    pub(crate) fn new(rt: &'v R, visit: &'v Visit, limits: Limits, answers: &'v [Answers]) -> Self {
        VisitReader {
            rt,
            visit,
            idle_login: limits.idle_login,
            begun: now_of(rt),
            count: 0,
            answers,
        }
    }

    /// Lets the next read of a stranger, and what is written to it, wait until the time of the connection is over; `false` if it is, or if
    /// too much was read.
    fn hurry(&self) -> bool {
        let gone = now_of(self.rt).saturating_sub(self.begun);
        let left = self.idle_login.saturating_sub(gone);
        if left.is_zero() || self.count >= MOST_STRANGE_BYTES {
            return false;
        }
        set_up(&self.visit.stream, left);
        true
    }
}

impl<R: Wait + Clock> Read for VisitReader<'_, R> {
    fn read(&mut self, buf: &mut [u8]) -> io::Result<usize> {
        // What was answered is on its way before more is read.
        self.visit.end_answer(self.rt, self.answers);
        if !self.visit.is_in() && !self.hurry() {
            return Err(io::Error::from(ErrorKind::TimedOut));
        }
        let mut stream = &self.visit.stream;
        let count = stream.read(buf)?;
        self.count = self.count.saturating_add(count);
        Ok(count)
    }
}
