// What a host tells is told to the log.

use crate::paces::PacedLine;
use crate::program::Program;
use kl1_host_front::{Field, Number};
use kl1_host_web::LoginKeys;
use kl1_log::LogError;
use std::alloc::{AllocError, Global};
use std::fs::File;
use std::io::Write;
use std::net::{SocketAddr, TcpListener};
use std::random::RandomSource;
use std::rt::Files;
use std::sync::Wait;
use std::time::Clock;

/// Why the file of an account can't be written.
fn reason_of(alloc: Global, error: &LogError) -> Result<String, AllocError> {
    match error {
        LogError::Failed(error) => format!(in alloc; "{error}"),
        LogError::Stopped => format!(in alloc; "it couldn't be written before"),
        LogError::NotNext => format!(in alloc; "the entries aren't the next"),
        LogError::Memory => format!(in alloc; "memory was refused"),
    }
}

/// The address and the port at which something listens.
fn local_of(alloc: Global, listener: &TcpListener) -> Result<String, AllocError> {
    match listener.local_addr() {
        Ok(address) => format!(in alloc; "{address}"),
        Err(_) => format!(in alloc; "-"),
    }
}

impl<'f, R: Wait + Clock + Eprint + Files<File = File> + RandomSource, K: LoginKeys> Program<
    'f,
    R,
    K,
> {
    /// Tells that an account is restored.
    pub(crate) fn tell_restored(&self, account: usize, entries: u64) {
        let entries = Number {
            name: b"entries",
            number: entries,
        };
        self.log
            .tell_account(b"restored", self.name_of(account), &[entries]);
    }

    /// Tells that the file of an account can't be written, and why.
    pub(crate) fn tell_stopped(&self, account: usize, error: &LogError) {
        let who = Field {
            name: b"account",
            value: self.name_of(account),
        };
        match reason_of(self.alloc, error) {
            Ok(words) => {
                let why = Field {
                    name: b"error",
                    value: words.as_bytes(),
                };
                self.log.tell(b"journal_fault", &[who, why]);
            }
            // The reason alone is left out.
            Err(_) => self.log.tell(b"journal_fault", &[who]),
        }
    }

    /// Tells that an account takes more bytes than it may, or no longer does.
    pub(crate) fn tell_memory(&self, event: &[u8], account: usize, bytes: u64) {
        let taken = Number {
            name: b"bytes",
            number: bytes,
        };
        let most = Number {
            name: b"memory_each",
            number: self.settings.memory_each,
        };
        self.log
            .tell_account(event, self.name_of(account), &[taken, most]);
    }

    /// Tells an event of who connects from this address, once a second at most, with how many like it were left out before.
    pub(crate) fn tell_paced(&self, line: PacedLine, event: &[u8], address: SocketAddr) {
        let Some(left_out) = self.paces.told(self.rt, line) else {
            return;
        };
        // Without memory the line has its address alone.
        match format!(in self.alloc; "{left_out}") {
            Ok(words) => {
                let others = Field {
                    name: b"left_out",
                    value: words.as_bytes(),
                };
                self.log.tell_of(event, address, &[others]);
            }
            Err(_) => self.log.tell_of(event, address, &[]),
        }
    }

    /// Tells an event of an account.
    pub(crate) fn tell_of(&self, event: &[u8], account: usize) {
        self.log.tell_account(event, self.name_of(account), &[]);
    }

    /// Tells that the file of an account has as many bytes as it may, or fewer again.
    pub(crate) fn tell_disk(&self, event: &[u8], account: usize) {
        let most = Number {
            name: b"disk_each",
            number: self.set.lock(self.rt).disk_each,
        };
        self.log.tell_account(event, self.name_of(account), &[most]);
    }

    /// Tells that an account was refused a source.
    pub(crate) fn tell_codes(&self, account: usize) {
        let most = Number {
            name: b"codes_each",
            number: self.set.lock(self.rt).codes_each,
        };
        self.log
            .tell_account(b"codes_full", self.name_of(account), &[most]);
    }

    /// Tells for which account a host waits that was asked to stop: also who asked.
    pub(crate) fn tell_awaited(&self, account: usize) {
        self.tell_of(b"stop_waits", account);
        let mut guard = self.asker.lock(self.rt);
        if let Some(asker) = &mut *guard {
            let name = self.name_of(account);
            let _ = asker.write_all(b"waits for ");
            let _ = asker.write_all(name);
            let _ = asker.write_all(b", which is in the midst of a reduction\n");
        }
    }

    /// Tells an event of a host with where it listens.
    pub(crate) fn tell_where(&self, event: &[u8]) -> Result<(), AllocError> {
        let listen = local_of(self.alloc, self.listeners.clients)?;
        let listen = Field {
            name: b"listen",
            value: listen.as_bytes(),
        };
        match self.listeners.browsers {
            None => self.log.tell(event, &[listen]),
            Some(browsers) => {
                let web = local_of(self.alloc, browsers)?;
                let web = Field {
                    name: b"web",
                    value: web.as_bytes(),
                };
                self.log.tell(event, &[listen, web]);
            }
        }
        Ok(())
    }
}
