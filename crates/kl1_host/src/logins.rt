// Logins in the log.

use crate::log::Log;
use kl1_host_front::{Field, LoginTeller};
use kl1_session::Key;
use std::net::SocketAddr;
use std::time::Clock;

/// Tells the log of logins from an address.
#[derive(Drop)]
pub struct LoginLog<'f, R: Eprint + Clock> {
    pub log: &'f Log<'f, R>,
    /// The accounts: no other name is told, since it may be a key that stands in its place.
    pub accounts: &'f [Key],
    pub address: SocketAddr,
}

impl<R: Eprint + Clock> LoginTeller for LoginLog<'_, R> {
    fn let_in(&self, name: &[u8]) {
        self.log.tell_of(
            b"login",
            self.address,
            &[Field {
                name: b"account",
                value: name,
            }],
        );
    }

    fn kept_out(&self, name: &[u8]) {
        let account = Field {
            name: b"account",
            value: name,
        };
        for key in self.accounts {
            if key.name.as_slice() == name {
                return self.log.tell_of(b"refused", self.address, &[account]);
            }
        }
        self.log.tell_of(b"refused", self.address, &[]);
    }
}
