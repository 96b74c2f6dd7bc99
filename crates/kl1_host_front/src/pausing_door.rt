// Who is let in, after a pause if there were wrong keys.

ghost use Rattle.std.specs.Prelude.{◌≡◌, ◌<◌, length, IfSome};
ghost use Rattle.std.specs.Option.{is_some};
ghost use Rattle.kl1_session.specs.Views.{entries_view};
ghost use Rattle.kl1_host_front.specs.Sums.{opened_by_sum};
ghost use Rattle.kl1_host_front.specs.Pauses.{account_from, trier_of};

use crate::hashed_keys::HashedKeys;
use crate::trying::{Attempt, Tried, Waited};
use crate::wrong_keys::{Pauses, Trier};
use kl1_session::{Door, Key};
use std::sync::{Mutex, Wait};
use std::time::Clock;

/// What is told of logins.
pub trait LoginTeller {
    /// A key has let in to the account of this name.
    fn let_in(&self, name: &[u8]);

    /// A name and a key haven't let in.
    fn kept_out(&self, name: &[u8]);
}

/// Accounts as `HashedKeys` has them, which are tried from an address: each key waits for the pauses of the account and of the address,
/// whether it is right or wrong.
#[derive(Drop)]
pub struct PausingDoor<'a, R: Wait + Clock, L: LoginTeller + Drop> {
    /// Where time comes from.
    pub rt: &'a R,
    /// The names with the sums of their keys.
    pub keys: &'a [Key],
    /// The wrong keys so far.
    pub pauses: &'a Mutex<Pauses>,
    /// The number of the address, which is no account's (`address_number`).
    pub address: u128,
    /// Who is told.
    pub teller: L,
}

/// The time since some start, in milliseconds; 0 if the clock can't be read.
fn milliseconds<R: Clock>(rt: &R) -> u64 {
    match rt.monotonic() {
        Ok(time) => u64::try_from(time.as_millis()).unwrap_or(u64::MAX),
        Err(_) => 0,
    }
}

/// The number of the account of a name, from 0.
fn account_of(keys: &[Key], name: &[u8]) -> Option<u128>
    ensures { result ≡ account_from 0 name.now (entries_view keys.now) }
{
    let mut number = 0usize;
    let mut rest = keys;
    while let [key, others @ ..] = rest {
        if key.name.as_slice() == name {
            return Some(number as u128);
        }
        number += 1;
        rest = others;
    }
    None
}

impl<R: Wait + Clock, L: LoginTeller + Drop> PausingDoor<'_, R, L> {
    /// Who tries a key by this name.
    fn trier(&self, name: &[u8]) -> Trier
        ensures { result ≡ trier_of self.now.address (entries_view self.now.keys.now) name.now }
    {
        Trier {
            address: self.address,
            account: account_of(self.keys, name),
        }
    }

    /// Waits until a key may be looked at.
    fn wait(&self, trier: Trier) -> Waited
        ensures { result.trier.value ≡ trier }
    {
        let now = milliseconds(self.rt);
        let pause = {
            let pauses = self.pauses.lock(self.rt);
            pauses.pause_for(trier, now)
        };
        pause.wait(self.rt)
    }

    /// Counts a key that was good or not.
    fn count(&self, trier: Trier, is_good: bool) -> Tried
        ensures trier { result.trier.value ≡ trier }
        ensures is_good { result.is_good.value ≡ is_good }
    {
        let now = milliseconds(self.rt);
        let mut pauses = self.pauses.lock(self.rt);
        if is_good {
            pauses.forget_by(trier)
        } else {
            pauses.note_wrong_by(trier, now)
        }
    }

    /// Tries a key. The pause comes before it is looked at, so how long an answer takes tells nothing of it.
    fn attempt(&self, name: &[u8], key: &[u8]) -> Attempt
        ensures found { result.found ≡ opened_by_sum (entries_view self.now.keys.now) name.now key.now }
        ensures within { IfSome result.found (λ n. n < length self.now.keys.now) }
        ensures waited { result.waited.trier.value ≡ trier_of self.now.address (entries_view self.now.keys.now) name.now }
        ensures tried { result.tried.trier.value ≡ trier_of self.now.address (entries_view self.now.keys.now) name.now }
        ensures is_good { result.tried.is_good.value ≡ is_some result.found }
    {
        let trier = self.trier(name);
        let waited = self.wait(trier);
        let mut keys = HashedKeys { keys: self.keys };
        let found = keys.open(name, key);
        let tried = self.count(trier, found.is_some());
        Attempt {
            found,
            waited,
            tried,
        }
    }
}

impl<R: Wait + Clock, L: LoginTeller + Drop> Door for PausingDoor<'_, R, L> {
    ghost accounts = { λ d. length d.keys.now };

    ghost opens = { λ d. opened_by_sum (entries_view d.keys.now) };

    fn open(&mut self, name: &[u8], key: &[u8]) -> Option<usize> {
        let found = self.attempt(name, key).found;
        if found.is_some() {
            self.teller.let_in(name);
        } else {
            self.teller.kept_out(name);
        }
        found
    }
}
