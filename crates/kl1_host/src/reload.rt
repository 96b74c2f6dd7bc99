// Settings and accounts are read anew while a host runs.

use crate::accounts::accounts_in;
use crate::attending::Attending;
use crate::fault::Fault;
use crate::next_keys::{NextKeys, next_keys};
use crate::settings::settings_of;
use kl1_host_front::{Settings, Sync as Syncs};
use kl1_host_web::LoginKeys;
use kl1_host_work::{Amounts, HostView, Limits, Performer, PlaceState, Steering};
use kl1_session::Key;
use std::alloc::AllocError;
use std::fs::File;
use std::random::RandomSource;
use std::rt::Files;
use std::sync::Wait;
use std::time::{Clock, Duration};

/// How what is told begins if nothing was changed.
const FAULT: &[u8] = b"fault: ";

/// Puts what a fault says.
pub fn put_fault(out: &mut Vec<u8>, fault: &Fault) -> Result<(), AllocError> {
    out.extend_from_slice(FAULT)?;
    match fault {
        Fault::Words(_, words) => out.extend_from_slice(words.as_bytes())?,
        Fault::Lines(lines) => out.extend_from_slice(lines.as_slice())?,
        _ => out.extend_from_slice(b"memory was refused")?,
    }
    out.extend_from_slice(b"\n")
}

/// What settings say that may be set while a host runs.
pub fn amounts_of(settings: &Settings) -> Amounts {
    Amounts {
        limits: Limits {
            each: settings.connections_each as usize,
            waiting_each: settings.waiting_each as usize,
            idle: Duration::from_millis(settings.idle),
            idle_login: Duration::from_millis(settings.idle_login),
        },
        codes_each: settings.codes_each,
        disk_each: settings.disk_each,
    }
}

/// Whether two texts that may be there are the same.
fn are_same(one: &Option<String>, other: &Option<String>) -> bool {
    match (one, other) {
        (None, None) => true,
        (Some(one), Some(other)) => one.as_bytes() == other.as_bytes(),
        _ => false,
    }
}

/// Whether two kinds of sync are the same.
fn are_same_sync(one: Syncs, other: Syncs) -> bool {
    match (one, other) {
        (Syncs::Always, Syncs::Always) | (Syncs::Never, Syncs::Never) => true,
        (Syncs::Every(one), Syncs::Every(other)) => one == other,
        _ => false,
    }
}

/// Puts the names of settings that are others than at the start, and are taken at the next one.
fn put_later(out: &mut Vec<u8>, first: &Settings, now: &Settings) -> Result<(), AllocError> {
    let are_others = [
        (first.listen.as_bytes() != now.listen.as_bytes(), "listen"),
        (!are_same(&first.web, &now.web), "web"),
        (!are_same(&first.page, &now.page), "page"),
        (first.workers != now.workers, "workers"),
        (!are_same_sync(first.sync, now.sync), "sync"),
        (first.connections != now.connections, "connections"),
        (first.memory_each != now.memory_each, "memory_each"),
        (first.spare_accounts != now.spare_accounts, "spare_accounts"),
    ];
    for (is_other, name) in &are_others {
        if *is_other {
            out.extend_from_slice(name.as_bytes())?;
            out.extend_from_slice(b": at the next start\n")?;
        }
    }
    Ok(())
}

/// Puts a word and the name of each of these places, a line each.
fn put_names(
    out: &mut Vec<u8>,
    word: &[u8],
    places: &[usize],
    keys: &[Key],
) -> Result<(), AllocError> {
    for place in places {
        if let Some(key) = keys.get(*place) {
            out.extend_from_slice(word)?;
            out.extend_from_slice(b" ")?;
            out.extend_from_slice(key.name.as_slice())?;
            out.extend_from_slice(b"\n")?;
        }
    }
    Ok(())
}

/// Puts what is other in the next edition of keys.
fn put_changes(out: &mut Vec<u8>, now: &[Key], next: &NextKeys) -> Result<(), AllocError> {
    let keys = next.keys.as_slice();
    put_names(out, b"added", next.added.as_slice(), keys)?;
    put_names(out, b"rekeyed", next.rekeyed.as_slice(), keys)?;
    put_names(out, b"removed", next.removed.as_slice(), now)?;
    if next.left_out > 0 {
        out.extend_from_slice(
            b"there is no place for all accounts before the next start: see spare_accounts\n",
        )?;
    }
    Ok(())
}

impl<R, K: LoginKeys, P: Performer, V: HostView + Steering> Attending<'_, '_, '_, '_, R, K, P, V>
where
    R: Wait + Clock + Eprint + Files<File = File> + RandomSource,
{
    /// Reads the file of accounts anew, and lets accounts come, leave and have other keys as it says; with `settings` those are read anew first. What
    /// is other is put, or why nothing is changed.
    pub fn read_anew(&mut self, settings: bool, out: &mut Vec<u8>) -> Result<(), AllocError> {
        let (rt, alloc, folder) = (self.program.rt, self.program.alloc, self.program.folder);
        let now = if settings {
            match settings_of(rt, alloc, folder) {
                Ok(now) => Some(now),
                Err(fault) => return put_fault(out, &fault),
            }
        } else {
            None
        };
        let accounts = match accounts_in(rt, alloc, folder) {
            Ok(accounts) => accounts,
            Err(fault) => return put_fault(out, &fault),
        };
        if let Some(now) = &now {
            self.host.set(amounts_of(now));
            self.program.set_amounts(now);
            put_later(out, self.program.settings, now)?;
        }
        self.take_keys(accounts.keys.as_slice(), out)?;
        self.program.log.tell(b"reloaded", &[]);
        Ok(())
    }

    /// Takes the next edition of keys.
    fn take_keys(&mut self, wanted: &[Key], out: &mut Vec<u8>) -> Result<(), AllocError> {
        let (rt, alloc, keyring) = (self.program.rt, self.program.alloc, self.program.keys);
        let before = keyring.keys();
        let next = next_keys(alloc, before, wanted, self.host.places())?;
        put_changes(out, before, &next)?;
        let mut changed = Vec::from_slice(alloc, next.rekeyed.as_slice())?;
        changed.extend_from_slice(next.removed.as_slice())?;
        let NextKeys {
            keys,
            added,
            removed,
            ..
        } = next;
        let is_same = added.is_empty() && changed.is_empty();
        if !is_same && !keyring.add(rt, keys) {
            return out.extend_from_slice(b"keys were changed too often before the next start\n");
        }
        self.has_newer_keys = self.has_newer_keys || !is_same;
        // Those that are gone let nobody in from here on.
        self.host.renew(keyring.edition(), changed.as_slice());
        for account in &removed {
            self.host.send_away(*account);
        }
        for account in &changed {
            self.forget_browsers(*account);
        }
        for account in &added {
            let _ = self.host.bring(*account);
        }
        self.bring_again(out)
    }

    /// Lets accounts come that couldn't be restored before, and tells which can't come: they wait for the next start.
    fn bring_again(&mut self, out: &mut Vec<u8>) -> Result<(), AllocError> {
        for (account, key) in self.program.keys.keys().iter().enumerate() {
            let is_missing = matches!(
                self.host.standing(account),
                PlaceState::Fails | PlaceState::Free | PlaceState::Left
            );
            if is_missing && !key.name.is_empty() {
                let word: &[u8] = if self.host.bring(account) {
                    b"restores "
                } else {
                    b"can't be restored before the next start: "
                };
                out.extend_from_slice(word)?;
                out.extend_from_slice(key.name.as_slice())?;
                out.extend_from_slice(b"\n")?;
            }
        }
        Ok(())
    }

    /// Lets the account of this name leave, and puts how far that is: nothing is changed in files. The first time its sessions end.
    pub fn send_away(&mut self, name: &[u8], out: &mut Vec<u8>) -> Result<(), AllocError> {
        let Some(account) = self.program.keys.place_of(name) else {
            return out.extend_from_slice(b"unknown\n");
        };
        self.host.send_away(account);
        let word: &[u8] = match self.host.standing(account) {
            PlaceState::Left | PlaceState::Free => b"left\n",
            _ => {
                self.forget_browsers(account);
                b"leaving\n"
            }
        };
        out.extend_from_slice(word)
    }
}
