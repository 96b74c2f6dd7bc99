// The files that a host may have open.

ghost use Rattle.kl1_host.specs.Setups.{IsFitted};

use crate::fault::{BAD, Fault};
use crate::log::Log;
use kl1_host_front::{Number, Settings, connections_within, open_files_in};
use kl1_model::limits::MOST_ACCOUNTS;
use std::fs::{self, File};
use std::rt::Files;
use std::time::Clock;

/// Where the system tells the limits of this process.
const LIMITS: &str = "/proc/self/limits";

/// The least connections for which a host starts.
const LEAST_CONNECTIONS: u64 = 4;

/// The most files that this process may have open; `None` if it can't be told, or if there is no limit.
fn most_files<R: Files<File = File> + AllocGlobal>(rt: &R) -> Option<u64> {
    match fs::read(rt, LIMITS) {
        Ok(text) => open_files_in(text.as_slice()),
        Err(_) => None,
    }
}

/// Cuts the connections of settings to what the limit on open files leaves beside those of this many accounts, and tells it. So a journal
/// can be written however many are connected.
pub fn fit_connections<R>(
    log: &Log<'_, R>,
    settings: &mut Settings,
    accounts: usize,
) -> Result<(), Fault>
where
    R: Files<File = File> + AllocGlobal + Eprint + Clock,
    ensures { IsFitted settings.old settings.new }
{
    let Some(files) = most_files(log.rt) else {
        return Ok(());
    };
    let left = connections_within(files, accounts.min(MOST_ACCOUNTS));
    if left >= u64::from(settings.connections) {
        return Ok(());
    }
    if left < LEAST_CONNECTIONS {
        let words = format!(in log.alloc;
            "only {files} files may be open (ulimit -n), too few for {accounts} accounts"
        )?;
        return Err(Fault::Words(BAD, words));
    }
    settings.connections = left as u32;
    let numbers = [
        Number {
            name: b"connections",
            number: left,
        },
        Number {
            name: b"files",
            number: files,
        },
    ];
    log.tell_numbers(b"few_files", &numbers);
    Ok(())
}
