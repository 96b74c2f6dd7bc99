// A host runs.

ghost use Rattle.std.specs.Prelude.{◌≡◌, ◌≤◌, true};
ghost use Rattle.kl1_model.specs.declared.limits.TheConstants.{MOST_ACCOUNTS};
ghost use Rattle.kl1_host.specs.Setups.{IsSynced, IsSetUp};

use crate::accounts::{Accounts, accounts_in};
use crate::arriving::SetNow;
use crate::fault::Fault;
use crate::folder::{SOCKET, path_in};
use crate::journals::{FolderOpener, remove_spares};
use crate::keyring::Keyring;
use crate::lock::lock_folder;
use crate::log::Log;
use crate::machine::ThisMachine;
use crate::open_files::fit_connections;
use crate::paces::Paces;
use crate::program::Program;
use crate::repair::{cut_journal, word_of_now};
use crate::settings::settings_of;
use crate::sockets::{bind, socket_of};
use crate::start_words::start_fault;
use crate::started::{Arrivals, refuse_missing};
use crate::web::sites_of;
use kl1_host_front::{Field, Pauses, Settings, Sync as Syncs};
use kl1_host_web::{LoginKeys, SessionBook};
use kl1_host_work::{Limits, Listeners, Setup, StartFault, Syncing, run_host};
use kl1_model::limits::MOST_ACCOUNTS;
use std::alloc::Global;
use std::fs::{self, File};
use std::marker::Brand;
use std::mem;
use std::net::{Net, TcpListener, TcpStream};
use std::os::unix::net::{UnixListener, UnixStream};
use std::random::RandomSource;
use std::rt::Files;
use std::sync::atomic::AtomicBool;
use std::sync::{Mutex, Wait};
use std::thread::Threads;
use std::time::{Clock, Duration, Instant};

/// How long after a change it is written at the latest, in milliseconds: who ends a host by a signal loses no more.
const WRITTEN_AFTER: u64 = 100;

/// When journals are written, and whether replies wait for it.
fn syncing_of(sync: Syncs) -> Syncing
    ensures { IsSynced sync result }
{
    match sync {
        Syncs::Always => Syncing {
            replies_wait: true,
            period: Duration::from_millis(WRITTEN_AFTER),
        },
        Syncs::Every(period) => Syncing {
            replies_wait: false,
            period: Duration::from_millis(period.min(WRITTEN_AFTER)),
        },
        Syncs::Never => Syncing {
            replies_wait: false,
            period: Duration::from_millis(WRITTEN_AFTER),
        },
    }
}

/// How a host of this number of accounts is set up, with so many places for these and others.
fn setup_of(settings: &Settings, accounts: usize, places: usize) -> Setup
    ensures { IsSetUp settings.now accounts places result }
{
    Setup {
        workers: match settings.workers {
            Some(workers) => workers as usize,
            None => places,
        },
        connections: settings.connections as usize,
        limits: Limits {
            each: settings.connections_each as usize,
            waiting_each: settings.waiting_each as usize,
            idle: Duration::from_millis(settings.idle),
            idle_login: Duration::from_millis(settings.idle_login),
        },
        syncing: syncing_of(settings.sync),
        codes_each: settings.codes_each,
        memory_each: settings.memory_each,
        disk_each: settings.disk_each,
        accounts,
        places,
    }
}

/// How many places there are for so many accounts of the start and others that may come.
fn places_for(settings: &Settings, accounts: usize) -> usize
    ensures { result ≤ MOST_ACCOUNTS }
{
    accounts
        .saturating_add(settings.spare_accounts as usize)
        .min(MOST_ACCOUNTS)
}

/// Runs a host until it is asked to stop. With `repairs` a journal with a fault goes on from what is before it.
fn serve<R, K: LoginKeys + Send + Sync + 'static>(
    program: &Program<'_, R, K>,
    settings: &Settings,
    repairs: bool,
) -> Result<(), Fault>
where
    R: Net<Listener = TcpListener, Stream = TcpStream>
        + Files<File = File>
        + RandomSource
        + Threads
        + Wait
        + Clock
        + Eprint
        + Sync,
    R::Dir: Send + Sync,
{
    let (rt, alloc, keys) = (program.rt, program.alloc, program.keys);
    let word = word_of_now(rt, alloc)?;
    let firsts = keys.keys().len();
    let opener = FolderOpener {
        log: program.log,
        folder: program.folder,
        keys,
        firsts,
        repair: if repairs { Some(word.as_str()) } else { None },
    };
    let setup = setup_of(settings, firsts, places_for(settings, firsts));
    // Each account needs one repair at most: what is before an entry that isn't accepted is accepted.
    for _ in 0..firsts.saturating_add(1) {
        match run_host(rt, alloc, program.listeners, program, &opener, setup) {
            Ok(files) => {
                drop(files);
                remove_spares(program.log, program.folder, keys.keys());
                return Ok(());
            }
            Err(StartFault::Unaccepted { account, line }) if repairs => {
                let name = program.name_of(account);
                cut_journal(rt, alloc, program.folder, name, line, word.as_str())?;
                program.log.tell_repaired(name, line);
            }
            Err(fault) => {
                return Err(start_fault(rt, alloc, program.folder, keys.keys(), fault)?);
            }
        }
    }
    Err(Fault::Memory)
}

/// What a host needs of its folder, which lies on a path, and where it listens.
#[derive(Drop)]
struct HostFolder<'f> {
    path: &'f str,
    settings: Settings,
    accounts: Accounts,
    clients: TcpListener,
    browsers: Option<TcpListener>,
    socket: UnixListener,
}

/// Looks at the settings and the accounts of a folder, and then listens.
fn opened<'f, R>(rt: &R, alloc: Global, folder: &'f str) -> Result<HostFolder<'f>, Fault>
where
    R: Net<Listener = TcpListener, Stream = TcpStream> + Files<File = File> + AllocGlobal,
{
    let settings = settings_of(rt, alloc, folder)?;
    // Who changes the accounts after they are read finds it, and has them read anew.
    let socket = socket_of(rt, alloc, folder)?;
    let accounts = accounts_in(rt, alloc, folder)?;
    refuse_missing(rt, folder, accounts.keys.as_slice())?;
    let clients = bind(rt, alloc, settings.listen.as_str())?;
    let browsers = match &settings.web {
        Some(address) => Some(bind(rt, alloc, address.as_str())?),
        None => None,
    };
    Ok(HostFolder {
        path: folder,
        settings,
        accounts,
        clients,
        browsers,
        socket,
    })
}

/// Runs a host with what is opened until it is asked to stop. `K` stands for the book of its browsers' sessions.
fn run_opened<R, K: LoginKeys + Send + Sync + 'static>(
    log: &Log<'_, R>,
    opened: &HostFolder<'_>,
    keys: &Keyring,
    repairs: bool,
    asker: &Mutex<Option<UnixStream>>,
) -> Result<(), Fault>
where
    R: Net<Listener = TcpListener, Stream = TcpStream>
        + Files<File = File>
        + RandomSource
        + Threads
        + Wait
        + Clock
        + Eprint
        + Sync,
    R::Dir: Send + Sync,
    requires { K.begins ≡ true }
{
    let (rt, alloc, settings) = (log.rt, log.alloc, &opened.settings);
    let pauses = Mutex::new(Pauses::new(alloc)?);
    let sessions = Mutex::new(SessionBook::<K>::new(alloc)?);
    let set = Mutex::new(SetNow::of(settings));
    let arrivals = Mutex::new(Arrivals::new());
    let logouts = Mutex::new([0u64; MOST_ACCOUNTS]);
    let is_listening = AtomicBool::new(false);
    let paces = Paces::new();
    let sites = sites_of(alloc, settings, opened.browsers.as_ref())?;
    let program = Program {
        rt,
        alloc,
        folder: opened.path,
        keys,
        settings,
        set: &set,
        arrivals: &arrivals,
        logouts: &logouts,
        is_listening: &is_listening,
        pauses: &pauses,
        sessions: &sessions,
        sites: sites.as_slice(),
        machine: ThisMachine { rt },
        paces: &paces,
        log,
        listeners: Listeners {
            clients: &opened.clients,
            browsers: opened.browsers.as_ref(),
        },
        socket: &opened.socket,
        begun: Instant::now(rt)?,
        asker,
    };
    serve(&program, settings, repairs)
}

/// Runs the host of a folder, which is locked, until it is asked to stop.
fn run_here<R>(
    rt: &R,
    folder: &str,
    repairs: bool,
    asker: &Mutex<Option<UnixStream>>,
) -> Result<(), Fault>
where
    R: Net<Listener = TcpListener, Stream = TcpStream>
        + Files<File = File>
        + AllocGlobal
        + RandomSource
        + Threads
        + Wait
        + Clock
        + Eprint
        + Sync,
    R::Dir: Send + Sync,
{
    let alloc = rt.alloc();
    let mut opened = opened(rt, alloc, folder)?;
    let log = Log { rt, alloc };
    let folder_field = Field {
        name: b"folder",
        value: folder.as_bytes(),
    };
    log.tell(b"start", &[folder_field]);
    let places = places_for(&opened.settings, opened.accounts.keys.len());
    let fitted = fit_connections(&log, &mut opened.settings, places);
    let first = mem::replace(&mut opened.accounts.keys, Vec::new(alloc));
    let keys = Keyring::new(rt, alloc, first)?;
    let ended = match fitted {
        Ok(()) => run_opened::<R, Brand>(&log, &opened, &keys, repairs, asker),
        Err(fault) => Err(fault),
    };
    if ended.is_ok() {
        log.tell(b"end", &[]);
    }
    ended
}

/// Runs the host of a folder, which is locked meanwhile, until it is asked to stop.
fn run_locked<R>(
    rt: &R,
    folder: &str,
    repairs: bool,
    asker: &Mutex<Option<UnixStream>>,
) -> Result<(), Fault>
where
    R: Net<Listener = TcpListener, Stream = TcpStream>
        + Files<File = File>
        + AllocGlobal
        + RandomSource
        + Threads
        + Wait
        + Clock
        + Eprint
        + Sync,
    R::Dir: Send + Sync,
{
    let alloc = rt.alloc();
    let _lock = lock_folder(rt, alloc, folder, "one host at a time")?;
    let ended = run_here(rt, folder, repairs, asker);
    let _ = fs::remove_file(rt, path_in(alloc, folder, SOCKET)?.as_str());
    ended
}

/// Runs the host of a folder until it is asked to stop, and answers the program's status. With `repairs` a journal with a fault goes on
/// from what is before it, and what it was is kept beside it.
pub fn run_folder<R>(rt: &R, folder: &str, repairs: bool) -> Result<u8, Fault>
where
    R: Net<Listener = TcpListener, Stream = TcpStream>
        + Files<File = File>
        + AllocGlobal
        + RandomSource
        + Threads
        + Wait
        + Clock
        + Eprint
        + Sync,
    R::Dir: Send + Sync,
{
    let asker = Mutex::new(None);
    run_locked(rt, folder, repairs, &asker)?;
    // Who asked it to stop is told of its end only now, when another host may run.
    drop(asker);
    Ok(0)
}
