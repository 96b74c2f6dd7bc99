// What a host asks of this program.

ghost use Rattle.std.specs.Prelude.{◌≡◌, ◌≤◌, ℕ, [], length};
ghost use Rattle.kl1_session.specs.Views.{entries_view};
ghost use Rattle.kl1_host_web.specs.Records.{asked_in};
ghost use Rattle.kl1_host.specs.Browsers.{IsServed};
ghost use Rattle.kl1_host.specs.Ends.{end_word};

use crate::arriving::SetNow;
use crate::attending::Attending;
use crate::control::answer_until_stop;
use crate::keyring::Keyring;
use crate::log::Log;
use crate::logins::LoginLog;
use crate::machine::ThisMachine;
use crate::paces::{PacedLine, Paces};
use crate::started::Arrivals;
use crate::web::{LentPerformer, WebAccounts, is_local};
use kl1_host_front::{Field, Pauses, PausingDoor, Settings, address_number};
use kl1_host_web::{AskedRecord, LoginKeys, Page, Service, SessionBook, Site};
use kl1_host_work::{Front, HostEvent, HostView, Listeners, Performer, Steering};
use kl1_lines::{Sink, Source};
use kl1_model::limits::MOST_ACCOUNTS;
use kl1_session::{Disconnect, Key};
use std::alloc::Global;
use std::fs::File;
use std::net::{Ipv4Addr, SocketAddr, SocketAddrV4};
use std::os::unix::net::{UnixListener, UnixStream};
use std::random::RandomSource;
use std::rt::Files;
use std::snapshot::Snapshot;
use std::sync::atomic::{AtomicBool, Ordering};
use std::sync::{Mutex, Wait};
use std::time::{Clock, Instant};

/// The program around a host.
#[derive(Drop)]
pub struct Program<'f, R: Wait + Clock + Eprint + Files<File = File> + RandomSource, K: LoginKeys> {
    pub rt: &'f R,
    pub alloc: Global,
    pub folder: &'f str,
    pub keys: &'f Keyring,
    /// What was set at the start.
    pub settings: &'f Settings,
    /// What is set now, of what may change.
    pub set: &'f Mutex<SetNow>,
    /// Which accounts are there, and whether all of the start have come.
    pub arrivals: &'f Mutex<Arrivals>,
    /// How many sessions of browsers of each account were taken out of the book, and aren't logged out of yet.
    pub logouts: &'f Mutex<[u64; MOST_ACCOUNTS]>,
    /// Whether it was told where it listens.
    pub is_listening: &'f AtomicBool,
    pub pauses: &'f Mutex<Pauses>,
    /// The sessions of browsers.
    pub sessions: &'f Mutex<SessionBook<K>>,
    /// The names by which browsers know the host.
    pub sites: &'f [Site],
    pub machine: ThisMachine<'f, R>,
    pub paces: &'f Paces,
    pub log: &'f Log<'f, R>,
    pub listeners: Listeners<'f>,
    /// Where it is asked how it goes, and to stop.
    pub socket: &'f UnixListener,
    pub begun: Instant,
    /// Who asked it to stop, and waits for its end.
    pub asker: &'f Mutex<Option<UnixStream>>,
}

/// Who lets in whoever connects from this address, by these keys.
fn door_by<'k, R: Wait + Clock + Eprint>(
    rt: &'k R,
    log: &'k Log<'k, R>,
    pauses: &'k Mutex<Pauses>,
    keys: &'k [Key],
    address: SocketAddr,
) -> PausingDoor<'k, R, LoginLog<'k, R>>
    ensures { result.keys.now ≡ keys.now }
{
    PausingDoor {
        rt,
        keys,
        pauses,
        address: address_number(address.ip()),
        teller: LoginLog {
            log,
            accounts: keys,
            address,
        },
    }
}

/// The address of whoever tries no key, so that it counts for no other.
fn nowhere() -> SocketAddr {
    SocketAddr::V4(SocketAddrV4::new(Ipv4Addr::LOCALHOST, 0))
}

/// The word for how a connection ended.
fn end_of(ended: Disconnect) -> &'static [u8]
    ensures { result.now ≡ end_word ended }
{
    match ended {
        Disconnect::Bye => b"logout",
        Disconnect::Ended => b"end",
        Disconnect::Fault => b"fault",
    }
}

impl<'f, R: Wait + Clock + Eprint + Files<File = File> + RandomSource, K: LoginKeys> Program<
    'f,
    R,
    K,
> {
    /// The accounts of a host with these keys, for whoever asks from this address.
    #[tactic(auto, using(kl1_host_web::proofs::Doing::none_done))]
    fn accounts_of<'s, 'w, P: Performer + Drop, V: HostView>(
        &'s self,
        address: SocketAddr,
        keys: &'s [Key],
        performer: P,
        host: &'w V,
    ) -> WebAccounts<'w, 's, R, P, V>
        requires { length keys.now ≤ P.accounts }
        ensures door { result.door.keys.now ≡ keys.now }
        ensures keys { result.keys.now ≡ keys.now }
        ensures performer { P.done result.begun.value ≡ P.done performer }
        ensures asked { asked_in result.noted ≡ [] }
    {
        let begun = Snapshot::of(&performer);
        WebAccounts {
            rt: self.rt,
            alloc: self.alloc,
            folder: self.folder,
            most_bytes: self.settings.memory_each,
            keys,
            door: door_by(self.rt, self.log, self.pauses, keys, address),
            performer,
            begun,
            host,
            noted: AskedRecord::new(),
        }
    }

    /// What browsers are served by.
    pub fn service(&self, is_local: bool) -> Service<'_, R, ThisMachine<'f, R>, K>
        ensures sites { result.page.sites.now ≡ self.now.sites.now }
        ensures is_local { result.is_local ≡ is_local }
    {
        Service {
            rt: self.rt,
            alloc: self.alloc,
            machine: &self.machine,
            page: Page {
                sessions: self.sessions,
                sites: self.sites,
                idle: self.set.lock(self.rt).idle,
            },
            is_local,
        }
    }

    /// Ends the sessions of an account whose browsers made no request for too long.
    pub fn end_idle<P: Performer, V: HostView>(
        &self,
        keys: &[Key],
        performer: &mut P,
        host: &V,
        account: usize,
    )
        requires { length keys.now ≤ P.accounts }
    {
        let performer = LentPerformer { performer };
        let mut accounts = self.accounts_of(nowhere(), keys, performer, host);
        self.service(true).end_idle(&mut accounts, account);
    }

    /// Takes the sessions of browsers of an account out of the book; answers how many.
    pub fn forget_account<P: Performer, V: HostView>(
        &self,
        keys: &[Key],
        performer: &mut P,
        host: &V,
        account: usize,
    ) -> u64
        requires { length keys.now ≤ P.accounts }
    {
        let performer = LentPerformer { performer };
        let mut accounts = self.accounts_of(nowhere(), keys, performer, host);
        self.service(true).forget_account(&mut accounts, account)
    }

    /// Serves a connection of a browser from this address, which begins with these accounts. What is asked of them is what its requests may
    /// have, and just that is done by their performer, each command once, unless it is answered as if memory was refused. The answers are
    /// written in the order of the requests, and nothing else.
    fn serve_browser<S: Source, T: Sink, P: Performer + Drop, V: HostView>(
        &self,
        address: SocketAddr,
        source: &mut S,
        sink: &mut T,
        accounts: &mut WebAccounts<'_, '_, R, P, V>,
    )
        requires keys { accounts.old.keys.now ≡ accounts.old.door.keys.now }
        requires fresh { asked_in accounts.old.noted ≡ [] }
        ensures { ∥ ((idle : ℕ) × IsServed (entries_view accounts.old.keys.now) (length accounts.old.keys.now) idle self.now.sites.now address (S.remaining source.old) (T.contents sink.old) (T.contents sink.new) (T.failures sink.old) (T.failures sink.new) (P.done accounts.old.begun.value) (P.done accounts.new.performer)) ∥₁ }
    {
        self.service(is_local(address))
            .serve(source, sink, accounts);
    }

    /// Takes in what is set anew.
    pub fn set_amounts(&self, settings: &Settings) {
        *self.set.lock(self.rt) = SetNow::of(settings);
    }

    /// The name of an account, by its number.
    pub fn name_of(&self, account: usize) -> &'f [u8] {
        self.keys.name_of(account)
    }
}

impl<'f, R, K> Front for Program<'f, R, K>
where
    R: Wait + Clock + Eprint + Files<File = File> + RandomSource + Sync,
    K: LoginKeys + Send + Sync,
{
    type Entrance = PausingDoor<'f, R, LoginLog<'f, R>>;

    fn keys(&self) -> &[Key] {
        self.keys.keys()
    }

    #[tactic(auto, using(crate::proofs::Doors::opened_by_name, kl1_host_work::proofs::NamesInOrder::length_names))]
    fn door(&self, address: SocketAddr) -> (PausingDoor<'f, R, LoginLog<'f, R>>, &[Key]) {
        let ring: &'f Keyring = self.keys;
        let keys = ring.keys();
        (door_by(self.rt, self.log, self.pauses, keys, address), keys)
    }

    fn tell(&self, event: HostEvent) {
        match event {
            HostEvent::Restored { account, entries } => {
                self.tell_restored(account, entries);
                self.note_arrival(account, true);
            }
            HostEvent::AllRestored => {
                self.note_ready();
                let _ = self.tell_where(b"ready");
            }
            HostEvent::Unrestored { account, fault } => self.tell_unrestored(account, fault),
            HostEvent::Left { account } => {
                self.tell_of(b"left", account);
                self.note_arrival(account, false);
            }
            HostEvent::Opened(_) => {}
            HostEvent::TurnedAway(address) => {
                self.tell_paced(PacedLine::TurnedAway, b"turned_away", address)
            }
            HostEvent::Unserved(address) => {
                self.tell_paced(PacedLine::Unserved, b"no_thread", address)
            }
            HostEvent::GaveWay(address) => {
                self.tell_paced(PacedLine::GaveWay, b"gave_way", address)
            }
            HostEvent::Closed(address, ended) => {
                let how = Field {
                    name: b"by",
                    value: end_of(ended),
                };
                self.log.tell_of(b"closed", address, &[how])
            }
            HostEvent::Stopped { account, error } => self.tell_stopped(account, &error),
            HostEvent::Full { account, bytes } => {
                self.tell_memory(b"memory_full", account, bytes)
            }
            HostEvent::Freed { account, bytes } => {
                self.tell_memory(b"memory_free", account, bytes)
            }
            HostEvent::Waits { account } => self.tell_of(b"no_room", account),
            HostEvent::Written { account } => self.tell_of(b"room", account),
            HostEvent::DiskFull { account } => self.tell_disk(b"disk_full", account),
            HostEvent::DiskFreed { account } => self.tell_disk(b"disk_free", account),
            HostEvent::CodesFull { account } => self.tell_codes(account),
            HostEvent::AwaitsEnd { account } => self.tell_awaited(account),
        }
    }

    fn serve_pages<S: Source, T: Sink, P: Performer, V: HostView>(
        &self,
        address: SocketAddr,
        keys: &[Key],
        source: &mut S,
        sink: &mut T,
        performer: &mut P,
        host: &V,
    ) {
        let performer = LentPerformer { performer };
        let mut accounts = self.accounts_of(address, keys, performer, host);
        self.serve_browser(address, source, sink, &mut accounts);
    }

    fn attend<P: Performer, V: HostView + Steering>(
        &self,
        keys: &[Key],
        performer: &mut P,
        host: &V,
    ) -> bool {
        if !self.is_listening.swap(true, Ordering::SeqCst) {
            let _ = self.tell_where(b"listening");
        }
        let mut attending = Attending {
            program: self,
            keys,
            performer,
            host,
            last: 0,
            has_newer_keys: false,
        };
        let asker = answer_until_stop(self.rt, self.alloc, self.socket, &mut attending);
        let has_newer_keys = attending.has_newer_keys;
        let Some(asker) = asker else {
            return has_newer_keys;
        };
        *self.asker.lock(self.rt) = Some(asker);
        self.log.tell(b"stop", &[]);
        false
    }
}
