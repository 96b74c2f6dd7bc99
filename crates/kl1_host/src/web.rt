// The accounts of a host, as browsers use them.

ghost use Rattle.std.specs.Prelude.{◌≡◌, ◌<◌, ◌≤◌, ◌++◌, ◌∷◌, [], length};
ghost use Rattle.kl1_command.specs.Commands.{command_view};
ghost use Rattle.kl1_host_web.specs.Asking.{did, HasDone};
ghost use Rattle.kl1_host_web.specs.Records.{asked_in};
ghost use Rattle.kl1_host.specs.Browsers.{IsLocal};

use crate::folder::journal_in;
use crate::logins::LoginLog;
use kl1_command::{Command, Performed};
use kl1_host_front::{PausingDoor, Settings, host_of};
use kl1_host_web::{
    Accounts, AskedRecord, BookChange, LoginKeys, Measures, Site, Stop, Sums, Viewer,
};
use kl1_host_work::{HostView, Performer};
use kl1_session::{Door, Key};
use kl1_user_events::{Event, Extent, GoalNo, GoalView, Presence, ShoenNo, ShoenView, Usage};
use std::alloc::{AllocError, Global};
use std::fs;
use std::net::{SocketAddr, TcpListener};
use std::rt::Files;
use std::snapshot::Snapshot;
use std::sync::Wait;
use std::time::Clock;

/// A name of the host with the origin of its page.
fn site(alloc: Global, host: &str) -> Result<Site, AllocError> {
    let origin = format!(in alloc; "http://{host}")?;
    Ok(Site {
        host: Vec::from_slice(alloc, host.as_bytes())?,
        origin: Vec::from_slice(alloc, origin.as_bytes())?,
    })
}

/// The names of the host: what is set, the address where it listens, and `localhost` with the port.
fn own_sites(
    alloc: Global,
    sites: &mut Vec<Site>,
    web: &str,
    listener: &TcpListener,
) -> Result<(), AllocError> {
    sites.push(site(alloc, web)?)?;
    if let Ok(address) = listener.local_addr() {
        let name = format!(in alloc; "{address}")?;
        sites.push(site(alloc, name.as_str())?)?;
        let name = format!(in alloc; "localhost:{}", address.port())?;
        sites.push(site(alloc, name.as_str())?)?;
    }
    Ok(())
}

/// The names by which browsers know the host: its own, and where its page comes from if a proxy stands before it.
pub fn sites_of(
    alloc: Global,
    settings: &Settings,
    listener: Option<&TcpListener>,
) -> Result<Vec<Site>, AllocError> {
    let mut sites = Vec::new(alloc);
    if let (Some(web), Some(listener)) = (&settings.web, listener) {
        own_sites(alloc, &mut sites, web.as_str(), listener)?;
    }
    if let Some(page) = &settings.page
        && let Some(host) = host_of(page.as_bytes())
    {
        let port: &[u8] = if page.as_bytes().starts_with(b"https:") {
            b":443"
        } else {
            b":80"
        };
        let mut with_port = Vec::from_slice(alloc, host)?;
        with_port.extend_from_slice(port)?;
        sites.push(Site {
            host: Vec::from_slice(alloc, host)?,
            origin: Vec::from_slice(alloc, page.as_bytes())?,
        })?;
        // A proxy may tell the port that browsers leave out.
        sites.push(Site {
            host: with_port,
            origin: Vec::from_slice(alloc, page.as_bytes())?,
        })?;
    }
    Ok(sites)
}

/// Whether an address is of the machine of the host.
pub fn is_local(address: SocketAddr) -> bool
    ensures { IsLocal address result }
{
    address.ip().to_canonical().is_loopback()
}

/// What shows an account of a host.
#[derive(Drop)]
pub struct AccountViewer<'w, V: HostView> {
    host: &'w V,
    account: usize,
    most_bytes: u64,
    /// Whether an answer may be made.
    may_answer: bool,
}

impl<V: HostView> AccountViewer<'_, V> {
    /// Refuses memory if no answer may be made.
    fn refuse_more(&self) -> Result<(), AllocError> {
        if self.may_answer {
            Ok(())
        } else {
            Err(AllocError)
        }
    }
}

impl<V: HostView> Viewer for AccountViewer<'_, V> {
    ghost account = { λ v. v.account };

    fn shoens_from(&mut self, from: ShoenNo, count: usize) -> Result<Vec<ShoenView>, AllocError> {
        self.refuse_more()?;
        self.host.shoens_from(self.account, from, count)
    }

    fn goals_from(&mut self, from: GoalNo, count: usize) -> Result<Vec<GoalView>, AllocError> {
        self.refuse_more()?;
        self.host.goals_from(self.account, from, count)
    }

    fn goal_text(&mut self, goal: GoalNo, extent: Extent) -> Result<Option<Vec<u8>>, AllocError> {
        self.refuse_more()?;
        self.host.goal_text(self.account, goal, extent)
    }

    fn awaited(&mut self, goal: GoalNo) -> Result<Option<Vec<u64>>, AllocError> {
        self.refuse_more()?;
        self.host.awaited(self.account, goal)
    }

    fn presence(&mut self, goal: GoalNo, variable: u64, most: u64) -> Result<Presence, AllocError> {
        self.refuse_more()?;
        self.host.presence(self.account, goal, variable, most)
    }

    fn usage(&mut self) -> Result<Usage, AllocError> {
        self.refuse_more()?;
        self.host.usage(self.account)
    }

    fn stopped(&mut self) -> Option<Stop> {
        if self.host.is_stopped(self.account) {
            return Some(Stop::Disk);
        }
        match self.host.bytes(self.account) {
            Ok(bytes) if bytes > self.most_bytes => Some(Stop::Memory),
            _ => None,
        }
    }
}

/// The bytes of the journal of an account on disk; 0 if they can't be told.
pub fn disk_of<R: Files>(
    rt: &R,
    alloc: Global,
    folder: &str,
    name: &[u8],
) -> Result<u64, AllocError> {
    let path = journal_in(alloc, folder, name)?;
    Ok(match fs::metadata(rt, path.as_str()) {
        Ok(attributes) => attributes.len(),
        Err(_) => 0,
    })
}

/// Whether a command closes a session.
fn is_logout(command: &Command) -> bool {
    matches!(command, Command::Does(Event::Logout))
}

/// What does commands, lent for a connection.
#[derive(Drop)]
pub struct LentPerformer<'p, P: Performer> {
    pub performer: &'p mut P,
}

impl<P: Performer> Performer for LentPerformer<'_, P> {
    ghost accounts = { P.accounts };

    ghost done = { λ l. P.done l.performer.now };

    fn perform(&mut self, account: usize, command: &Command) -> Performed {
        self.performer.perform(account, command)
    }
}

/// The accounts of a host, for one connection of a browser. Each command that is told as done was done by `performer`, once, and no other was.
#[derive(Drop)]
pub struct WebAccounts<'w, 'f, R: Wait + Clock + Eprint + Files, P: Performer + Drop, V: HostView> {
    pub rt: &'f R,
    pub alloc: Global,
    pub folder: &'f str,
    pub most_bytes: u64,
    pub keys: &'f [Key],
    pub door: PausingDoor<'f, R, LoginLog<'f, R>>,
    pub performer: P,
    /// What does the commands, as it was when the connection began.
    pub begun: Snapshot<P>,
    pub host: &'w V,
    pub noted: AskedRecord,
    pub ghost counts: { length door.keys.now ≤ P.accounts },
    pub ghost is_done: { ∥ HasDone (P.done begun.value) (P.done performer) (asked_in noted) ∥₁ },
}

impl<R: Wait + Clock + Eprint + Files, P: Performer + Drop, V: HostView> WebAccounts<
    '_,
    '_,
    R,
    P,
    V,
> {
    /// Has a command done to an account, and notes it.
    fn done(&mut self, account: usize, command: &Command) -> Performed
        requires { account < length self.old.door.keys.now }
        ensures door { self.new.door.keys.now ≡ self.old.door.keys.now }
        ensures keys { self.new.keys.now ≡ self.old.keys.now }
        ensures begun { self.new.begun.value ≡ self.old.begun.value }
        ensures asked { asked_in self.new.noted ≡ asked_in self.old.noted ++ did account (command_view command.now) result ∷ [] }
    {
        let performed = self.performer.perform(account, command);
        self.noted
            .did(Snapshot::of(&account), Snapshot::of(command), &performed);
        performed
    }

    /// Notes a command that is answered as if memory was refused.
    #[tactic(auto, using(kl1_host_web::proofs::Doing::refused_more))]
    fn refused(&mut self, account: usize, command: &Command) -> Performed
        ensures door { self.new.door.keys.now ≡ self.old.door.keys.now }
        ensures keys { self.new.keys.now ≡ self.old.keys.now }
        ensures begun { self.new.begun.value ≡ self.old.begun.value }
        ensures asked { asked_in self.new.noted ≡ asked_in self.old.noted ++ did account (command_view command.now) result ∷ [] }
    {
        let performed = Performed::Memory;
        self.noted
            .did(Snapshot::of(&account), Snapshot::of(command), &performed);
        performed
    }
}

impl<'w, R: Wait + Clock + Eprint + Files, P: Performer + Drop, V: HostView> Accounts
    for WebAccounts<'w, '_, R, P, V> {
    type Viewer = AccountViewer<'w, V>;

    ghost use Rattle.std.specs.Prelude.{length};
    ghost use Rattle.kl1_session.specs.Views.{entries_view};
    ghost use Rattle.kl1_host_front.specs.Sums.{opened_by_sum};
    ghost use Rattle.kl1_host.specs.Browsers.{name_at};
    ghost use Rattle.kl1_host_web.specs.Records.{asked_in};

    ghost house = { λ w. record { accounts = length w.door.keys.now; names = name_at (entries_view w.keys.now); opens = opened_by_sum (entries_view w.door.keys.now); entries = entries_view w.keys.now; before = P.done w.begun.value } };

    ghost asked = { λ w. asked_in w.noted };

    fn count(&self) -> usize {
        self.door.keys.len()
    }

    fn open(&mut self, name: &[u8], key: &[u8]) -> Option<usize> {
        let found = self.door.open(name, key);
        if found.is_some() {
            self.host.let_in();
        }
        found
    }

    fn keys(&self) -> &[Key] {
        self.keys
    }

    fn put_name(&self, account: usize, out: &mut Vec<u8>) -> Result<(), AllocError> {
        match self.keys.get(account) {
            Some(key) => out.extend_from_slice(key.name.as_slice()),
            None => Ok(()),
        }
    }

    #[tactic(auto, using(kl1_host_web::proofs::Doing::let_in_more))]
    fn let_in(&mut self) {
        self.noted.let_in();
        // So the connection isn't ended as a stranger's while its body is read.
        self.host.let_in();
    }

    fn act(&mut self, account: usize, command: &Command) -> Performed {
        // A session is closed whoever reads.
        if is_logout(command) || self.host.begin_answer(account) {
            self.done(account, command)
        } else {
            self.refused(account, command)
        }
    }

    #[tactic(auto, using(kl1_host_web::proofs::Doing::looked_more))]
    fn look(&mut self, account: usize) -> AccountViewer<'w, V> {
        self.noted.looked(account);
        AccountViewer {
            host: self.host,
            account,
            most_bytes: self.most_bytes,
            may_answer: self.host.begin_answer(account),
        }
    }

    #[tactic(auto, using(kl1_host_web::proofs::Doing::changed_more))]
    fn note_change<K: LoginKeys>(&mut self, change: BookChange<K>) {
        self.noted.changed(change);
    }

    fn has(&self, account: usize) -> bool {
        match self.door.keys.get(account) {
            Some(key) => !key.name.is_empty(),
            None => false,
        }
    }

    fn restoring(&self, account: usize) -> Option<(u64, u64)> {
        self.host.restoring(account)
    }

    fn measures(&self, account: usize) -> Measures {
        let bytes = match self.door.keys.get(account) {
            Some(key) => disk_of(self.rt, self.alloc, self.folder, key.name.as_slice()),
            None => Ok(0),
        };
        Measures {
            entries: match self.host.sight(account) {
                (Some(sight), _) => sight.usage.entries.count,
                (None, _) => 0,
            },
            bytes: bytes.unwrap_or(0),
        }
    }

    fn sums(&self) -> Sums {
        let mut sums = Sums {
            accounts: self
                .door
                .keys
                .iter()
                .filter(|key| !key.name.is_empty())
                .count() as u64,
            sessions: 0,
            events: 0,
            steps: 0,
        };
        self.host.ask_all();
        for account in 0..self.door.keys.len() {
            if let (Some(sight), _) = self.host.sight(account) {
                sums.sessions = sums.sessions.saturating_add(sight.sessions);
                sums.events = sums.events.saturating_add(sight.counted.events);
                sums.steps = sums.steps.saturating_add(sight.counted.steps);
            }
        }
        sums
    }
}
