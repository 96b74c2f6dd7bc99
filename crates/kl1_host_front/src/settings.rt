// What a host is set to.

ghost use Rattle.std.specs.Prelude.{◌≡◌, ◌≤◌, IfOk, OnOk, OnErr};
ghost use Rattle.toml.specs.View.{view};
ghost use Rattle.kl1_host_front.specs.declared.settings.TheConstants.{MOST_SPARE};
ghost use Rattle.kl1_host_front.specs.Settings.{IsText, IsSize, IsTime, IsSync, IsSet};

use crate::origin::host_of;
use crate::quantities::{duration_in, size_in};
use crate::sync::{Sync, sync_in};
use std::alloc::{AllocError, Global};
use toml::{Table, Value};

/// What a host is set to.
#[derive(Drop)]
pub struct Settings {
    /// Where it listens: an address and a port.
    pub listen: String,
    /// Where it shows its page, if it does.
    pub web: Option<String>,
    /// Where browsers say that its page comes from, if they find it by another name than its address: an origin.
    pub page: Option<String>,
    /// How many threads go on with accounts; `None` for one for each account.
    pub workers: Option<u32>,
    /// When journals are on the disk.
    pub sync: Sync,
    /// After how many milliseconds a silent connection is ended.
    pub idle: u64,
    /// After how many milliseconds a connection is ended that has shown no key.
    pub idle_login: u64,
    /// How many connections are open at once.
    pub connections: u32,
    /// How many of them from one address.
    pub connections_each: u32,
    /// How many of those that have shown no key.
    pub waiting_each: u32,
    /// How many bytes an account may take in memory.
    pub memory_each: u64,
    /// How many bytes of sources an account may load.
    pub codes_each: u64,
    /// How many bytes the journal of an account may have on disk.
    pub disk_each: u64,
    /// How many accounts may come while the host runs.
    pub spare_accounts: u32,
}

/// The most workers.
pub const MOST_WORKERS: u32 = 64;

/// The most connections that are open at once.
pub const MOST_CONNECTIONS: u32 = 65_536;

/// The most accounts that may come while a host runs.
pub const MOST_SPARE: u32 = 31;

/// Why a setting isn't taken.
#[derive(Clone, Copy)]
pub enum BadSetting {
    /// There is none of this name.
    Unknown,
    /// It is a text.
    Text,
    /// It is a number from 1 to this.
    Number(u32),
    /// It is a size, as `"256 MB"`.
    Size,
    /// It is a time, as `"10m"`.
    Time,
    /// It is an origin, as `"https://kl1.example.org"`.
    Origin,
    /// It is `"always"`, `"never"` or a time up to an hour.
    Sync,
    /// It is a number from 0 to 31.
    Spare,
    /// Memory was refused.
    Memory,
}

impl BadSetting {
    /// What is told of it, after the name.
    pub fn words(self) -> &'static str {
        match self {
            BadSetting::Unknown => "is no setting",
            BadSetting::Text => "is a text in quotes",
            BadSetting::Number(MOST_WORKERS) => "is a number from 1 to 64",
            BadSetting::Number(_) => "is a number from 1 to 65536",
            BadSetting::Size => "is a size, as \"256 MB\"",
            BadSetting::Time => "is a time, as \"10m\", \"90s\" or \"100ms\"",
            BadSetting::Origin => "is an origin, as \"https://kl1.example.org\"",
            BadSetting::Sync => "is \"always\", \"never\" or a time up to an hour, as \"100ms\"",
            BadSetting::Spare => "is a number from 0 to 31",
            BadSetting::Memory => "takes memory that there isn't",
        }
    }
}

impl From<AllocError> for BadSetting {
    fn from(_refused: AllocError) -> Self {
        BadSetting::Memory
    }
}

/// The copy of a text.
fn text_of(alloc: Global, value: &Value) -> Result<String, BadSetting>
    ensures { IfOk result (IsText (view value.now)) }
{
    let Some(text) = value.as_str() else {
        return Err(BadSetting::Text);
    };
    let mut copy = String::new(alloc);
    copy.push_str(text)?;
    Ok(copy)
}

/// The copy of an origin.
fn origin_of(alloc: Global, value: &Value) -> Result<String, BadSetting>
    ensures { IfOk result (IsText (view value.now)) }
{
    let Some(text) = value.as_str() else {
        return Err(BadSetting::Origin);
    };
    if host_of(text.as_bytes()).is_none() {
        return Err(BadSetting::Origin);
    }
    text_of(alloc, value)
}

/// A number from 1 to `most`.
fn number_of(value: &Value, most: u32) -> Result<u32, BadSetting>
    ensures { IfOk result (λ n. n ≤ most) }
{
    let Some(number) = value.as_integer() else {
        return Err(BadSetting::Number(most));
    };
    if number >= 1 && number <= i64::from(most) {
        Ok(number as u32)
    } else {
        Err(BadSetting::Number(most))
    }
}

/// How many accounts may come: from 0 on.
fn spare_of(value: &Value) -> Result<u32, BadSetting>
    ensures { IfOk result (λ n. n ≤ MOST_SPARE) }
{
    match value.as_integer() {
        Some(number) if number >= 0 && number <= i64::from(MOST_SPARE) => Ok(number as u32),
        _ => Err(BadSetting::Spare),
    }
}

/// A size in bytes.
fn size_of(value: &Value) -> Result<u64, BadSetting>
    ensures { IfOk result (IsSize (view value.now)) }
{
    let Some(text) = value.as_str() else {
        return Err(BadSetting::Size);
    };
    size_in(text.as_bytes()).ok_or(BadSetting::Size)
}

/// A time in milliseconds, at least one.
fn time_of(value: &Value) -> Result<u64, BadSetting>
    ensures { IfOk result (IsTime (view value.now)) }
{
    let Some(text) = value.as_str() else {
        return Err(BadSetting::Time);
    };
    match duration_in(text.as_bytes()) {
        None | Some(0) => Err(BadSetting::Time),
        Some(time) => Ok(time),
    }
}

/// When journals are on the disk.
fn sync_of(value: &Value) -> Result<Sync, BadSetting>
    ensures { IfOk result (IsSync (view value.now)) }
{
    let Some(text) = value.as_str() else {
        return Err(BadSetting::Sync);
    };
    sync_in(text.as_bytes()).ok_or(BadSetting::Sync)
}

impl Settings {
    /// What a host is set to if its file says nothing.
    pub fn new(alloc: Global) -> Result<Self, AllocError> {
        let mut listen = String::new(alloc);
        listen.push_str("127.0.0.1:7474")?;
        Ok(Settings {
            listen,
            web: None,
            page: None,
            workers: None,
            sync: Sync::Always,
            idle: 600_000,
            idle_login: 10_000,
            connections: 1_000,
            connections_each: 100,
            waiting_each: 64,
            memory_each: 256_000_000,
            codes_each: 64_000_000,
            disk_each: 1_000_000_000,
            spare_accounts: 4,
        })
    }

    /// Sets what has this name, and nothing else. A setting that isn't taken leaves all as it is.
    pub fn set(&mut self, alloc: Global, name: &str, value: &Value) -> Result<(), BadSetting>
        ensures set { OnOk result (IsSet name.now (view value.now) self.old self.new) }
        ensures same { OnErr result (self.new ≡ self.old) }
    {
        match name {
            "listen" => Ok(self.listen = text_of(alloc, value)?),
            "web" => Ok(self.web = Some(text_of(alloc, value)?)),
            "page" => Ok(self.page = Some(origin_of(alloc, value)?)),
            "workers" => Ok(self.workers = Some(number_of(value, MOST_WORKERS)?)),
            "sync" => Ok(self.sync = sync_of(value)?),
            "idle" => Ok(self.idle = time_of(value)?),
            "idle_login" => Ok(self.idle_login = time_of(value)?),
            "connections" => Ok(self.connections = number_of(value, MOST_CONNECTIONS)?),
            "connections_each" => Ok(self.connections_each = number_of(value, MOST_CONNECTIONS)?),
            "waiting_each" => Ok(self.waiting_each = number_of(value, MOST_CONNECTIONS)?),
            "memory_each" => Ok(self.memory_each = size_of(value)?),
            "codes_each" => Ok(self.codes_each = size_of(value)?),
            "disk_each" => Ok(self.disk_each = size_of(value)?),
            "spare_accounts" => Ok(self.spare_accounts = spare_of(value)?),
            _ => Err(BadSetting::Unknown),
        }
    }
}
