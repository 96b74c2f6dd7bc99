// The file of settings.

use crate::settings::{BadSetting, Settings};
use std::alloc::{AllocError, AllocFailed, Global};

/// Why a file of settings isn't taken.
#[derive(Drop)]
pub enum BadSettings {
    /// Memory was refused.
    Memory,
    /// It isn't TOML, on this line, from 1, as these words say.
    Syntax {
        line: u64,
        why: String,
    },
    /// A setting isn't taken, which stands on this line, from 1, if that is known.
    Setting {
        line: Option<u64>,
        name: String,
        why: BadSetting,
    },
}

impl From<AllocError> for BadSettings {
    fn from(_refused: AllocError) -> Self {
        BadSettings::Memory
    }
}

impl<T: Drop> From<AllocFailed<T>> for BadSettings {
    fn from(_refused: AllocFailed<T>) -> Self {
        BadSettings::Memory
    }
}

/// The copy of a text.
fn copy_of(alloc: Global, text: &str) -> Result<String, AllocError> {
    let mut copy = String::new(alloc);
    copy.push_str(text)?;
    Ok(copy)
}

/// How many line feeds there are among bytes.
fn count_feeds(bytes: &[u8]) -> u64 {
    let mut count = 0u64;
    for byte in bytes {
        if *byte == b'\n' {
            count = count.saturating_add(1);
        }
    }
    count
}

/// Why a text isn't TOML.
fn syntax_fault(alloc: Global, text: &str, error: &toml::de::Error) -> BadSettings {
    let Some(span) = error.span() else {
        return BadSettings::Memory;
    };
    let before = text.as_bytes().get(..span.start).unwrap_or(&[]);
    match copy_of(alloc, error.message()) {
        Ok(why) => BadSettings::Syntax {
            line: count_feeds(before).saturating_add(1),
            why,
        },
        Err(_) => BadSettings::Memory,
    }
}

/// A line without what may stand in front of a name in TOML.
fn without_openings(line: &[u8]) -> &[u8] {
    let mut rest = line;
    while let [b' ' | b'\t' | b'[' | b'"' | b'\'', others @ ..] = rest {
        rest = others;
    }
    rest
}

/// Whether a line begins with a name.
fn begins_with(line: &[u8], name: &[u8]) -> bool {
    let Some(behind) = without_openings(line).strip_prefix(name) else {
        return false;
    };
    matches!(
        behind,
        [b' ' | b'\t' | b'=' | b']' | b'"' | b'\'' | b'.', ..]
    )
}

/// The number of the first line that begins with a name, from 1.
fn line_of(text: &[u8], name: &[u8]) -> Option<u64> {
    let mut number = 0u64;
    for line in text.split(|byte| *byte == b'\n') {
        number = number.saturating_add(1);
        if begins_with(line, name) {
            return Some(number);
        }
    }
    None
}

/// What a file of settings says, which is TOML.
pub fn settings_in(alloc: Global, text: &str) -> Result<Settings, BadSettings> {
    let table = match toml::table_from_str(alloc, text) {
        Ok(table) => table,
        Err(error) => return Err(syntax_fault(alloc, text, &error)),
    };
    let mut settings = Settings::new(alloc)?;
    for (name, value) in &table {
        match settings.set(alloc, name.as_str(), value) {
            Ok(()) => {}
            Err(BadSetting::Memory) => return Err(BadSettings::Memory),
            Err(why) => {
                return Err(BadSettings::Setting {
                    line: line_of(text.as_bytes(), name.as_bytes()),
                    name: copy_of(alloc, name.as_str())?,
                    why,
                });
            }
        }
    }
    Ok(settings)
}

/// The file of settings with which a host begins: each setting with what it is, behind a `#`.
pub const FIRST_SETTINGS: &str = "\
# The settings of a kl1_host. What stands after a # counts for nothing: take the # away, change what is after the =, and call
# kl1_host reload, which tells what waits for the next start. A setting that isn't here is as it is shown.

# Where it listens: an address and a port.
# listen = \"127.0.0.1:7474\"

# Where a browser finds its page, an address and a port; without this there is none.
# web = \"127.0.0.1:7480\"

# Where the page comes from, as browsers say it, if they find it through a proxy by another name.
# page = \"https://kl1.example.org\"

# How many threads go on with accounts, 1 to 64; without this one for each account.
# workers = 4

# When a journal is on the disk: \"always\": before a reply that tells of it. A time, as \"100ms\": no reply waits, and it is there about
# twice that time later; a longer time is as that one. \"never\": no reply waits; today it is as \"100ms\".
# sync = \"always\"

# After which time a silent connection is ended.
# idle = \"10m\"

# After which time a connection is ended that has shown no key.
# idle_login = \"10s\"

# How many connections are open at once, how many from one address, and how many of these that have shown no key.
# connections = 1000
# connections_each = 100
# waiting_each = 64

# How much memory an account may take, how much source it may load, and how much its journal may have on the disk.
# memory_each = \"256 MB\"
# codes_each = \"64 MB\"
# disk_each = \"1 GB\"

# How many accounts may come while the host runs, 0 to 31.
# spare_accounts = 4
";
