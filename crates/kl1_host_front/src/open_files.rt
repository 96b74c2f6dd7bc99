// How many connections the system's limit on open files leaves.

ghost use Rattle.std.specs.Prelude.{◌≡◌, ◌≤◌};
ghost use Rattle.kl1_model.specs.declared.limits.TheConstants.{MOST_ACCOUNTS};
ghost use Rattle.kl1_host_front.specs.OpenFiles.{connections_within};

use kl1_lines::{number_in, split_word};

/// The open files of a host beside those of its accounts and of its connections: what it was started with, its folder's lock, where it
/// listens, who asks it, connections that come in and aren't let in yet, and what is opened for a moment.
pub const FILES_KEPT: u64 = 24;

/// The open files of an account: the folder of its journal, the journal, a new one beside it, and one for a moment.
pub const FILES_EACH: u64 = 4;

/// How the line of the system begins that has the most files that may be open.
const LINE: &[u8] = b"Max open files";

/// The most files that may be open in a process, by what the system tells of its limits; `None` if that says none, as for no limit.
pub fn open_files_in(limits: &[u8]) -> Option<u64> {
    for line in limits.split(|byte| *byte == b'\n') {
        if let Some(behind) = line.strip_prefix(LINE) {
            let (word, _) = split_word(behind);
            return number_in(word);
        }
    }
    None
}

/// How many connections may be open at once in a process that may have this many files open, beside those of this many accounts.
pub fn connections_within(files: u64, accounts: usize) -> u64
    requires { accounts ≤ MOST_ACCOUNTS }
    ensures { result ≡ connections_within files accounts }
{
    files.saturating_sub(FILES_KEPT + FILES_EACH * accounts as u64)
}
