// The file of accounts.

ghost use Rattle.std.specs.Prelude.{◌≡◌, ◌<◌, ◌≤◌, length, IfOk, IsErrOf};
ghost use Rattle.kl1_model.specs.declared.limits.TheConstants.{MOST_ACCOUNTS};
ghost use Rattle.kl1_session.specs.Views.{entries_view};
ghost use Rattle.kl1_server_work.specs.Files.{NamesAccounts, NamesNone};
ghost use Rattle.kl1_server_work.specs.declared.startup_error.StartupError.TheVariants as errors;

use crate::startup_error::StartupError;
use kl1_lines::{ScriptFault, Source, read_all};
use kl1_session::{Key, read_keys};
use std::alloc::Global;

/// The accounts with their keys that a file names, which is read to its end.
pub fn read_accounts<S: Source>(alloc: Global, source: &mut S) -> Result<Vec<Key>, StartupError>
    ensures ok { IfOk result (λ keys. NamesAccounts (S.remaining source.old) (entries_view keys.items)) }
    ensures bad { IsErrOf result errors.Accounts → S.failures source.new ≡ S.failures source.old → NamesNone (S.remaining source.old) }
    ensures some { IfOk result (λ keys. 1 ≤ length keys.items) }
    ensures few { IfOk result (λ keys. length keys.items ≤ MOST_ACCOUNTS) }
{
    match read_all(alloc, source) {
        Ok(bytes) => match read_keys(alloc, bytes.as_slice()) {
            Ok(Some(keys)) => Ok(keys),
            Ok(None) => Err(StartupError::Accounts),
            Err(_) => Err(StartupError::Memory),
        },
        Err(ScriptFault::Memory) => Err(StartupError::Memory),
        Err(_) => Err(StartupError::Accounts),
    }
}
