// The entries of a file of accounts.

ghost use Rattle.std.specs.Prelude.{◌≡◌, ◌||◌, option_map, IfOk};
ghost use Rattle.std.specs.List.{list_all};
ghost use Rattle.kl1_model.specs.AccountName.{is_account_name};
ghost use Rattle.kl1_model.specs.Name.{is_small_letter};
ghost use Rattle.kl1_model.specs.Token.{is_digit};
ghost use Rattle.kl1_session.specs.Files.{is_key_byte, is_key, entry_in};
ghost use Rattle.kl1_session.specs.Views.{entry_view};

use crate::limits::MOST_KEY_BYTES;
use kl1_lines::split_name;
use kl1_model::limits::MOST_ACCOUNT_NAME_BYTES;
use std::alloc::{AllocError, Global};

/// The name of an account, and its key.
#[derive(Drop)]
pub struct Key {
    /// The name.
    pub name: Vec<u8>,
    /// The key.
    pub key: Vec<u8>,
}

/// The entry that a line is, if it is one.
pub(crate) fn key_in(alloc: Global, line: &[u8]) -> Result<Option<Key>, AllocError>
    ensures { IfOk result (λ key. option_map entry_view key ≡ entry_in line.now) }
{
    let (name, key) = split_name(line);
    if !is_account_name(name) || !is_key(key) {
        return Ok(None);
    }
    Ok(Some(Key {
        name: Vec::from_slice(alloc, name)?,
        key: Vec::from_slice(alloc, key)?,
    }))
}

/// Whether bytes are the name of an account.
fn is_account_name(bytes: &[u8]) -> bool
    ensures { result ≡ is_account_name bytes.now }
{
    match bytes {
        [] => false,
        [first, rest @ ..] => {
            first.is_ascii_lowercase()
                && rest.len() < MOST_ACCOUNT_NAME_BYTES
                && are_name_bytes(rest)
        }
    }
}

/// Whether each byte may stand in the name of an account after the first.
fn are_name_bytes(bytes: &[u8]) -> bool
    ensures { result ≡ list_all (λ c. is_small_letter c || is_digit c) bytes.now }
{
    bytes
        .iter()
        .all(|byte| byte.is_ascii_lowercase() || byte.is_ascii_digit())
}

/// Whether bytes are a key.
#[tactic(auto, using(crate::proofs::Lines::key_fits))]
fn is_key(key: &[u8]) -> bool
    ensures { result ≡ is_key key.now }
{
    if key.is_empty() || key.len() > MOST_KEY_BYTES {
        return false;
    }
    are_key_bytes(key)
}

/// Whether each byte may stand in a key.
fn are_key_bytes(bytes: &[u8]) -> bool
    ensures { result ≡ list_all is_key_byte bytes.now }
{
    bytes.iter().all(|byte| byte.is_ascii_graphic())
}
