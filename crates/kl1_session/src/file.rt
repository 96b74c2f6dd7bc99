// Files of accounts.

ghost use Rattle.std.specs.Prelude.{◌≡◌, length, map, option_map, bytes_eq, IfOk};
ghost use Rattle.std.specs.List.{list_any};
ghost use Rattle.kl1_model_server.specs.Script.{are_distinct};
ghost use Rattle.kl1_session.specs.Files.{entries_in, file_lines, are_fit, accounts_of};
ghost use Rattle.kl1_session.specs.Views.{entries_view, FirstLine};

use crate::key::{Key, key_in};
use crate::limits::MOST_FILE_BYTES;
use kl1_lines::split_feed;
use kl1_model::limits::MOST_ACCOUNTS;
use std::alloc::{AllocError, Global};

/// The accounts that a file of these bytes names, in the order of its lines; `None` if it isn't a file of accounts.
pub fn read_keys(alloc: Global, bytes: &[u8]) -> Result<Option<Vec<Key>>, AllocError>
    ensures { IfOk result (λ keys. option_map (λ v. entries_view v.items) keys ≡ accounts_of bytes.now) }
{
    if bytes.len() > MOST_FILE_BYTES {
        return Ok(None);
    }
    match read_lines(alloc, bytes)? {
        None => Ok(None),
        Some(keys) => {
            if is_fit(keys.as_slice()) {
                Ok(Some(keys))
            } else {
                Ok(None)
            }
        }
    }
}

/// The entries that the lines of a file are; `None` if one is none.
fn read_lines(alloc: Global, bytes: &[u8]) -> Result<Option<Vec<Key>>, AllocError>
    ensures { IfOk result (λ keys. option_map (λ v. entries_view v.items) keys ≡ entries_in (file_lines bytes.now)) }
{
    let mut keys = Vec::new(alloc);
    let mut rest = bytes;
    while !rest.is_empty() {
        let (line, behind) = first_line(rest);
        match key_in(alloc, line)? {
            None => return Ok(None),
            Some(key) => keys.push(key)?,
        }
        rest = behind;
    }
    Ok(Some(keys))
}

/// The first line of a text, without its end, and what is after it.
fn first_line(text: &[u8]) -> (&[u8], &[u8])
    ensures { FirstLine text.now result.0.now result.1.now }
{
    match split_feed(text) {
        None => (text, &[]),
        Some(parts) => parts,
    }
}

/// Whether there is an entry, no more than a server may have, and no name stands twice.
#[tactic(auto, using(crate::proofs::Lines::fit_none, crate::proofs::Lines::fit_many, crate::proofs::Lines::fit_by))]
fn is_fit(keys: &[Key]) -> bool
    ensures { result ≡ are_fit (entries_view keys.now) }
{
    if keys.is_empty() || keys.len() > MOST_ACCOUNTS {
        return false;
    }
    are_distinct(keys)
}

/// Whether no name stands twice.
fn are_distinct(keys: &[Key]) -> bool
    ensures { result ≡ are_distinct (map (λ e. e.name) (entries_view keys.now)) }
{
    match keys {
        [] => true,
        [first, rest @ ..] => !is_among(first.name.as_slice(), rest) && are_distinct(rest),
    }
}

/// Whether a name is that of one of these.
fn is_among(name: &[u8], keys: &[Key]) -> bool
    ensures { result ≡ list_any (bytes_eq name.now) (map (λ e. e.name) (entries_view keys.now)) }
{
    match keys {
        [] => false,
        [first, rest @ ..] => name == first.name.as_slice() || is_among(name, rest),
    }
}
