// The accounts of a script, which its first line names.

ghost use Rattle.std.specs.Prelude.{◌≡◌, ◌&&◌, nat_le, length, bytes_eq, slice_get, IsFalse, IfOk, IfSome, IfNone, option_map};
ghost use Rattle.std.specs.List.{list_any};
ghost use Rattle.kl1_model.specs.Line.{words_of};
ghost use Rattle.kl1_model_server.specs.Script.{are_distinct, is_account, accounts_in};
ghost use Rattle.kl1_script.specs.Accounts.{named};

use kl1_lines::{is_blank_line, is_same, split_word};
use kl1_model::limits::MOST_ACCOUNTS;
use kl1_world::AccountName;
use std::alloc::{AllocError, Global};

/// Whether no name stands twice.
fn are_distinct(names: &[AccountName]) -> bool
    ensures { result ≡ are_distinct names.now }
{
    match names {
        [] => true,
        [first, rest @ ..] => !is_among(first, rest) && are_distinct(rest),
    }
}

/// Whether a name is among others.
fn is_among(name: &AccountName, others: &[AccountName]) -> bool
    ensures { result ≡ list_any (bytes_eq name.now) others.now }
{
    others.iter().any(|other| name.text().is(&other.text()))
}

/// The words of a line, if they are names of accounts and not too many.
fn names_in(alloc: Global, line: &[u8]) -> Result<Option<Vec<AccountName>>, AllocError>
    ensures { IfOk result (λ names. option_map (λ v. v.items) names ≡ named (words_of line.now)) }
{
    let mut names = Vec::new(alloc);
    let mut rest = line;
    while !is_blank_line(rest) {
        let (word, behind) = split_word(rest);
        let Some(name) = AccountName::read(word) else {
            return Ok(None);
        };
        if names.len() == MOST_ACCOUNTS {
            return Ok(None);
        }
        names.push(name)?;
        rest = behind;
    }
    Ok(Some(names))
}

/// Whether there is a name, and none stands twice.
fn are_accounts(names: &[AccountName]) -> bool
    ensures { result ≡ (nat_le 1 (length names.now) && are_distinct names.now) }
{
    !names.is_empty() && are_distinct(names)
}

/// The accounts that the first line of a script names, without its end.
pub fn accounts_in(alloc: Global, line: &[u8]) -> Result<Option<Vec<AccountName>>, AllocError>
    ensures { IfOk result (λ names. option_map (λ v. v.items) names ≡ accounts_in (words_of line.now)) }
{
    let (word, rest) = split_word(line);
    if !is_same(word, b"accounts") {
        return Ok(None);
    }
    match names_in(alloc, rest)? {
        None => Ok(None),
        Some(names) => {
            if are_accounts(names.as_slice()) {
                Ok(Some(names))
            } else {
                Ok(None)
            }
        }
    }
}

/// The place of the account of a name; `None` if no account has it.
pub(crate) fn place_in(accounts: &[AccountName], name: &[u8]) -> Option<usize>
    ensures some { IfSome result (λ place. slice_get accounts.now place ≡ Some name.now) }
    ensures none { IfNone result (IsFalse (is_account accounts.now name.now)) }
{
    for (place, account) in accounts.iter().enumerate() {
        if is_same(name, account.text().unpacked().as_slice()) {
            return Some(place);
        }
    }
    None
}
