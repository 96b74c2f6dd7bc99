// The file of accounts: names, and sums of their keys.

ghost use Rattle.std.specs.Prelude.{◌≡◌, ◌≤◌, ◌++◌, length, option_map, IfOk, OnOk, IfSome};
ghost use Rattle.std.specs.List.{list_all};
ghost use Rattle.kl1_model.specs.declared.limits.TheConstants.{MOST_ACCOUNTS};
ghost use Rattle.kl1_session.specs.Views.{entries_view};
ghost use Rattle.kl1_host_front.specs.Sums.{is_sum_byte, is_sum, has_sum, sums_of, account_line};

use crate::hashed_keys::sum_of;
use kl1_lines::split_feed;
use kl1_session::{Key, read_keys};
use std::alloc::{AllocError, Global};

/// The bytes of a sum of SHA-256 in hexadecimal digits.
pub const SUM_BYTES: usize = 64;

/// Whether a byte is a hexadecimal digit, with small letters.
fn is_sum_byte(byte: u8) -> bool
    ensures { result ≡ is_sum_byte byte }
{
    (b'0' <= byte && byte <= b'9') || (b'a' <= byte && byte <= b'f')
}

/// Whether all are hexadecimal digits.
fn are_sum_bytes(bytes: &[u8]) -> bool
    ensures { result ≡ list_all is_sum_byte bytes.now }
{
    bytes.iter().all(|byte| is_sum_byte(*byte))
}

/// Whether bytes are a sum.
fn is_sum(bytes: &[u8]) -> bool
    ensures { result ≡ is_sum bytes.now }
{
    bytes.len() == SUM_BYTES && are_sum_bytes(bytes)
}

/// Whether beside each name there is a sum.
fn have_sums(keys: &[Key]) -> bool
    ensures { result ≡ list_all has_sum (entries_view keys.now) }
{
    let mut rest = keys;
    while let [first, others @ ..] = rest {
        if !is_sum(first.key.as_slice()) {
            return false;
        }
        rest = others;
    }
    true
}

/// The accounts of a file, in the order of its lines, with the sums of their keys; `None` if it is no such file.
pub fn read_sums(alloc: Global, bytes: &[u8]) -> Result<Option<Vec<Key>>, AllocError>
    ensures value { IfOk result (λ r. option_map (λ keys. entries_view keys.items) r ≡ sums_of bytes.now) }
    ensures some { IfOk result (λ r. IfSome r (λ keys. 1 ≤ length keys.items)) }
    ensures few { IfOk result (λ r. IfSome r (λ keys. length keys.items ≤ MOST_ACCOUNTS)) }
{
    let Some(keys) = read_keys(alloc, bytes)? else {
        return Ok(None);
    };
    if have_sums(keys.as_slice()) {
        Ok(Some(keys))
    } else {
        Ok(None)
    }
}

/// Puts a line for an account, by its name and its key, after the lines of a file.
pub fn put_account(out: &mut Vec<u8>, name: &[u8], key: &[u8]) -> Result<(), AllocError>
    ensures { OnOk result (out.new.items ≡ out.old.items ++ account_line name.now key.now) }
{
    out.extend_from_slice(name)?;
    out.extend_from_slice(b" ")?;
    out.extend_from_slice(sum_of(key).as_slice())?;
    out.extend_from_slice(b"\n")
}

/// The number, from 1, of the line up to which a text is no file of accounts.
pub fn bad_line(alloc: Global, bytes: &[u8]) -> Result<u64, AllocError> {
    let mut rest = bytes;
    let mut line = 1u64;
    while let Some((_, behind)) = split_feed(rest) {
        let front = &bytes[..bytes.len() - behind.len()];
        if read_sums(alloc, front)?.is_none() {
            return Ok(line);
        }
        line = line.saturating_add(1);
        rest = behind;
    }
    Ok(line)
}
