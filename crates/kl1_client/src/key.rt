// The account's key.

use crate::trouble::Trouble;
use crate::words::Wanted;
use kl1_client_talk::Fault;
use kl1_words::read_up_to;
use std::env::VarError;
use std::{env, io};

/// The name of the key in the environment.
const KEY: &str = "KL1_KEY";

/// The most bytes of a key.
const MOST_KEY_BYTES: usize = 64;

/// The most bytes of a key's file that are read.
const MOST_FILE_BYTES: u64 = 4_096;

/// Whether bytes are printable ASCII without blanks, at least one and at most `most`.
pub fn is_word(bytes: &[u8], most: usize) -> bool {
    !bytes.is_empty()
        && bytes.len() <= most
        && bytes.iter().all(|byte| b'!' <= *byte && *byte <= b'~')
}

/// The key, from its file if one is named, else from the environment.
pub fn key_of<'a>(rt: &HostRuntime, wanted: &Wanted<'_, 'a>) -> Result<Vec<u8>, Trouble<'a>> {
    let key = match wanted.key_file {
        Some(name) => match first_line(rt, name) {
            Ok(line) => line,
            Err(error) => return Err(Trouble::KeyFile(name, error)),
        },
        None => match env::var(rt, KEY) {
            Ok(text) => text.into_bytes(),
            Err(VarError::NotPresent) => return Err(Trouble::NoKey),
            Err(VarError::NotUnicode) => return Err(Trouble::BadKey),
            Err(VarError::OutOfMemory) => return Err(Trouble::Talk(Fault::Memory)),
        },
    };
    if is_word(key.as_slice(), MOST_KEY_BYTES) {
        Ok(key)
    } else {
        Err(Trouble::BadKey)
    }
}

/// The first line of a file, without its end, or as much of it as is read.
fn first_line(rt: &HostRuntime, name: &str) -> io::Result<Vec<u8>> {
    let mut text = read_up_to(rt, name, MOST_FILE_BYTES)?;
    let mut length = text.len();
    for (place, byte) in text.iter().enumerate() {
        if *byte == b'\n' || *byte == b'\r' {
            length = place;
            break;
        }
    }
    text.truncate(length);
    Ok(text)
}
