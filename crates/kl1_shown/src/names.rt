// The names of a goal's variables.

use kl1_read::{Front, Spelled, front_of};
use std::alloc::{AllocError, Global};

/// The names of the variables of a goal's text, in order of their numbers. A variable `_` has a number of its own each time.
pub fn variable_names(alloc: Global, text: &[u8]) -> Result<Vec<Vec<u8>>, AllocError> {
    let mut names = Vec::new(alloc);
    let mut rest = text;
    // Each round takes a byte at least.
    for _ in text {
        rest = match front_of(rest) {
            Front::Finished => return Ok(names),
            Front::Broken => return Ok(names),
            Front::LineEnd(others) => others,
            Front::Blank(others) => others,
            Front::Token(token, others) => {
                put_name_in(alloc, &token, &mut names)?;
                others
            }
        };
    }
    Ok(names)
}

/// Puts the name of a variable after the others, if a token is one.
fn put_name_in(alloc: Global, token: &Spelled, names: &mut Vec<Vec<u8>>) -> Result<(), AllocError> {
    match token {
        Spelled::Variable(name) => put_new(alloc, name.unpacked().as_slice(), names),
        _ => Ok(()),
    }
}

/// Puts the name of a variable after the others, unless it is there.
fn put_new(alloc: Global, name: &[u8], names: &mut Vec<Vec<u8>>) -> Result<(), AllocError> {
    if name != b"_".as_slice() {
        for other in names.as_slice() {
            if other.as_slice() == name {
                return Ok(());
            }
        }
    }
    names.push(Vec::from_slice(alloc, name)?)?;
    Ok(())
}
