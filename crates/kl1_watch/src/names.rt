// The names by which a goal's variables are told.

use kl1_lines::put_decimal;
use std::alloc::AllocError;

/// The names of the variables of a goal as it was started, by their numbers from 1; those that begin with `_` aren't told.
#[derive(Drop)]
pub struct Names {
    pub names: Vec<Vec<u8>>,
}

impl Names {
    /// Whether the variable of this number has a name that is told.
    pub(crate) fn has(&self, number: u64) -> bool {
        self.name_of(number).is_some()
    }

    /// The name of the variable of this number, if it has one that is told.
    fn name_of(&self, number: u64) -> Option<&[u8]> {
        let place = usize::try_from(number.checked_sub(1)?).ok()?;
        let name = self.names.get(place)?.as_slice();
        if name.starts_with(b"_") {
            None
        } else {
            Some(name)
        }
    }

    /// Puts a variable after the bytes: its name, or `_` and its number.
    pub fn put_variable(&self, number: u64, out: &mut Vec<u8>) -> Result<(), AllocError> {
        match self.name_of(number) {
            Some(name) => out.extend_from_slice(name),
            None => {
                out.push(b'_')?;
                put_decimal(out, number)
            }
        }
    }

    /// Puts a printed term after the bytes, with names in place of numbers where there are any.
    pub fn put_named(&self, text: &[u8], out: &mut Vec<u8>) -> Result<(), AllocError> {
        let mut is_quoted = false;
        let mut is_inside = false;
        let mut rest = text;
        // Each round takes a byte at least.
        for _ in text {
            let [byte, others @ ..] = rest else {
                break;
            };
            rest = others;
            if *byte == b'\'' {
                is_quoted = !is_quoted;
            }
            if *byte == b'_' && !is_quoted && !is_inside {
                let (number, more) = number_before(others);
                if let Some(number) = number {
                    self.put_variable(number, out)?;
                    rest = more;
                    is_inside = true;
                    continue;
                }
            }
            is_inside = byte.is_ascii_alphanumeric() || *byte == b'_';
            out.push(*byte)?;
        }
        Ok(())
    }
}

/// The number with whose digits a text begins, if there is one, and what is after them.
fn number_before(text: &[u8]) -> (Option<u64>, &[u8]) {
    let mut number = None;
    for (place, digit) in text.iter().enumerate() {
        if !digit.is_ascii_digit() {
            return (number, text.get(place..).unwrap_or(&[]));
        }
        let before: u64 = number.unwrap_or(0);
        number = Some(
            before
                .saturating_mul(10)
                .saturating_add(u64::from(*digit - b'0')),
        );
    }
    (number, &[])
}
