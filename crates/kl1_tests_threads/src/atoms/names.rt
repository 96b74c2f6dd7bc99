// Names that differ in a number.

ghost use Rattle.std.specs.Prelude.{◌≡◌, ◌<◌, IfOk, length, vec_len};

use kl1_atoms::AtomTable;
use kl1_text::AtomText;
use std::alloc::{AllocError, Global};

/// The digit of `number` at the place of `value`.
fn digit(number: u32, value: u32) -> u8
    requires { 0 < value }
{
    b'0' + (number / value % 10) as u8
}

/// The name of `number`, which is below 1,000,000.
fn name_of(number: u32) -> AtomText {
    let bytes = [
        b'a',
        digit(number, 100_000),
        digit(number, 10_000),
        digit(number, 1_000),
        digit(number, 100),
        digit(number, 10),
        digit(number, 1),
    ];
    AtomText::read(&bytes).unwrap_or(AtomText::of(b"a"))
}

/// `count` names, those of the numbers from 0.
pub fn names(alloc: Global, count: u32) -> Result<Vec<AtomText>, AllocError>
    ensures { IfOk result (λ names. vec_len names ≡ count) }
{
    let mut names = vec![in alloc; AtomText::of(b"a"); count as usize]?;
    for number in 0..count {
        names[number as usize] = name_of(number);
    }
    Ok(names)
}

/// Puts names whose look-ups all start at one bucket in the place of others, and says how many: those of the least numbers.
pub fn put_sharing(table: &AtomTable, bucket: u64, names: &mut [AtomText]) -> usize
    ensures { length names.new ≡ length names.old }
{
    let mut found = 0;
    for number in 0..1_000_000 {
        if found >= names.len() {
            return found;
        }
        let name = name_of(number);
        if table.first_bucket(&name) == bucket {
            names[found] = name;
            found += 1;
        }
    }
    found
}
