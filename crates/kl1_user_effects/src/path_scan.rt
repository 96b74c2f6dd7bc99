// What is found on the paths of shoens.

ghost use Rattle.std.specs.Prelude.{◌≡◌, ◌++◌, ◌∷◌, [], ◌&&◌, not, if◌then◌else◌, OnOk};
ghost use Rattle.kl1_model.specs.Module.{is_among};

use std::alloc::{AllocError, Global};

/// What is found on the path of a shoen: the shoens that terminate, and those that have just been charged what they may be and go on;
/// both innermost first.
#[derive(Drop)]
pub struct PathScan {
    pub ending: Vec<u64>,
    pub reached: Vec<u64>,
}

impl PathScan {
    /// Nothing found.
    pub fn new(alloc: Global) -> Self {
        PathScan {
            ending: Vec::new(alloc),
            reached: Vec::new(alloc),
        }
    }
}

/// Whether a number is among others.
fn is_among(numbers: &[u64], number: u64) -> bool
    ensures { result ≡ is_among number numbers.now }
{
    for other in numbers {
        if number == *other {
            return true;
        }
    }
    false
}

/// Puts the number of a shoen down, if it was charged just what it may be and doesn't end.
pub fn put_reached(
    number: u64,
    has_reached: bool,
    ending: &[u64],
    reached: &mut Vec<u64>,
) -> Result<(), AllocError>
    ensures { OnOk result (reached.new.items ≡ reached.old.items ++ (if has_reached && not (is_among number ending.now) then number ∷ [] else [])) }
{
    if !has_reached {
        return Ok(());
    }
    if is_among(ending, number) {
        return Ok(());
    }
    reached.push(number)?;
    Ok(())
}
