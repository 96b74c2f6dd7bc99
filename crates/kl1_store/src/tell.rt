// Telling what hangs on variables.

ghost use Rattle.std.specs.Prelude.{◌≡◌, ◌++◌, OnOk};
ghost use Rattle.kl1_store.specs.Hooks.{told_on};

use crate::hooks::Hooks;
use std::alloc::AllocError;

/// Adds the numbers that hang on these variables.
pub fn tell_all(variables: &[u32], hooks: &Hooks, told: &mut Vec<u64>) -> Result<(), AllocError>
    ensures { OnOk result (told.new.items ≡ told.old.items ++ told_on variables.now hooks.now.hooks) }
{
    let mut rest = variables;
    while let [first, more @ ..] = rest {
        hooks.tell(*first, told)?;
        rest = more;
    }
    Ok(())
}
