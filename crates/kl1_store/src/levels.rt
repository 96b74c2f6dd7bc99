// Levels of variables and structures.

ghost use Rattle.std.specs.Prelude.{◌≡◌, ◌<◌, ◌≤◌, take, OnOk};
ghost use Rattle.kl1_store.specs.Levels.{level_at, SetsLevel};

use std::alloc::AllocError;

/// A level for each variable and each structure, from 0; those beyond the ends of the lists lie at 0.
#[derive(Drop)]
pub struct Levels {
    pub variables: Vec<u64>,
    pub structures: Vec<u64>,
}

impl Levels {
    /// Keeps the levels of `variables` variables and `structures` structures, and puts the others back to 0.
    pub fn keep(&mut self, variables: usize, structures: usize)
        ensures variables { self.new.variables.items ≡ take variables self.old.variables.items }
        ensures structures { self.new.structures.items ≡ take structures self.old.structures.items }
    {
        self.variables.truncate(variables);
        self.structures.truncate(structures);
    }
}

/// The level at `number`, 0 beyond the end of the list.
#[inline]
pub fn level_of(levels: &Vec<u64>, number: u32) -> u64
    ensures { result ≡ level_at levels.now.items number }
{
    let index = number as usize;
    if index < levels.len() {
        return levels[index];
    }
    0
}

/// Puts a number at a level.
pub fn set_level(levels: &mut Vec<u64>, number: u32, level: u64) -> Result<(), AllocError>
    ensures { OnOk result (SetsLevel levels.old.items levels.new.items number level) }
{
    let index = number as usize;
    if index >= levels.len() {
        levels.resize(index + 1, 0)?;
    }
    levels[index] = level;
    Ok(())
}
