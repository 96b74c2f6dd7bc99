// What is done to a file.

ghost use Rattle.std.specs.Prelude.{◌≡◌, ℕ, List, OnOk, OnErr};
ghost use Rattle.kl1_log.specs.Batches.{text_after, bytes_of, IsExtended};

use std::alloc::AllocError;

/// What a file gets so that it is the file of a later journal, in whole lines without their sums.
#[derive(Drop)]
pub enum Change {
    /// Lines after its own.
    Appends(Vec<u8>),
    /// Other lines in place of its own.
    Begins(Vec<u8>),
}

impl Change {
    /// How many bytes it has.
    pub(crate) fn len(&self) -> usize {
        match self {
            Change::Appends(bytes) => bytes.len(),
            Change::Begins(bytes) => bytes.len(),
        }
    }

    /// Adds lines that the file gets after it.
    pub(crate) fn extend(&mut self, bytes: &[u8]) -> Result<(), AllocError>
        ensures ok { OnOk result (IsExtended self.old bytes.now self.new) }
        ensures err { OnErr result ((text : List ℕ) → text_after text self.new ≡ text_after text self.old) }
        ensures bytes { OnErr result (bytes_of self.new ≡ bytes_of self.old) }
    {
        match self {
            Change::Appends(waiting) => waiting.extend_from_slice(bytes)?,
            Change::Begins(waiting) => waiting.extend_from_slice(bytes)?,
        }
        Ok(())
    }
}
