// A writer to which bytes go only by a leave.

ghost use Rattle.std.specs.Prelude.{◌≡◌};
ghost use Rattle.std.specs.Io.{WritesAtMost};
ghost use Rattle.std.specs.Io.KnownBytes.{Keeps, WriteAppends};
ghost use Rattle.kl1_host_journals.specs.Gates.{writer_behind};

use crate::leave::{Connecting, SendPermit};
use std::io::{Result, Write};
use std::marker::PhantomData;

/// A writer to which bytes go only by the leave of its connection.
#[derive(Drop)]
pub(crate) struct Gate<T: Write, C: Connecting> {
    writer: T,
    of: PhantomData<C>,
}

impl<T: Write, C: Connecting> Gate<T, C> {
    /// A gate before this writer.
    pub(crate) fn new(writer: T) -> Self
        ensures { writer_behind result ≡ writer }
    {
        Gate {
            writer,
            of: PhantomData,
        }
    }

    /// Writes some of the bytes.
    pub(crate) fn write(&mut self, permit: &SendPermit<C>, bytes: &[u8]) -> Result<usize>
        ensures bound { WritesAtMost result bytes.now }
        ensures bytes { WriteAppends (T.contents (writer_behind self.old)) (T.contents (writer_behind self.new)) result bytes.now }
    {
        let _permit = permit;
        self.writer.write(bytes)
    }

    /// Sees that what was written goes on its way.
    pub(crate) fn flush(&mut self) -> Result<()>
        ensures { Keeps (T.contents (writer_behind self.old)) (T.contents (writer_behind self.new)) }
    {
        self.writer.flush()
    }
}
