// A writer that writes only what is on disk.

ghost use Rattle.std.specs.Prelude.{◌≡◌};
ghost use Rattle.kl1_host_journals.specs.SyncedWriters.{writer_of};

use crate::gate::Gate;
use crate::history::Naming;
use crate::keeper_place::KeeperPlace;
use crate::leave::{Connecting, SendPermit};
use crate::outgoing::Outgoing;
use std::cell::Cell;
use std::io::{Error, ErrorKind, Result, Write};
use std::sync::Wait;

/// A writer that writes only once all is on disk for which the leave to write waits. It rings for the account's scribe before it waits.
#[derive(Drop)]
pub struct SyncedWriter<'c, T: Write, R: Wait, J: Naming, C: Connecting> {
    gate: Gate<T, C>,
    rt: &'c R,
    keepers: &'c [KeeperPlace<J>],
    outgoing: &'c Cell<Outgoing<J, C>>,
}

impl<'c, T: Write, R: Wait, J: Naming, C: Connecting> SyncedWriter<'c, T, R, J, C> {
    /// A writer over `writer`, of a connection whose leave to write is `outgoing`, to accounts of these keepers.
    pub fn new(
        writer: T,
        rt: &'c R,
        keepers: &'c [KeeperPlace<J>],
        outgoing: &'c Cell<Outgoing<J, C>>,
    ) -> Self
        ensures { writer_of result ≡ writer }
    {
        SyncedWriter {
            gate: Gate::new(writer),
            rt,
            keepers,
            outgoing,
        }
    }

    /// The leave to write, once it is here. An error if what would be told won't be on disk.
    fn permit(&self) -> Result<SendPermit<C>> {
        let outgoing = self.outgoing.replace(Outgoing::Lost);
        match outgoing.freed(self.rt, self.keepers) {
            Outgoing::Free(permit) => Ok(permit),
            _ => Err(Error::from(ErrorKind::Other)),
        }
    }
}

impl<'c, T: Write, R: Wait, J: Naming, C: Connecting> Write for SyncedWriter<'c, T, R, J, C> {
    ghost use Rattle.kl1_host_journals.specs.SyncedWriters.{writer_of};

    ghost contents = { λ w. T.contents (writer_of w) };

    fn write(&mut self, buf: &[u8]) -> Result<usize> {
        let permit = self.permit()?;
        let written = self.gate.write(&permit, buf);
        self.outgoing.set(Outgoing::Free(permit));
        written
    }

    fn flush(&mut self) -> Result<()> {
        self.gate.flush()
    }
}
