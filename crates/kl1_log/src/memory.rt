// A journal's file in memory, for tests.

ghost use Rattle.std.specs.Prelude.{◌≡◌, ◌≤◌, [], true, false, None, IfSome, OnOk, OnErr, IfOk, is_ok};
ghost use Rattle.kl1_log.specs.Files.{MayLeave, settled, states};
ghost use Rattle.kl1_log.specs.Memories.{state_of, course_of, is_usable_memory};

use crate::disk::Disk;
use crate::snapshot::{Image, Snapshot};
use std::alloc::{AllocError, Global};
use std::{io, mem};

/// A journal's file in memory, which keeps all its states. It fails once it has done as much as it may: a call costs 1, and so does each
/// byte that is written.
#[derive(Drop)]
pub struct Memory {
    alloc: Global,
    state: Snapshot,
    past: Vec<Snapshot>,
    left: usize,
    usable: bool,
}

/// What a failed call tells.
fn failure() -> io::Error {
    io::Error::from(io::ErrorKind::Other)
}

impl Memory {
    /// A file with these bytes, all of them on the disk, which does `left` calls and bytes.
    pub fn new(alloc: Global, bytes: Vec<u8>, left: usize) -> Self
        ensures course { course_of result ≡ record { now = record { now = settled bytes.items; before = None; next = None }; past = [] } }
        ensures usable { is_usable_memory result ≡ true }
    {
        Memory {
            alloc,
            state: Snapshot::of(Image::on_disk(alloc, bytes)),
            past: Vec::new(alloc),
            left,
            usable: true,
        }
    }

    /// Takes what a call costs. Until the call is done the file isn't usable.
    fn begin(&mut self) -> io::Result<()>
        ensures course { course_of self.new ≡ course_of self.old }
        ensures usable { is_usable_memory self.new ≡ false }
    {
        self.usable = false;
        if self.left == 0 {
            return Err(failure());
        }
        self.left -= 1;
        Ok(())
    }

    /// How many of `most` bytes are written: each costs 1. Until the call is done the file isn't usable.
    fn count(&mut self, most: usize) -> usize
        ensures course { course_of self.new ≡ course_of self.old }
        ensures usable { is_usable_memory self.new ≡ false }
        ensures most { result ≤ most }
    {
        self.usable = false;
        let count = most.min(self.left);
        self.left -= count;
        count
    }

    /// Comes to another state.
    #[tactic(auto, using(crate::proofs::Courses::one_more))]
    fn go_to(&mut self, next: Snapshot) -> Result<(), AllocError>
        ensures ok { OnOk result (course_of self.new ≡ record { now = state_of next; past = states (course_of self.old) }) }
        ensures err { OnErr result (course_of self.new ≡ course_of self.old) }
        ensures usable { is_usable_memory self.new ≡ is_usable_memory self.old }
    {
        self.past.reserve(1)?;
        self.past.push_reserved(mem::replace(&mut self.state, next));
        Ok(())
    }

    /// Comes to another state, with which a call is done.
    fn end(&mut self, next: Snapshot) -> io::Result<()>
        requires { is_usable_memory self.old ≡ false }
        ensures ok { OnOk result (course_of self.new ≡ record { now = state_of next; past = states (course_of self.old) }) }
        ensures err { OnErr result (course_of self.new ≡ course_of self.old) }
        ensures usable { is_usable_memory self.new ≡ is_ok result }
    {
        self.go_to(next)?;
        self.usable = true;
        Ok(())
    }

    /// What a crash may leave now: the bytes on the disk, and the first `pending` of those after them; if `undone`, of the file that the last
    /// renaming has put away. `None` if no renaming may be undone.
    pub fn left_by_crash(&self, pending: usize, undone: bool) -> Result<Option<Vec<u8>>, AllocError>
        ensures { IfOk result (λ left. IfSome left (λ bytes. MayLeave (course_of self.now).now bytes.items)) }
    {
        self.state.left(self.alloc, pending, undone)
    }
}

impl Disk for Memory {
    ghost use Rattle.std.specs.Prelude.{Some};
    ghost use Rattle.kl1_log.specs.Memories.{course_of};

    ghost known = { λ m. Some (course_of m) };

    ghost is_usable = { λ m. m.usable };

    fn may_be_used(&self) -> bool {
        self.usable
    }

    fn read(&mut self, alloc: Global) -> io::Result<Vec<u8>> {
        self.begin()?;
        let bytes = self.state.held().content(alloc)?;
        self.usable = true;
        Ok(bytes)
    }

    fn append(&mut self, bytes: &[u8]) -> io::Result<()> {
        let count = self.count(bytes.len());
        let next = self.state.appended(self.alloc, &bytes[..count])?;
        self.go_to(next)?;
        if count < bytes.len() {
            return Err(failure());
        }
        self.begin()?;
        self.usable = true;
        Ok(())
    }

    fn sync(&mut self) -> io::Result<()> {
        self.begin()?;
        let next = self.state.synced(self.alloc)?;
        self.end(next)
    }

    fn cut(&mut self, len: usize) -> io::Result<()> {
        self.begin()?;
        let loose = self.state.loosened(self.alloc, len)?;
        let next = self.state.cut(self.alloc, len)?;
        self.go_to(loose)?;
        self.end(next)
    }

    fn write_next(&mut self, bytes: &[u8]) -> io::Result<()> {
        let count = self.count(bytes.len());
        let next = self.state.with_next(self.alloc, &bytes[..count])?;
        self.go_to(next)?;
        if count < bytes.len() {
            return Err(failure());
        }
        self.begin()?;
        self.usable = true;
        Ok(())
    }

    fn sync_next(&mut self) -> io::Result<()> {
        self.begin()?;
        let next = self.state.next_synced(self.alloc)?;
        self.end(next)
    }

    fn rename(&mut self) -> io::Result<()> {
        self.begin()?;
        let next = self.state.renamed(self.alloc)?;
        self.end(next)
    }

    fn sync_folder(&mut self) -> io::Result<()> {
        self.begin()?;
        let next = self.state.folder_synced(self.alloc)?;
        self.end(next)
    }
}
