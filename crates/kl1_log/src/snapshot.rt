// The states of a file in memory.

ghost use Rattle.std.specs.Prelude.{◌≡◌, [], take, None, Some, IfOk, IfSome, option_map};
ghost use Rattle.kl1_log.specs.Files.{content, settled, loosened, IsLeftOf, Appended, Synced, Loosened, CutTo, NextWritten, NextSynced, Renamed, FolderSynced, MayLeave};
ghost use Rattle.kl1_log.specs.Memories.{bytes_of, state_of};

use std::alloc::{AllocError, Global};

/// Bytes of a file: those on the disk, and those after them that aren't yet.
#[derive(Drop)]
pub(crate) struct Image {
    synced: Vec<u8>,
    pending: Vec<u8>,
}

impl Image {
    /// These bytes, all of them on the disk.
    pub(crate) fn on_disk(alloc: Global, synced: Vec<u8>) -> Self
        ensures { bytes_of result ≡ settled synced.items }
    {
        Image {
            synced,
            pending: Vec::new(alloc),
        }
    }

    /// These bytes, none of which is on the disk.
    fn written(alloc: Global, bytes: &[u8]) -> Result<Self, AllocError>
        ensures { IfOk result (λ i. bytes_of i ≡ record { synced = []; pending = bytes.now }) }
    {
        let pending = Vec::from_slice(alloc, bytes)?;
        Ok(Image {
            synced: Vec::new(alloc),
            pending,
        })
    }

    /// The same bytes once more.
    fn copied(&self, alloc: Global) -> Result<Self, AllocError>
        ensures { IfOk result (λ i. bytes_of i ≡ bytes_of self.now) }
    {
        let synced = Vec::from_slice(alloc, &self.synced)?;
        let pending = Vec::from_slice(alloc, &self.pending)?;
        Ok(Image { synced, pending })
    }

    /// What a read gives.
    pub(crate) fn content(&self, alloc: Global) -> Result<Vec<u8>, AllocError>
        ensures { IfOk result (λ bytes. bytes.items ≡ content (bytes_of self.now)) }
    {
        let mut bytes = Vec::from_slice(alloc, &self.synced)?;
        bytes.extend_from_slice(&self.pending)?;
        Ok(bytes)
    }

    /// The first `len` bytes, all of them on the disk.
    fn cut(&self, alloc: Global, len: usize) -> Result<Self, AllocError>
        ensures { IfOk result (λ i. bytes_of i ≡ settled (take len (content (bytes_of self.now)))) }
    {
        let mut bytes = self.content(alloc)?;
        bytes.truncate(len);
        Ok(Image::on_disk(alloc, bytes))
    }

    /// The same bytes, of those on the disk only the first `len` for sure.
    fn loosened(&self, alloc: Global, len: usize) -> Result<Self, AllocError>
        ensures { IfOk result (λ i. bytes_of i ≡ loosened len (bytes_of self.now)) }
    {
        let sure = len.min(self.synced.len());
        let synced = Vec::from_slice(alloc, &self.synced[..sure])?;
        let mut pending = Vec::from_slice(alloc, &self.synced[sure..])?;
        pending.extend_from_slice(&self.pending)?;
        Ok(Image { synced, pending })
    }

    /// What a crash may leave: the bytes on the disk, and the first `pending` of those after them.
    fn left(&self, alloc: Global, pending: usize) -> Result<Vec<u8>, AllocError>
        ensures { IfOk result (λ bytes. IsLeftOf (bytes_of self.now) bytes.items) }
    {
        let count = pending.min(self.pending.len());
        let mut bytes = Vec::from_slice(alloc, &self.synced)?;
        bytes.extend_from_slice(&self.pending[..count])?;
        Ok(bytes)
    }
}

/// Bytes once more, if there are some.
fn copied_if(alloc: Global, image: &Option<Image>) -> Result<Option<Image>, AllocError>
    ensures { IfOk result (λ copy. option_map bytes_of copy ≡ option_map bytes_of image.now) }
{
    match image {
        None => Ok(None),
        Some(image) => Ok(Some(image.copied(alloc)?)),
    }
}

/// What stands under a name, what a crash may bring back there, and what stands beside it.
#[derive(Drop)]
pub(crate) struct Snapshot {
    held: Image,
    before: Option<Image>,
    next: Option<Image>,
}

impl Snapshot {
    /// A file with these bytes, which stands alone.
    pub(crate) fn of(held: Image) -> Self
        ensures { state_of result ≡ record { now = bytes_of held; before = None; next = None } }
    {
        Snapshot {
            held,
            before: None,
            next: None,
        }
    }

    /// The bytes that stand under the name.
    pub(crate) fn held(&self) -> &Image
        ensures { bytes_of result.now ≡ (state_of self.now).now }
    {
        &self.held
    }

    /// The same with other bytes under the name.
    fn holding(&self, alloc: Global, held: Image) -> Result<Self, AllocError>
        ensures { IfOk result (λ s. state_of s ≡ record (state_of self.now) { now = bytes_of held }) }
    {
        let before = copied_if(alloc, &self.before)?;
        let next = copied_if(alloc, &self.next)?;
        Ok(Snapshot { held, before, next })
    }

    /// What it is after bytes were written after the others.
    pub(crate) fn appended(&self, alloc: Global, bytes: &[u8]) -> Result<Self, AllocError>
        ensures { IfOk result (λ s. Appended bytes.now (state_of self.now) (state_of s)) }
    {
        let mut held = self.held.copied(alloc)?;
        held.pending.extend_from_slice(bytes)?;
        self.holding(alloc, held)
    }

    /// What it is after a sync.
    pub(crate) fn synced(&self, alloc: Global) -> Result<Self, AllocError>
        ensures { IfOk result (λ s. Synced (state_of self.now) (state_of s)) }
    {
        let bytes = self.held.content(alloc)?;
        self.holding(alloc, Image::on_disk(alloc, bytes))
    }

    /// What it is while it is cut to its first `len` bytes.
    pub(crate) fn loosened(&self, alloc: Global, len: usize) -> Result<Self, AllocError>
        ensures { IfOk result (λ s. Loosened len (state_of self.now) (state_of s)) }
    {
        let held = self.held.loosened(alloc, len)?;
        self.holding(alloc, held)
    }

    /// What it is after it was cut to its first `len` bytes.
    pub(crate) fn cut(&self, alloc: Global, len: usize) -> Result<Self, AllocError>
        ensures { IfOk result (λ s. CutTo len (state_of self.now) (state_of s)) }
    {
        let held = self.held.cut(alloc, len)?;
        self.holding(alloc, held)
    }

    /// What it is after a new file was written beside it.
    pub(crate) fn with_next(&self, alloc: Global, bytes: &[u8]) -> Result<Self, AllocError>
        ensures { IfOk result (λ s. NextWritten bytes.now (state_of self.now) (state_of s)) }
    {
        let held = self.held.copied(alloc)?;
        let before = copied_if(alloc, &self.before)?;
        let next = Image::written(alloc, bytes)?;
        Ok(Snapshot {
            held,
            before,
            next: Some(next),
        })
    }

    /// What it is after a sync of the new file; there has to be one.
    pub(crate) fn next_synced(&self, alloc: Global) -> Result<Self, AllocError>
        ensures { IfOk result (λ s. NextSynced (state_of self.now) (state_of s)) }
    {
        let Some(next) = &self.next else {
            return Err(AllocError);
        };
        let bytes = next.content(alloc)?;
        let held = self.held.copied(alloc)?;
        let before = copied_if(alloc, &self.before)?;
        Ok(Snapshot {
            held,
            before,
            next: Some(Image::on_disk(alloc, bytes)),
        })
    }

    /// What it is after the new file got the name; there has to be one.
    pub(crate) fn renamed(&self, alloc: Global) -> Result<Self, AllocError>
        ensures { IfOk result (λ s. Renamed (state_of self.now) (state_of s)) }
    {
        let next = self.next.as_ref().ok_or(AllocError)?;
        let held = next.copied(alloc)?;
        let before = self.held.copied(alloc)?;
        Ok(Snapshot {
            held,
            before: Some(before),
            next: None,
        })
    }

    /// What it is after the folder was synced.
    pub(crate) fn folder_synced(&self, alloc: Global) -> Result<Self, AllocError>
        ensures { IfOk result (λ s. FolderSynced (state_of self.now) (state_of s)) }
    {
        let held = self.held.copied(alloc)?;
        let next = copied_if(alloc, &self.next)?;
        Ok(Snapshot {
            held,
            before: None,
            next,
        })
    }

    /// What a crash may leave: of the bytes that aren't on the disk the first `pending`; if `undone`, of the file that the last renaming
    /// has put away. `None` if no renaming may be undone.
    pub(crate) fn left(
        &self,
        alloc: Global,
        pending: usize,
        undone: bool,
    ) -> Result<Option<Vec<u8>>, AllocError>
        ensures { IfOk result (λ left. IfSome left (λ bytes. MayLeave (state_of self.now) bytes.items)) }
    {
        if !undone {
            return Ok(Some(self.held.left(alloc, pending)?));
        }
        match &self.before {
            None => Ok(None),
            Some(image) => Ok(Some(image.left(alloc, pending)?)),
        }
    }
}
