// A journal's file in a folder of the system.

ghost use Rattle.std.specs.Prelude.{◌≡◌, true, IfOk};
ghost use Rattle.kl1_log.specs.FolderFiles.{is_usable_file};

use crate::disk::Disk;
use crate::room::Room;
use std::alloc::Global;
use std::fs::{self, OpenFile, OpenOptions};
use std::io::{self, ErrorKind, Read, Seek, SeekFrom, Write};
use std::os::unix::fs::{MetadataExt, OpenOptionsExt};
use std::rt::Files;
use std::sync::Arc;
use std::thread;
use std::time::{Clock, Duration};

/// A new file is for its owner alone.
const FILE_MODE: u32 = 0o600;

/// The bytes for which there is room in the new file that is kept beside a file: what a reset writes has fewer than `KEPT_BYTES`, and what
/// is more may go to what has to be written before.
const RESERVED_BYTES: u64 = 1_048_576;

/// The bytes of it that stay for the reset itself: a heading and 4,096 names of 127 bytes, each with its sum.
const KEPT_BYTES: u64 = 786_432;

/// The bytes that are written at a time where nothing but their number counts.
const PIECE: usize = 4_096;

/// After how many milliseconds it is tried again to write on a disk that was full.
const TRIED_AGAIN_AFTER: u64 = 100;

/// After how many milliseconds it is looked again whether a file still has its name, and whether there is room for a reset.
const LOOKED_AGAIN_AFTER: u64 = 1_000;

/// A journal's file in a folder of the system: NAME.journal, and NAME.journal.new beside it. No contract says what the system's files hold:
/// that they hold what the calls of a `Disk` say is trusted.
#[derive(Drop)]
pub struct FolderFile<R: Files + Clock> {
    rt: R,
    folder: R::File,
    path: String,
    next_path: String,
    /// None as long as there is no file of this name.
    file: Option<R::File>,
    /// The new file that is written, with how many bytes it has.
    next: Option<(R::File, u64)>,
    /// A new file that isn't written yet, full of zeros: so there is room for it, and a descriptor, when a reset comes.
    spare: Option<R::File>,
    room: Arc<Room, Global>,
    /// When it was looked last whether the file has its name, and when a spare was made last or tried, both in milliseconds.
    looked: u64,
    tried: u64,
    usable: bool,
}

/// What is told if a file is missing.
fn missing() -> io::Error {
    io::Error::from(ErrorKind::NotFound)
}

/// A file to read and to write, which has to be there or else must not be.
fn opened<R: Files>(rt: &R, path: &str, is_new: bool) -> io::Result<R::File> {
    OpenOptions::new()
        .read(true)
        .write(true)
        .create_new(is_new)
        .mode(FILE_MODE)
        .open(rt, path)
}

/// The milliseconds since some start; 0 if the clock can't be read.
fn milliseconds<R: Clock>(rt: &R) -> u64 {
    match rt.monotonic() {
        Ok(time) => u64::try_from(time.as_millis()).unwrap_or(u64::MAX),
        Err(_) => 0,
    }
}

/// Whether there may be room later for what couldn't be written.
fn is_of_room(error: &io::Error) -> bool {
    matches!(
        error.kind(),
        ErrorKind::StorageFull | ErrorKind::QuotaExceeded
    )
}

/// Writes bytes where the last were written, as far as there is room; those that are left.
fn put_some<'b, F: Write>(file: &mut F, bytes: &'b [u8]) -> io::Result<&'b [u8]> {
    let mut rest = bytes;
    for _ in 0..u64::MAX {
        if rest.is_empty() {
            break;
        }
        match file.write(rest) {
            Ok(0) => return Err(io::Error::from(ErrorKind::WriteZero)),
            Ok(count) => rest = rest.get(count..).unwrap_or(&[]),
            Err(error) if error.kind() == ErrorKind::Interrupted => {}
            Err(error) if is_of_room(&error) => break,
            Err(error) => return Err(error),
        }
    }
    Ok(rest)
}

/// Fills a new file with zeros, so that there is room for other bytes in their place.
fn fill<F: Write>(file: &mut F) -> io::Result<()> {
    let zeros = [0u8; PIECE];
    for _ in 0..RESERVED_BYTES / PIECE as u64 {
        file.write_all(&zeros)?;
    }
    Ok(())
}

impl<R: Files + Clock> FolderFile<R> {
    /// The file of the journal of `name` in a folder. It may be missing: then it has no bytes until it is begun.
    pub fn open(rt: R, alloc: Global, folder: &str, name: &str) -> io::Result<Self>
    where
        R: Drop,
        ensures { IfOk result (λ f. is_usable_file f ≡ true) }
    {
        let path = format!(in alloc; "{folder}/{name}.journal")?;
        let next_path = format!(in alloc; "{folder}/{name}.journal.new")?;
        let folder = fs::open(&rt, folder)?;
        let Ok(room) = Arc::new(alloc, Room::new()) else {
            return Err(io::Error::from(ErrorKind::OutOfMemory));
        };
        let file = match opened(&rt, path.as_str(), false) {
            Ok(file) => {
                room.set_bytes(file.metadata()?.len());
                Some(file)
            }
            Err(error) if error.kind() == ErrorKind::NotFound => None,
            Err(error) => return Err(error),
        };
        Ok(FolderFile {
            rt,
            folder,
            path,
            next_path,
            file,
            next: None,
            spare: None,
            room,
            looked: 0,
            tried: 0,
            usable: true,
        })
    }

    /// Removes what was left of a new file, if there is something.
    fn remove_next(&self) -> io::Result<()> {
        match fs::remove_file(&self.rt, self.next_path.as_str()) {
            Err(error) if error.kind() != ErrorKind::NotFound => Err(error),
            _ => Ok(()),
        }
    }

    /// A new file beside the file, in place of one that may be there.
    fn new_file(&self) -> io::Result<R::File> {
        self.remove_next()?;
        opened(&self.rt, self.next_path.as_str(), true)
    }

    /// A spare, full of zeros. One that can't be filled goes again.
    fn filled(&self) -> io::Result<R::File> {
        let mut file = self.new_file()?;
        match fill(&mut file) {
            Ok(()) => Ok(file),
            Err(error) => {
                let _ = self.remove_next();
                Err(error)
            }
        }
    }

    /// Waits for room on the disk, for a short time; if a reset waits meanwhile, a part of the spare goes. An error if it is to be waited no
    /// more.
    fn await_room(&self) -> io::Result<()> {
        if !self.room.may_wait() {
            return Err(io::Error::from(ErrorKind::StorageFull));
        }
        self.room.set_short(true);
        match &self.spare {
            Some(spare) if self.room.is_hurried() => spare.set_len(KEPT_BYTES),
            _ => {
                thread::sleep(&self.rt, Duration::from_millis(TRIED_AGAIN_AFTER));
                Ok(())
            }
        }
    }

    /// Writes all bytes where the last were written. On a full disk it waits for room.
    fn put_all(&self, file: &mut R::File, bytes: &[u8]) -> io::Result<()> {
        let mut rest = bytes;
        for _ in 0..u64::MAX {
            rest = put_some(file, rest)?;
            if rest.is_empty() {
                break;
            }
            self.await_room()?;
        }
        self.room.set_short(false);
        Ok(())
    }

    /// Whether the open file is the one that has its name: it may have been renamed or removed, and what is written to it is lost then.
    fn has_its_name(&self) -> io::Result<bool> {
        let own = self.file.as_ref().ok_or(missing())?.metadata()?;
        let named = fs::metadata(&self.rt, self.path.as_str())?;
        Ok(own.dev() == named.dev() && own.ino() == named.ino())
    }
}

impl<R: Files + Clock> Disk for FolderFile<R> {
    ghost use Rattle.std.specs.Prelude.{None};

    ghost known = { λ _. None };

    ghost is_usable = { λ f. f.usable };

    fn may_be_used(&self) -> bool {
        self.usable
    }

    fn room(&self) -> Option<Arc<Room, Global>> {
        Arc::try_clone(&self.room).ok()
    }

    fn make_ready(&mut self) {
        let now = milliseconds(&self.rt);
        if self.spare.is_some() || now.saturating_sub(self.tried) < LOOKED_AGAIN_AFTER {
            return;
        }
        self.tried = now;
        self.spare = self.filled().ok();
        self.room.set_reserve(self.spare.is_some());
    }

    fn read(&mut self, alloc: Global) -> io::Result<Vec<u8>> {
        self.usable = false;
        let mut bytes = Vec::new(alloc);
        if let Some(file) = &mut self.file {
            file.seek(SeekFrom::Start(0))?;
            file.read_to_end(&mut bytes)?;
        }
        self.usable = true;
        Ok(bytes)
    }

    fn append(&mut self, bytes: &[u8]) -> io::Result<()> {
        self.usable = false;
        let mut file = self.file.take().ok_or(missing())?;
        self.room.grow(bytes.len() as u64);
        let put = match file.seek(SeekFrom::End(0)) {
            Ok(_) => self.put_all(&mut file, bytes),
            Err(error) => Err(error),
        };
        self.file = Some(file);
        put?;
        self.usable = true;
        Ok(())
    }

    fn sync(&mut self) -> io::Result<()> {
        self.usable = false;
        let now = milliseconds(&self.rt);
        if now.saturating_sub(self.looked) >= LOOKED_AGAIN_AFTER {
            self.looked = now;
            if !self.has_its_name()? {
                return Err(missing());
            }
        }
        self.file.as_mut().ok_or(missing())?.sync_data()?;
        self.usable = true;
        Ok(())
    }

    fn cut(&mut self, len: usize) -> io::Result<()> {
        self.usable = false;
        let file = self.file.as_mut().ok_or(missing())?;
        file.set_len(len as u64)?;
        file.sync_all()?;
        self.folder.sync_all()?;
        self.room.set_bytes(len as u64);
        self.usable = true;
        Ok(())
    }

    fn write_next(&mut self, bytes: &[u8]) -> io::Result<()> {
        self.usable = false;
        let mut next = match self.spare.take() {
            Some(spare) => spare,
            None => self.new_file()?,
        };
        next.seek(SeekFrom::Start(0))?;
        self.put_all(&mut next, bytes)?;
        let len = bytes.len() as u64;
        next.set_len(len)?;
        self.next = Some((next, len));
        self.usable = true;
        Ok(())
    }

    fn sync_next(&mut self) -> io::Result<()> {
        self.usable = false;
        let Some((next, _)) = &self.next else {
            return Err(missing());
        };
        next.sync_all()?;
        self.usable = true;
        Ok(())
    }

    fn rename(&mut self) -> io::Result<()> {
        self.usable = false;
        let (next, len) = self.next.take().ok_or(missing())?;
        fs::rename(&self.rt, self.next_path.as_str(), self.path.as_str())?;
        self.file = Some(next);
        self.room.set_bytes(len);
        self.usable = true;
        Ok(())
    }

    fn sync_folder(&mut self) -> io::Result<()> {
        self.usable = false;
        self.folder.sync_all()?;
        self.usable = true;
        Ok(())
    }
}
