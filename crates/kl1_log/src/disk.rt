// A journal's file as the log sees it.

ghost use Rattle.std.specs.Prelude.{◌≡◌, ◌≤◌, Bool, is_ok, length, None, IfOk, OnOk, OnErr, IsTrue};
ghost use Rattle.kl1_log.specs.Files.{Known, IfKnown, content, HasNext, Does, MayDo, Cuts, Appended, AppendedInPart, Synced, NextWritten, NextTouched, NextSynced, Renamed, FolderSynced, Loosened};

use crate::room::Room;
use std::alloc::Global;
use std::io;
use std::sync::Arc;

/// A file by its name, and a new file beside it that may take its name. After a call that failed nothing more may be asked of it: what a
/// sync that failed has left on the disk isn't known, and no later sync tells it.
pub trait Disk {
    /// What is known of the file.
    ghost known: { Self → Known };

    /// Whether no call has failed.
    ghost is_usable: { Self → Bool };

    /// Whether no call has failed.
    fn may_be_used(&self) -> bool
        ensures { result ≡ is_usable self.now };

    /// How it stands with the room for it; `None` if that is never short.
    fn room(&self) -> Option<Arc<Room, Global>> {
        None
    }

    /// Sees that there is room for a new file beside it, if there is any; it writes nothing that counts.
    fn make_ready(&mut self)
        ensures known { known self.new ≡ known self.old }
        ensures usable { is_usable self.new ≡ is_usable self.old }
    {}

    /// All the bytes.
    fn read(&mut self, alloc: Global) -> io::Result<Vec<u8>>
        requires { IsTrue (is_usable self.old) }
        ensures bytes { IfOk result (λ bytes. IfKnown (known self.old) (λ s. bytes.items ≡ content s.now)) }
        ensures known { known self.new ≡ known self.old }
        ensures usable { is_usable self.new ≡ is_ok result };

    /// Writes bytes after the others. Until a sync, a crash may leave any front of them.
    fn append(&mut self, bytes: &[u8]) -> io::Result<()>
        requires { IsTrue (is_usable self.old) }
        ensures ok { OnOk result (Does (Appended bytes.now) (known self.old) (known self.new)) }
        ensures err { OnErr result (MayDo (AppendedInPart bytes.now) (known self.old) (known self.new)) }
        ensures usable { is_usable self.new ≡ is_ok result };

    /// After it all bytes are on the disk.
    fn sync(&mut self) -> io::Result<()>
        requires { IsTrue (is_usable self.old) }
        ensures ok { OnOk result (Does Synced (known self.old) (known self.new)) }
        ensures err { OnErr result (known self.new ≡ known self.old) }
        ensures usable { is_usable self.new ≡ is_ok result };

    /// Cuts the file to its first `len` bytes, and syncs it.
    fn cut(&mut self, len: usize) -> io::Result<()>
        requires usable { IsTrue (is_usable self.old) }
        requires within { IfKnown (known self.old) (λ s. len ≤ length (content s.now)) }
        ensures ok { OnOk result (Cuts len (known self.old) (known self.new)) }
        ensures err { OnErr result (MayDo (Loosened len) (known self.old) (known self.new)) }
        ensures usable { is_usable self.new ≡ is_ok result };

    /// Writes a new file beside the file, in place of one that may be there.
    fn write_next(&mut self, bytes: &[u8]) -> io::Result<()>
        requires { IsTrue (is_usable self.old) }
        ensures ok { OnOk result (Does (NextWritten bytes.now) (known self.old) (known self.new)) }
        ensures err { OnErr result (MayDo NextTouched (known self.old) (known self.new)) }
        ensures usable { is_usable self.new ≡ is_ok result };

    /// After it all bytes of the new file are on the disk.
    fn sync_next(&mut self) -> io::Result<()>
        requires usable { IsTrue (is_usable self.old) }
        requires next { IfKnown (known self.old) HasNext }
        ensures ok { OnOk result (Does NextSynced (known self.old) (known self.new)) }
        ensures err { OnErr result (known self.new ≡ known self.old) }
        ensures usable { is_usable self.new ≡ is_ok result };

    /// Gives the new file the name. Until the folder is synced, a crash may leave the file that had it.
    fn rename(&mut self) -> io::Result<()>
        requires usable { IsTrue (is_usable self.old) }
        requires next { IfKnown (known self.old) HasNext }
        requires before { IfKnown (known self.old) (λ s. s.before ≡ None) }
        ensures ok { OnOk result (Does Renamed (known self.old) (known self.new)) }
        ensures err { OnErr result (MayDo Renamed (known self.old) (known self.new)) }
        ensures usable { is_usable self.new ≡ is_ok result };

    /// After it the renaming is on the disk.
    fn sync_folder(&mut self) -> io::Result<()>
        requires { IsTrue (is_usable self.old) }
        ensures ok { OnOk result (Does FolderSynced (known self.old) (known self.new)) }
        ensures err { OnErr result (known self.new ≡ known self.old) }
        ensures usable { is_usable self.new ≡ is_ok result };
}
