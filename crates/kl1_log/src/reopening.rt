// A file that a crash may have left.

ghost use Rattle.std.specs.Prelude.{◌≡◌, length, take, None, IfOk, OnOk, IsTrue, false, is_ok, option_map};
ghost use Rattle.kl1_log.specs.Files.{IfKnown, content, AtAnyMoment, is_at_rest};
ghost use Rattle.kl1_log.specs.Batches.{text_of, IsLeftOfCut};
ghost use Rattle.kl1_log.specs.Cuts.{whole_text, is_whole, IsFound};

use crate::disk::Disk;
use crate::recovery::{Found, recover};
use std::alloc::Global;
use std::io;

/// Cuts a file that holds a text to its whole lines, of which there are `len` bytes, and has them on disk.
#[tactic(auto, using(crate::proofs::Restoring::cut_within, crate::proofs::Restoring::cut_failed, crate::proofs::Restoring::cut_moments, crate::proofs::Restoring::cut_rests))]
fn cut_whole<D: Disk>(disk: &mut D, text: &[u8], len: usize) -> io::Result<()>
    requires usable { IsTrue (D.is_usable disk.old) }
    requires before { IfKnown (D.known disk.old) (λ s. s.before ≡ None) }
    requires text { IfKnown (D.known disk.old) (λ s. text.now ≡ content s.now) }
    requires count { len ≡ length (whole_text text.now) }
    requires front { take len text.now ≡ whole_text text.now }
    ensures whole { OnOk result (IsTrue (is_at_rest (D.known disk.new)) × (text_of (D.known disk.new) ≡ option_map whole_text (text_of (D.known disk.old)))) }
    ensures any_moment { AtAnyMoment (D.known disk.old) (D.known disk.new) (IsLeftOfCut (D.known disk.old)) }
    ensures usable { D.is_usable disk.new ≡ is_ok result }
{
    let _text = text;
    disk.cut(len)?;
    Ok(())
}

/// Reads a file that a crash may have left. If its whole lines are a journal, it is cut to them, and they are on disk; otherwise nothing is
/// changed.
#[tactic(auto, using(crate::proofs::Restoring::stayed, crate::proofs::Restoring::cut_from))]
pub fn restore<D: Disk>(alloc: Global, disk: &mut D) -> io::Result<Found>
    requires usable { IsTrue (D.is_usable disk.old) }
    requires before { IfKnown (D.known disk.old) (λ s. s.before ≡ None) }
    ensures found { IfOk result (λ found. IfKnown (D.known disk.old) (λ s. IsFound (content s.now) found)) }
    ensures whole { IfOk result (λ found. IsTrue (is_whole found) → IsTrue (is_at_rest (D.known disk.new)) × (text_of (D.known disk.new) ≡ option_map whole_text (text_of (D.known disk.old)))) }
    ensures other { IfOk result (λ found. is_whole found ≡ false → D.known disk.new ≡ D.known disk.old) }
    ensures any_moment { AtAnyMoment (D.known disk.old) (D.known disk.new) (IsLeftOfCut (D.known disk.old)) }
    ensures usable { OnOk result (IsTrue (D.is_usable disk.new)) }
{
    let bytes = disk.read(alloc)?;
    match recover(alloc, &bytes)? {
        Found::Whole {
            journal,
            bytes: len,
        } => {
            cut_whole(disk, &bytes, len)?;
            Ok(Found::Whole {
                journal,
                bytes: len,
            })
        }
        Found::Fault { line, before } => Ok(Found::Fault { line, before }),
        Found::Unopened => Ok(Found::Unopened),
    }
}
