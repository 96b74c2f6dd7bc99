// What waits for an expression.

ghost use Rattle.std.specs.Prelude.{◌≡◌, IfOk, OnOk};
ghost use Rattle.kl1_read.specs.Waits.{no_left, opened_of, left_of};

use crate::left::Left;
use crate::opened::Opened;
use std::alloc::{AllocError, Global};
use std::mem;

/// What was opened, with what stands to its left. Most brackets have nothing there.
#[derive(Drop)]
pub(crate) enum Frame<'a> {
    /// An expression in parentheses with nothing to its left.
    Group,
    /// What was opened with nothing to its left.
    First(Box<Opened<'a>>),
    /// What was opened after something.
    Behind(Box<Waiting<'a>>),
}

/// What was opened, with what stands to its left.
#[derive(Drop)]
pub(crate) struct Waiting<'a> {
    pub(crate) opened: Opened<'a>,
    pub(crate) left: Left,
}

/// What was opened, with what stands to its left, as a frame; nothing stands to the left in it.
pub(crate) fn frame_of<'a>(
    alloc: Global,
    opened: Opened<'a>,
    left: &mut Left,
) -> Result<Frame<'a>, AllocError>
    ensures opened { IfOk result (λ frame. opened_of frame ≡ opened.entry) }
    ensures left { IfOk result (λ frame. left_of frame ≡ left.old) }
    ensures none { OnOk result (left.new ≡ no_left) }
{
    if left.is_empty() {
        return match opened {
            Opened::Group => Ok(Frame::Group),
            other => {
                let boxed = Box::new(alloc, other)?;
                Ok(Frame::First(boxed))
            }
        };
    }
    let left = mem::replace(left, Left::none());
    let waiting = Box::new(alloc, Waiting { opened, left })?;
    Ok(Frame::Behind(waiting))
}

/// What was opened in a frame; what stands to its left is put back.
pub(crate) fn opened_of<'a>(frame: Frame<'a>, left: &mut Left) -> Opened<'a>
    requires { left.old ≡ no_left }
    ensures opened { result ≡ opened_of frame.entry }
    ensures left { left.new ≡ left_of frame.entry }
{
    match frame {
        Frame::Group => Opened::Group,
        Frame::First(opened) => Box::into_inner(opened),
        Frame::Behind(waiting) => {
            let Waiting {
                opened,
                left: before,
            } = Box::into_inner(waiting);
            *left = before;
            opened
        }
    }
}
