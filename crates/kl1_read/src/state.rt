// Terms that are being read.

ghost use Rattle.std.specs.Prelude.{◌≡◌, List, [], map, reverse, length, IsTrue, IfOk, OnOk};
ghost use Rattle.std.specs.List.{list_all};
ghost use Rattle.kl1_model.specs.Term.{Term};
ghost use Rattle.kl1_model.specs.Meaning.{is_writable};
ghost use Rattle.kl1_read.specs.Views.{numbered_token};
ghost use Rattle.kl1_read.specs.Meanings.{fit, primary_then, after_primary, after_expression, after_opened, after_last, open_then};
ghost use Rattle.kl1_read.specs.Waits.{no_left};
ghost use Rattle.kl1_read.specs.States.{state_answer, step_answer, StepLess, GoesTo};

use crate::begun::{Begun, begin, leaf_of};
use crate::closed::{Closed, close};
use crate::frame::{Frame, frame_of, opened_of};
use crate::joined::{Joined, join};
use crate::left::Left;
use crate::mark::{Mark, behind_mark};
use crate::numbered::Numbered;
use crate::opened::Opened;
use crate::piece::Piece;
use std::alloc::{AllocError, Global};

/// Terms that are being read: the primary that was read last, if one was, and the tokens that are left. What was opened,
/// the last one last, the terms that are done, and what stands to the left in the expression stand apart.
#[derive(Drop)]
pub(crate) struct State<'a> {
    pub(crate) read: Option<Piece>,
    pub(crate) rest: &'a [Numbered],
}

/// What one step of reading gives.
#[derive(Drop)]
pub(crate) enum Step<'a> {
    /// No terms are there, or none that a text can write.
    Bad,
    /// More is to be read.
    On(State<'a>),
    /// All terms are read; this is after them.
    Finished(&'a [Numbered]),
}

/// One step of reading.
pub(crate) fn one_step<'a>(
    alloc: Global,
    frames: &mut Vec<Frame<'a>>,
    done: &mut Vec<Piece>,
    left: &mut Left,
    state: State<'a>,
) -> Result<Step<'a>, AllocError>
    requires { IsTrue (list_all is_writable done.old.items) }
    ensures fits { OnOk result (IsTrue (list_all is_writable done.new.items)) }
    ensures value { IfOk result (λ s. fit (step_answer frames.new.items done.new.items left.new s) ≡ fit (state_answer frames.old.items done.old.items left.old state.entry)) }
    ensures less { IfOk result (StepLess (length state.entry.rest.now)) }
{
    let State { read, rest } = state;
    match read {
        None => step_in(alloc, frames, left, rest),
        Some(piece) => step_behind(alloc, frames, done, left, piece, rest),
    }
}

/// A step where a primary is to be read.
fn step_in<'a>(
    alloc: Global,
    frames: &mut Vec<Frame<'a>>,
    left: &mut Left,
    rest: &'a [Numbered],
) -> Result<Step<'a>, AllocError>
    ensures value { IfOk result (λ s. (done : List Term) → fit (step_answer frames.new.items done left.new s) ≡ fit (primary_then left.old (after_expression (reverse frames.old.items) done) (map numbered_token rest.now))) }
    ensures less { IfOk result (StepLess (length rest.now)) }
{
    match begin(alloc, rest) {
        Begun::Bad => Ok(Step::Bad),
        Begun::Whole(leaf, behind) => {
            let piece = leaf_of(alloc, leaf)?;
            Ok(Step::On(State {
                read: Some(piece),
                rest: behind,
            }))
        }
        Begun::Opens(opened, inside) => step_into(alloc, frames, opened, left, inside),
    }
}

/// A step into what was opened.
fn step_into<'a>(
    alloc: Global,
    frames: &mut Vec<Frame<'a>>,
    opened: Opened<'a>,
    left: &mut Left,
    rest: &'a [Numbered],
) -> Result<Step<'a>, AllocError>
    ensures value { IfOk result (λ s. (done : List Term) → step_answer frames.new.items done left.new s ≡ open_then opened.entry (after_primary left.old (after_expression (reverse frames.old.items) done)) (map numbered_token rest.now)) }
    ensures less { IfOk result (GoesTo (length rest.now)) }
{
    let frame = frame_of(alloc, opened, left)?;
    frames.push(frame)?;
    Ok(Step::On(State { read: None, rest }))
}

/// A step after a primary.
fn step_behind<'a>(
    alloc: Global,
    frames: &mut Vec<Frame<'a>>,
    done: &mut Vec<Piece>,
    left: &mut Left,
    piece: Piece,
    rest: &'a [Numbered],
) -> Result<Step<'a>, AllocError>
    requires { IsTrue (list_all is_writable done.old.items) }
    ensures fits { OnOk result (IsTrue (list_all is_writable done.new.items)) }
    ensures value { IfOk result (λ s. fit (step_answer frames.new.items done.new.items left.new s) ≡ fit (after_primary left.old (after_expression (reverse frames.old.items) done.old.items) piece (map numbered_token rest.now))) }
    ensures less { IfOk result (StepLess (length rest.now)) }
{
    match join(left, piece, rest)? {
        Joined::Bad => Ok(Step::Bad),
        Joined::More(behind) => Ok(Step::On(State {
            read: None,
            rest: behind,
        })),
        Joined::Whole(whole, behind) => step_out(alloc, frames, done, left, whole, behind),
    }
}

/// A step after an expression.
fn step_out<'a>(
    alloc: Global,
    frames: &mut Vec<Frame<'a>>,
    done: &mut Vec<Piece>,
    left: &mut Left,
    piece: Piece,
    rest: &'a [Numbered],
) -> Result<Step<'a>, AllocError>
    requires done { IsTrue (list_all is_writable done.old.items) }
    requires left { left.old ≡ no_left }
    ensures fits { OnOk result (IsTrue (list_all is_writable done.new.items)) }
    ensures value { IfOk result (λ s. fit (step_answer frames.new.items done.new.items left.new s) ≡ fit (after_expression (reverse frames.old.items) done.old.items piece (map numbered_token rest.now))) }
    ensures less { IfOk result (StepLess (length rest.now)) }
{
    match frames.pop() {
        None => step_last(done, piece, rest),
        Some(frame) => {
            let opened = opened_of(frame, left);
            step_closed(alloc, frames, opened, left, piece, rest)
        }
    }
}

/// A step after an expression in what was opened.
fn step_closed<'a>(
    alloc: Global,
    frames: &mut Vec<Frame<'a>>,
    opened: Opened<'a>,
    left: &mut Left,
    piece: Piece,
    rest: &'a [Numbered],
) -> Result<Step<'a>, AllocError>
    ensures value { IfOk result (λ s. (done : List Term) → fit (step_answer frames.new.items done left.new s) ≡ fit (after_opened opened.entry (after_primary left.old (after_expression (reverse frames.old.items) done)) piece (map numbered_token rest.now))) }
    ensures less { IfOk result (StepLess (length rest.now)) }
{
    match close(alloc, opened, piece, rest)? {
        Closed::Bad => Ok(Step::Bad),
        Closed::More(opened, behind) => step_into(alloc, frames, opened, left, behind),
        Closed::Whole(whole, behind) => Ok(Step::On(State {
            read: Some(whole),
            rest: behind,
        })),
    }
}

/// A step after an expression if nothing is open.
#[tactic(auto, using(crate::proofs::Steps::done_grows))]
fn step_last<'a>(
    done: &mut Vec<Piece>,
    piece: Piece,
    rest: &'a [Numbered],
) -> Result<Step<'a>, AllocError>
    requires { IsTrue (list_all is_writable done.old.items) }
    ensures fits { OnOk result (IsTrue (list_all is_writable done.new.items)) }
    ensures value { IfOk result (λ s. fit (step_answer [] done.new.items no_left s) ≡ fit (after_last done.old.items piece (map numbered_token rest.now))) }
    ensures less { IfOk result (StepLess (length rest.now)) }
{
    // Only for the proof: a text can write it.
    piece.is_written();
    done.push(piece)?;
    match behind_mark(Mark::Comma, rest) {
        None => Ok(Step::Finished(rest)),
        Some(behind) => Ok(Step::On(State {
            read: None,
            rest: behind,
        })),
    }
}
