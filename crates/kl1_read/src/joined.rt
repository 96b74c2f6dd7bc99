// A primary with what stands to its left.

ghost use Rattle.std.specs.Prelude.{◌≡◌, None, map, length, IfOk};
ghost use Rattle.kl1_read.specs.Views.{numbered_token};
ghost use Rattle.kl1_read.specs.Pieces.{writable};
ghost use Rattle.kl1_read.specs.Joins.{Joins, LeavesNone, JoinedLess, joined_then};
ghost use Rattle.kl1_read.specs.Meanings.{Going, Dooms, fit, joined, after_sum, after_product, after_part};

use crate::infix::{Level, infix_in_front};
use crate::left::Left;
use crate::mark::{Mark, behind_mark};
use crate::numbered::Numbered;
use crate::piece::Piece;
use kl1_model::BuiltIn;
use kl1_text::AtomText;
use std::alloc::AllocError;

/// A primary that was read, joined with what stands to its left in its expression.
#[derive(Drop)]
pub(crate) enum Joined<'a> {
    /// No text can write the expression.
    Bad,
    /// Another primary follows.
    More(&'a [Numbered]),
    /// The expression is whole.
    Whole(Piece, &'a [Numbered]),
}

/// Joins a primary with what stands to its left.
pub(crate) fn join<'a>(
    left: &mut Left,
    piece: Piece,
    tokens: &'a [Numbered],
) -> Result<Joined<'a>, AllocError>
    ensures value { IfOk result (Joins left.old piece (map numbered_token tokens.now) left.new) }
    ensures none { IfOk result (LeavesNone left.new) }
    ensures less { IfOk result (JoinedLess (length tokens.now)) }
{
    match left.colon.take() {
        Some(module) => match Piece::pair(AtomText::of(b":"), module, piece)? {
            None => Ok(Joined::Bad),
            Some(part) => join_part(left, part, tokens),
        },
        None => match behind_mark(Mark::Colon, tokens) {
            None => join_part(left, piece, tokens),
            Some(behind) => {
                left.colon = Some(piece);
                Ok(Joined::More(behind))
            }
        },
    }
}

/// Joins a part with what stands to its left in its product.
fn join_part<'a>(
    left: &mut Left,
    part: Piece,
    tokens: &'a [Numbered],
) -> Result<Joined<'a>, AllocError>
    requires { left.old.colon ≡ None }
    ensures value { IfOk result (λ j. (k : Going) → Dooms k → fit (joined_then left.new j k) ≡ fit (after_part left.old.relation left.old.sum left.old.product k part (map numbered_token tokens.now))) }
    ensures none { IfOk result (LeavesNone left.new) }
    ensures less { IfOk result (JoinedLess (length tokens.now)) }
{
    match join_operand(left.product.take(), part)? {
        None => Ok(Joined::Bad),
        Some(whole) => match infix_in_front(Level::Products, tokens) {
            None => join_product(left, whole, tokens),
            Some((operator, behind)) => {
                left.product = Some((operator, whole));
                Ok(Joined::More(behind))
            }
        },
    }
}

/// Joins a product with what stands to its left in its sum.
fn join_product<'a>(
    left: &mut Left,
    product: Piece,
    tokens: &'a [Numbered],
) -> Result<Joined<'a>, AllocError>
    requires product { left.old.product ≡ None }
    requires colon { left.old.colon ≡ None }
    ensures value { IfOk result (λ j. (k : Going) → Dooms k → fit (joined_then left.new j k) ≡ fit (after_product left.old.relation left.old.sum k product (map numbered_token tokens.now))) }
    ensures none { IfOk result (LeavesNone left.new) }
    ensures less { IfOk result (JoinedLess (length tokens.now)) }
{
    match join_operand(left.sum.take(), product)? {
        None => Ok(Joined::Bad),
        Some(whole) => match infix_in_front(Level::Sums, tokens) {
            None => join_sum(left, whole, tokens),
            Some((operator, behind)) => {
                left.sum = Some((operator, whole));
                Ok(Joined::More(behind))
            }
        },
    }
}

/// Joins a sum with what stands to the left of a relation.
fn join_sum<'a>(
    left: &mut Left,
    sum: Piece,
    tokens: &'a [Numbered],
) -> Result<Joined<'a>, AllocError>
    requires sum { left.old.sum ≡ None }
    requires product { left.old.product ≡ None }
    requires colon { left.old.colon ≡ None }
    ensures value { IfOk result (λ j. (k : Going) → Dooms k → fit (joined_then left.new j k) ≡ fit (after_sum left.old.relation k sum (map numbered_token tokens.now))) }
    ensures none { IfOk result (LeavesNone left.new) }
    ensures less { IfOk result (JoinedLess (length tokens.now)) }
{
    match left.relation.take() {
        Some((name, first)) => match Piece::pair(AtomText::of_built_in(name), first, sum)? {
            None => Ok(Joined::Bad),
            Some(whole) => Ok(Joined::Whole(whole, tokens)),
        },
        None => match infix_in_front(Level::Relations, tokens) {
            None => Ok(Joined::Whole(sum, tokens)),
            Some((name, behind)) => {
                left.relation = Some((name, sum));
                Ok(Joined::More(behind))
            }
        },
    }
}

/// Joins an operand with what stands to its left, if a text can write that.
fn join_operand(left: Option<(BuiltIn, Piece)>, operand: Piece) -> Result<Option<Piece>, AllocError>
    ensures { IfOk result (λ whole. whole ≡ writable (joined left operand)) }
{
    match left {
        None => {
            // Only for the proof: a text can write it.
            operand.is_written();
            Ok(Some(operand))
        }
        Some((name, first)) => Piece::pair(AtomText::of_built_in(name), first, operand),
    }
}
