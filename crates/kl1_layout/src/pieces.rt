// The pieces of a text.

ghost use Rattle.std.specs.declared.option.Option.{Option};
ghost use Rattle.std.specs.Prelude.{List, ◌≡◌, ◌+◌, ◌-◌, ◌^◌, ◌<◌, ◌≤◌, ◌==◌, ◌∷◌, ◌++◌, [], length, take, map, Some, IfOk, IfErr, OnOk};
ghost use Rattle.kl1_model.specs.Token.{first_is, is_blank};
ghost use Rattle.kl1_layout.specs.Written.{Written, written_of, without_last_blanks, with_comment};
ghost use Rattle.kl1_layout.specs.Layouts.{IsFaultOf};
ghost use Rattle.kl1_layout.specs.Pieces.{written_as, written_piece, with_before};

use crate::layout_fault::LayoutFault;
use crate::piece::{Kind, Piece};
use kl1_lines::split_line;
use kl1_read::{Front, front_of};
use std::alloc::{AllocError, Global};

/// Whether a byte is a space, a tab, a line feed or a carriage return.
fn is_blank(byte: u8) -> bool
    ensures { result ≡ is_blank byte }
{
    byte == b' ' || byte == b'\t' || byte == b'\n' || byte == b'\r'
}

/// Whether a comment is in front.
fn is_comment(text: &[u8]) -> bool
    ensures { result ≡ first_is (λ b. b == 37) text.now }
{
    match text {
        [] => false,
        [first, _rest @ ..] => *first == b'%',
    }
}

/// The bytes without the blanks at their end.
fn without_last_blanks(text: &[u8]) -> &[u8]
    ensures { result.now ≡ without_last_blanks text.now }
{
    let mut kept = text;
    while let [others @ .., last] = kept {
        if !is_blank(*last) {
            return kept;
        }
        kept = others;
    }
    kept
}

/// The bytes before `behind`, with which the text ends.
fn before<'a>(text: &'a [u8], behind: &[u8]) -> &'a [u8]
    requires { length behind.now ≤ length text.now }
    ensures { result.now ≡ take (length text.now - length behind.now) text.now }
{
    &text[..text.len() - behind.len()]
}

/// Puts a piece after the others, before which this number of line ends stands.
fn put_piece(
    alloc: Global,
    pieces: &mut Vec<Piece>,
    kind: Kind,
    bytes: &[u8],
    breaks: u8,
) -> Result<(), AllocError>
    ensures { OnOk result (map written_piece pieces.new.items ≡ map written_piece pieces.old.items ++ written_as kind bytes.now ∷ []) }
{
    let bytes = Vec::from_slice(alloc, bytes)?;
    let is_apart = breaks == 2;
    pieces.push(Piece {
        kind,
        bytes,
        is_apart,
    })?;
    Ok(())
}

/// Puts the comment in front of a text, if one is there and no other blank, after the pieces. Answers how many line ends stand
/// before the next piece.
fn put_blank(
    alloc: Global,
    pieces: &mut Vec<Piece>,
    text: &[u8],
    alone: bool,
    breaks: u8,
) -> Result<u8, AllocError>
    ensures { OnOk result ((ws : Option (List Written)) → with_before (map written_piece pieces.new.items) ws ≡ with_before (map written_piece pieces.old.items) (with_comment alone text.now ws)) }
{
    if !is_comment(text) {
        return Ok(breaks);
    }
    let (line, _others) = split_line(text);
    let kind = Kind::Comment(alone);
    put_piece(alloc, pieces, kind, without_last_blanks(line), breaks)?;
    Ok(0)
}

/// The pieces of a text, or the line of its first byte that is no token.
pub(crate) fn pieces_of(alloc: Global, text: &[u8]) -> Result<Vec<Piece>, LayoutFault>
    requires { 1 + length text.now < 2 ^ 64 }
    ensures pieces { IfOk result (λ pieces. written_of text.now ≡ Some (map written_piece pieces.items)) }
    ensures fault { IfErr result (IsFaultOf text.now) }
{
    let mut line = 1;
    let mut rest = text;
    let mut alone = true;
    let mut breaks = 0;
    let mut pieces = Vec::new(alloc);
    'pieces: loop {
        match front_of(rest) {
            Front::Finished => return Ok(pieces),
            Front::Broken => return Err(LayoutFault::Broken { line }),
            Front::LineEnd(behind) => {
                line += 1;
                alone = true;
                breaks = more_breaks(breaks);
                rest = behind;
            }
            Front::Blank(behind) => {
                breaks = put_blank(alloc, &mut pieces, rest, alone, breaks)?;
                rest = behind;
            }
            Front::Token(token, behind) => {
                let bytes = before(rest, behind);
                put_piece(alloc, &mut pieces, Kind::Token(token), bytes, breaks)?;
                alone = false;
                breaks = 0;
                rest = behind;
            }
        }
    }
}

/// The number of line ends after one more, of which two are told.
fn more_breaks(breaks: u8) -> u8
    ensures { result ≤ 2 }
{
    if breaks == 0 { 1 } else { 2 }
}
