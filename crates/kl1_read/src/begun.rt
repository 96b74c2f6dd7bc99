// The front of a primary.

ghost use Rattle.std.specs.Prelude.{◌≡◌, ◌≤◌, ◌∷◌, suc, map, length, true, pos, neg_ℤ, IfOk};
ghost use Rattle.kl1_model.specs.declared.sign.Sign.TheVariants.{OpenList};
ghost use Rattle.kl1_model.specs.Token.{name_token, digits_token, minus_token, sign_token};
ghost use Rattle.kl1_model.specs.declared.limits.TheConstants.{NUMBER_LIMIT};
ghost use Rattle.kl1_read.specs.Views.{numbered_token};
ghost use Rattle.kl1_read.specs.Beginnings.{Begins, BegunLess, leaf_term};

use crate::mark::{Mark, behind_mark};
use crate::numbered::Numbered;
use crate::opened::Opened;
use crate::piece::Piece;
use crate::small_node::SmallNode;
use crate::spelling::Spelling;
use kl1_model::Sign;
use kl1_model::limits::NUMBER_LIMIT;
use kl1_text::AtomText;
use std::alloc::{AllocError, Global};

/// A primary of one node.
pub(crate) enum Leaf<'a> {
    /// A variable by its number.
    Variable(u64),
    Integer(i64),
    /// An atom by its name.
    Atom(&'a Spelling),
    /// The empty list.
    Nil,
}

/// What stands at the front of a primary.
pub(crate) enum Begun<'a> {
    /// No primary, or none that a text can write.
    Bad,
    /// A whole primary, with what is after it.
    Whole(Leaf<'a>, &'a [Numbered]),
    /// A bracket that opens, with what is in it and after it.
    Opens(Opened<'a>, &'a [Numbered]),
}

/// The term of a primary of one node.
pub(crate) fn leaf_of(alloc: Global, leaf: Leaf<'_>) -> Result<Piece, AllocError>
    ensures { IfOk result (λ piece. piece ≡ leaf_term leaf.entry) }
{
    match leaf {
        Leaf::Variable(number) => Piece::leaf(alloc, SmallNode::Variable(number)),
        Leaf::Integer(number) => Piece::leaf(alloc, SmallNode::Integer(number)),
        Leaf::Atom(text) => Piece::atom(alloc, text.name()),
        Leaf::Nil => Piece::atom(alloc, AtomText::of(b"[]")),
    }
}

/// The front of a primary.
pub(crate) fn begin<'a>(alloc: Global, tokens: &'a [Numbered]) -> Begun<'a>
    ensures value { Begins result (map numbered_token tokens.now) }
    ensures less { BegunLess (length tokens.now) result }
{
    match tokens {
        [] => Begun::Bad,
        [first, rest @ ..] => begin_with(alloc, first, rest),
    }
}

/// The front of a primary that begins with this token.
#[tactic(auto, unfolding(crate::specs::Meanings::primary_read))]
fn begin_with<'a>(alloc: Global, first: &'a Numbered, rest: &'a [Numbered]) -> Begun<'a>
    ensures value { Begins result (numbered_token first.now ∷ map numbered_token rest.now) }
    ensures less { BegunLess (suc (length rest.now)) result }
{
    match first {
        Numbered::Name(quotes, applied, text) => {
            if *applied {
                call(alloc, text, *quotes, rest)
            } else {
                Begun::Whole(Leaf::Atom(text), rest)
            }
        }
        Numbered::Variable(number) => Begun::Whole(Leaf::Variable(*number), rest),
        Numbered::Digits(number) => positive(*number, rest),
        Numbered::Minus(digit) => { if *digit { negative(rest) } else { Begun::Bad } }
        Numbered::Sign(sign) => open(alloc, *sign, rest),
        Numbered::End => Begun::Bad,
    }
}

/// A name and the bracket that opens its arguments.
fn call<'a>(alloc: Global, text: &'a Spelling, _quotes: bool, rest: &'a [Numbered]) -> Begun<'a>
    ensures value { Begins result (name_token text.now _quotes true ∷ map numbered_token rest.now) }
    ensures less { BegunLess (length rest.now) result }
{
    match behind_mark(Mark::Open, rest) {
        None => Begun::Bad,
        Some(inside) => Begun::Opens(Opened::Arguments(text, Vec::new(alloc)), inside),
    }
}

/// An integer without a sign.
fn positive(number: u64, rest: &[Numbered]) -> Begun<'_>
    ensures value { Begins result (digits_token number ∷ map numbered_token rest.now) }
    ensures less { BegunLess (suc (length rest.now)) result }
{
    if number >= NUMBER_LIMIT {
        return Begun::Bad;
    }
    Begun::Whole(Leaf::Integer(number as i64), rest)
}

/// An integer after its `-`.
#[tactic(auto, unfolding(crate::specs::Meanings::primary_read))]
fn negative(tokens: &[Numbered]) -> Begun<'_>
    ensures value { Begins result (minus_token true ∷ map numbered_token tokens.now) }
    ensures less { BegunLess (suc (length tokens.now)) result }
{
    match tokens {
        [] => Begun::Bad,
        [first, rest @ ..] => negative_with(first, rest),
    }
}

/// An integer after its `-`, by the token there.
#[tactic(auto, unfolding(crate::specs::Meanings::primary_read))]
fn negative_with<'a>(first: &Numbered, rest: &'a [Numbered]) -> Begun<'a>
    ensures value { Begins result (minus_token true ∷ numbered_token first.now ∷ map numbered_token rest.now) }
    ensures less { BegunLess (suc (length rest.now)) result }
{
    match first {
        Numbered::Name(_quotes, _applied, _text) => Begun::Bad,
        Numbered::Variable(_number) => Begun::Bad,
        Numbered::Digits(number) => below_zero(*number, rest),
        Numbered::Minus(_digit) => Begun::Bad,
        Numbered::Sign(_sign) => Begun::Bad,
        Numbered::End => Begun::Bad,
    }
}

/// An integer after its `-`, by its digits.
fn below_zero(number: u64, rest: &[Numbered]) -> Begun<'_>
    ensures value { Begins result (minus_token true ∷ digits_token number ∷ map numbered_token rest.now) }
    ensures less { BegunLess (suc (length rest.now)) result }
{
    if number > NUMBER_LIMIT {
        return Begun::Bad;
    }
    Begun::Whole(Leaf::Integer(negated(number)), rest)
}

/// The negative of `number`.
fn negated(number: u64) -> i64
    requires { number ≤ NUMBER_LIMIT }
    ensures { result ≡ neg_ℤ (pos number) }
{
    if number == NUMBER_LIMIT {
        i64::MIN
    } else {
        -(number as i64)
    }
}

/// A bracket that opens, or another sign, with which no primary begins.
fn open<'a>(alloc: Global, sign: Sign, rest: &'a [Numbered]) -> Begun<'a>
    ensures value { Begins result (sign_token sign ∷ map numbered_token rest.now) }
    ensures less { BegunLess (suc (length rest.now)) result }
{
    match sign {
        Sign::Open => Begun::Opens(Opened::Group, rest),
        Sign::OpenList => list(alloc, rest),
        _ => Begun::Bad,
    }
}

/// A list after the bracket that opens it.
fn list<'a>(alloc: Global, rest: &'a [Numbered]) -> Begun<'a>
    ensures value { Begins result (sign_token OpenList ∷ map numbered_token rest.now) }
    ensures less { BegunLess (suc (length rest.now)) result }
{
    match behind_mark(Mark::CloseList, rest) {
        None => Begun::Opens(Opened::Elements(Vec::new(alloc)), rest),
        Some(behind) => Begun::Whole(Leaf::Nil, behind),
    }
}
