// The fronts of lists of codes.

ghost use Rattle.std.specs.Prelude.{◌≡◌, ℕ, List};
ghost use Rattle.kl1_text.specs.Reading.{Reads};
ghost use Rattle.kl1_store.specs.Held.{IsIn};
ghost use Rattle.kl1_store.specs.Meaning.{term_of};
ghost use Rattle.kl1_goals_moves.specs.Spellings.{code_by, front_by, HasFront, FrontIn};

use crate::look::whole_of;
use crate::naming::is_built_in;
use crate::shape::{Shape, shape_of};
use crate::top::top_of;
use kl1_model::BuiltIn;
use kl1_store::{Cell, Store};
use kl1_text::NameValue;

/// What an element of a list of codes is: the byte of a name, an unbound variable, or neither.
#[derive(Clone, Copy)]
pub(crate) enum Code {
    Byte(u8),
    Waits(u32),
    Wrong,
}

/// What stands at the front of a list of codes: its end, an unbound variable, a byte before the rest, or what spells no name.
#[derive(Clone, Copy)]
pub(crate) enum Front<N> {
    Ends,
    Waits(u32),
    Wrong,
    Code(u8, Cell<N>),
}

/// An element of a list of codes, by what stands at its top.
fn code_by<N: Copy>(top: Cell<N>) -> Code
    ensures { result ≡ code_by top }
{
    match top {
        Cell::Variable(variable) => Code::Waits(variable),
        Cell::Integer(integer) => match whole_of(integer) {
            Some(number) => {
                if number >= 32 && number <= 126 {
                    return Code::Byte(number as u8);
                }
                Code::Wrong
            }
            None => Code::Wrong,
        },
        Cell::Atom(_) => Code::Wrong,
        Cell::Structure(_) => Code::Wrong,
    }
}

/// An element in front of the rest of a list.
fn front_by<N: Copy>(code: Code, rest: Cell<N>) -> Front<N>
    ensures { result ≡ front_by code rest }
{
    match code {
        Code::Byte(byte) => Front::Code(byte, rest),
        Code::Waits(variable) => Front::Waits(variable),
        Code::Wrong => Front::Wrong,
    }
}

/// What stands at the front of a list of codes that may have `left` cells more. Each cell goes before its element.
pub(crate) fn front_of<N: NameValue>(store: &Store<N>, codes: Cell<N>, left: usize) -> Front<N>
    requires { IsIn store.now.held codes }
    ensures inside { FrontIn store.now.held left result }
    ensures front { (f : N → List ℕ) → Reads N.built f → HasFront f store.now.held left (term_of f store.now.held codes) result }
{
    match shape_of(store, codes) {
        Shape::Variable(variable) => Front::Waits(variable),
        Shape::Atom(name) => {
            if is_built_in(name, BuiltIn::EmptyList) {
                return Front::Ends;
            }
            Front::Wrong
        }
        Shape::Two(name, element, rest) => {
            if left == 0 {
                return Front::Wrong;
            }
            if !is_built_in(name, BuiltIn::ListCell) {
                return Front::Wrong;
            }
            front_by(code_by(top_of(store, element)), rest)
        }
        Shape::Other => Front::Wrong,
    }
}
