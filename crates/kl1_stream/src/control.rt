// What stands at the front of a control stream.

ghost use Rattle.std.specs.Prelude.{◌≡◌, ℕ, List};
ghost use Rattle.kl1_model.specs.Term.{atom};
ghost use Rattle.kl1_model.specs.Control.{word_of, allow_word, control_of};
ghost use Rattle.kl1_text.specs.Reading.{Reads};
ghost use Rattle.kl1_store.specs.Held.{Held, IsIn};
ghost use Rattle.kl1_store.specs.Meaning.{term_of};
ghost use Rattle.kl1_stream.specs.Controls.{word_as, WordIn, control_as, ControlIn};

use crate::tops::{Top, is_built_in, top_of};
use kl1_model::{BuiltIn, Message};
use kl1_store::{Cell, Store};
use kl1_text::NameValue;

/// What stands at the front of a control stream: nothing as long as the variable of this number is unbound; a message and the rest;
/// any other element and the rest; the end; or a term that is no stream.
#[derive(Clone, Copy)]
pub enum Control<N> {
    Awaits(u32),
    Tells(Message, Cell<N>),
    TellsOther(Cell<N>, Cell<N>),
    Ends,
    BreaksOff(Cell<N>),
}

/// What an element of a control stream says: a message, any other thing, or nothing as long as the variable of this number is
/// unbound.
#[derive(Clone, Copy)]
pub(crate) enum Word {
    Says(Message),
    SaysOther,
    Unsaid(u32),
}

/// What an atom says.
fn atom_said<N: NameValue>(name: N) -> Word
    ensures inside { (h : Held N) → WordIn h result }
    ensures says { (f : N → List ℕ) → Reads N.built f → word_as result ≡ word_of (atom (f name)) }
{
    if is_built_in(name, BuiltIn::Stop) {
        return Word::Says(Message::Stop);
    }
    if is_built_in(name, BuiltIn::Start) {
        return Word::Says(Message::Start);
    }
    if is_built_in(name, BuiltIn::Abort) {
        return Word::Says(Message::Abort);
    }
    Word::SaysOther
}

/// What `allow` of a cell says.
fn allowed<N: NameValue>(store: &Store<N>, cell: Cell<N>) -> Word
    requires { IsIn store.now.held cell }
    ensures inside { WordIn store.now.held result }
    ensures says { (f : N → List ℕ) → word_as result ≡ allow_word (term_of f store.now.held cell) }
{
    match top_of(store, cell) {
        Top::Variable(variable) => Word::Unsaid(variable),
        Top::Integer(number) => {
            if number < 0 {
                return Word::SaysOther;
            }
            Word::Says(Message::Allow(number as u64))
        }
        Top::Atom(_name) => Word::SaysOther,
        Top::One(_name, _first) => Word::SaysOther,
        Top::Two(_name, _first, _second) => Word::SaysOther,
        Top::Other => Word::SaysOther,
    }
}

/// What an element of a control stream says.
fn read_word<N: NameValue>(store: &Store<N>, cell: Cell<N>) -> Word
    requires { IsIn store.now.held cell }
    ensures inside { WordIn store.now.held result }
    ensures says { (f : N → List ℕ) → Reads N.built f → word_as result ≡ word_of (term_of f store.now.held cell) }
{
    match top_of(store, cell) {
        Top::Variable(variable) => Word::Unsaid(variable),
        Top::Integer(_number) => Word::SaysOther,
        Top::Atom(name) => atom_said(name),
        Top::One(name, more) => {
            if is_built_in(name, BuiltIn::Allow) {
                return allowed(store, more);
            }
            Word::SaysOther
        }
        Top::Two(_name, _first, _second) => Word::SaysOther,
        Top::Other => Word::SaysOther,
    }
}

/// What stands at the front of a control stream.
pub fn read_control<N: NameValue>(store: &Store<N>, cell: Cell<N>) -> Control<N>
    requires { IsIn store.now.held cell }
    ensures inside { ControlIn store.now.held result }
    ensures reads { (f : N → List ℕ) → Reads N.built f → control_as f store.now.held result ≡ control_of (term_of f store.now.held cell) }
{
    match top_of(store, cell) {
        Top::Variable(variable) => Control::Awaits(variable),
        Top::Integer(_number) => Control::BreaksOff(cell),
        Top::Atom(name) => {
            if is_built_in(name, BuiltIn::EmptyList) {
                return Control::Ends;
            }
            Control::BreaksOff(cell)
        }
        Top::One(_name, _first) => Control::BreaksOff(cell),
        Top::Two(name, element, rest) => {
            if !is_built_in(name, BuiltIn::ListCell) {
                return Control::BreaksOff(cell);
            }
            match read_word(store, element) {
                Word::Says(message) => Control::Tells(message, rest),
                Word::SaysOther => Control::TellsOther(element, rest),
                Word::Unsaid(variable) => Control::Awaits(variable),
            }
        }
        Top::Other => Control::BreaksOff(cell),
    }
}
