// The names that an account uses, with their numbers.

ghost use Rattle.std.specs.Prelude.{◌≡◌, ℕ, ◌+◌, ◌≤◌, ◌<◌, List, [], map, length, nat_lt, option_map, OnOk, vec_capacity};
ghost use Rattle.kl1_text.specs.declared.cell_name.CellName.{CellName};
ghost use Rattle.kl1_atoms.specs.Names.{number_by, added};
ghost use Rattle.kl1_clause.specs.NameList.{with_texts, IsNameList};
ghost use Rattle.kl1_user_effects.specs.Account.{texts_of};
ghost use Rattle.kl1_user_effects.specs.Fitting.{Reading, Fits};
ghost use Rattle.kl1_user_effects.specs.Calling.{keeps_names};
ghost use Rattle.kl1_user_effects.specs.Naming.{AreSmall, AreNumbersOf, Keeps};

use indexmap::IndexMap;
use kl1_atoms::AtomSource;
use kl1_text::{AtomNo, AtomText, CellName, NameValue};
use std::alloc::{AllocError, Global};
use std::marker::Model;

/// The names that an account uses besides the built-in ones, in order of first use, each with its number in the table of names.
#[derive(Drop)]
pub struct AccountNames {
    numbers: IndexMap<AtomText, AtomNo>,
}

impl Model for AccountNames {
    ghost use Rattle.kl1_user_effects.specs.Naming.{NameShelf};

    ghost Value = { NameShelf };

    ghost use Rattle.std.specs.Prelude.{map};
    ghost use Rattle.indexmap.specs.IndexMap.{spare};
    ghost use Rattle.kl1_user_effects.specs.Shelving.{known_of, AreKnown};

    ghost view = { λ n. record { names = map known_of n.numbers.entries; room = spare n.numbers } };

    ghost invariant = { λ n. AreKnown n.numbers.entries };
}

impl AccountNames {
    /// No names.
    pub fn new(alloc: Global) -> Self
        ensures { result.names ≡ [] }
    {
        AccountNames {
            numbers: IndexMap::new(alloc),
        }
    }

    /// Their texts, in order of first use.
    pub fn texts(&self) -> &[AtomText]
        ensures { result.now ≡ texts_of self.now.names }
    {
        self.numbers.keys().as_slice()
    }

    /// How many there are.
    pub fn len(&self) -> usize
        ensures { result ≡ length self.now.names }
    {
        self.numbers.len()
    }

    /// The number of a name that is used or built in.
    pub fn number_of(&self, text: &AtomText) -> Option<CellName>
        ensures { option_map (λ c. c.number) result ≡ number_by self.now.names text.now }
    {
        match text.built_in() {
            Some(built_in) => Some(CellName::of(built_in)),
            None => match self.numbers.get(text) {
                Some(number) => Some(CellName::of_number(*number)),
                None => None,
            },
        }
    }

    /// Makes room for `more` names more. If memory is refused, the names are as before.
    pub fn reserve(&mut self, more: usize) -> Result<(), AllocError>
        ensures ok { OnOk result (more ≤ self.new.room) }
        ensures names { self.new.names ≡ self.old.names }
        ensures room { self.old.room ≤ self.new.room }
    {
        self.numbers.reserve(more)
    }

    /// Takes in a name with its number, if it is new and there is room.
    pub fn learn(&mut self, text: AtomText, number: AtomNo)
        requires { 0 < self.old.room }
        ensures names { self.new.names ≡ added self.old.names text number }
        ensures room { self.old.room ≤ self.new.room + 1 }
    {
        if self.number_of(&text).is_some() {
            return;
        }
        match self.numbers.insert(text, number) {
            Ok(_) => {}
            Err(_) => unreachable!(),
        }
    }

    /// Whether there would be more than `most` with these.
    pub fn are_too_many(&self, texts: &[AtomText], most: usize) -> bool
        requires { IsNameList texts.now }
        ensures { result ≡ nat_lt most (length (with_texts (texts_of self.now.names) texts.now)) }
    {
        match self.len().checked_add(self.count_new(texts)) {
            None => true,
            Some(count) => most < count,
        }
    }

    /// How many of these names are new.
    pub fn count_new(&self, texts: &[AtomText]) -> usize
        requires { IsNameList texts.now }
        ensures { length (with_texts (texts_of self.now.names) texts.now) ≡ length self.now.names + result }
    {
        let mut count = 0;
        for text in texts {
            if self.number_of(text).is_none() {
                count += 1;
            }
        }
        count
    }
}

/// Whether an account with these names, which may use `most`, may use a text as a name: one that is used or built in is no name more.
pub fn has_room(names: &AccountNames, text: &AtomText, most: usize) -> bool
    ensures { result ≡ keeps_names most names.now.names text.now }
{
    match names.number_of(text) {
        Some(_) => names.len() <= most,
        None => names.len() < most,
    }
}

/// Looks up each name in the table of names, and puts its number into an empty row and into the names of the account. It takes
/// no memory.
pub fn publish<A: AtomSource>(
    names: &mut A,
    seat: &mut A::Seat,
    known: &mut AccountNames,
    texts: &[AtomText],
    row: &mut Vec<CellName>,
)
    requires of { A.is_of names.old seat.old }
    requires knows { A.knows seat.old ≡ known.old.names }
    requires few { length (with_texts (texts_of known.old.names) texts.now) ≤ (A.place seat.old).0.1 }
    requires list { IsNameList texts.now }
    requires small { AreSmall known.old.names }
    requires room { length texts.now ≤ known.old.room }
    requires empty { row.old.items ≡ [] }
    requires row_room { length texts.now ≤ vec_capacity row.old }
    ensures keeps { Keeps A.is_of A.place A.knows A.published names.old names.new seat.old seat.new }
    ensures knows { A.knows seat.new ≡ known.new.names }
    ensures texts { texts_of known.new.names ≡ with_texts (texts_of known.old.names) texts.now }
    ensures row { AreNumbersOf known.new.names texts.now row.new.items }
    ensures count { length row.new.items ≡ length texts.now }
    ensures small { AreSmall known.new.names }
    ensures fits { (f : Reading) → Fits known.new.names f → Fits known.old.names f }
{
    for text in texts {
        let number = names.intern(seat, *text);
        known.learn(*text, number);
        row.push_reserved(CellName::of_number(number));
    }
}
