// What code that looks names up asks of the table.

ghost use Rattle.std.specs.Prelude.{◌≡◌, ◌≢◌, ℕ, List, Some, IsSome};
ghost use Rattle.kl1_atoms.specs.declared.known.Known.{Known};
ghost use Rattle.kl1_atoms.specs.Names.{text_by, HasRoom, Adds, AreNames, PublishesWithin};

use kl1_text::{AtomNo, AtomText};

/// A table of names, and what each account knows of it.
pub trait AtomSource {
    /// What one account knows of the table: the built-in names, and those that it looked up.
    type Seat: Drop;

    /// Whether a seat is of this table.
    ghost is_of: { Self → Self.Seat → Type 0 };

    /// Which table a seat is of and how many names it may know besides the built-in ones, and which account's it is.
    ghost place: { Self.Seat → (ℕ × ℕ) × ℕ };

    /// The names that a seat knows, in the order of their first use.
    ghost knows: { Self.Seat → List Known };

    /// How many names a seat has put into the table.
    ghost published: { Self.Seat → ℕ };

    /// The number of a name, which the seat knows from then on.
    fn intern(&mut self, seat: &mut Self::Seat, text: AtomText) -> AtomNo
        requires of { is_of self.old seat.old }
        requires room { HasRoom (place seat.old).0.1 (knows seat.old) text }
        ensures of { is_of self.new seat.new }
        ensures place { place seat.new ≡ place seat.old }
        ensures others { (other : Self.Seat) → is_of self.old other → place other ≢ place seat.old → is_of self.new other }
        ensures adds { Adds (knows seat.old) text result (knows seat.new) }
        ensures publishes { PublishesWithin (published seat.old) (published seat.new) (knows seat.old) (knows seat.new) };

    /// The name with number `number`, which the seat knows.
    fn text_of(&mut self, seat: &mut Self::Seat, number: AtomNo) -> AtomText
        requires of { is_of self.old seat.old }
        requires known { IsSome (text_by (knows seat.old) number.number) }
        ensures of { is_of self.new seat.new }
        ensures place { place seat.new ≡ place seat.old }
        ensures others { (other : Self.Seat) → is_of self.old other → place other ≢ place seat.old → is_of self.new other }
        ensures same { knows seat.new ≡ knows seat.old }
        ensures publishes { published seat.new ≡ published seat.old }
        ensures text { text_by (knows seat.old) number.number ≡ Some result };

    /// What a seat knows is one to one.
    ghost one_to_one: { (table : Self) (seat : Self.Seat) → is_of table seat → AreNames (knows seat) };
}
