// Terms that are looked at from the top.

ghost use Rattle.std.specs.Prelude.{◌≡◌, ◌==◌, ◌<◌, ℕ, List, Some, IsTrue};
ghost use Rattle.kl1_model.specs.Term.{Term, Terms};
ghost use Rattle.kl1_model.specs.laws.Clashes.{argument_at};
ghost use Rattle.kl1_match_guard.specs.Forms.{IsForm, IsFormIn};

use crate::form::Form;
use kl1_text::NameValue;

/// Terms that are looked at from the top, with names of some type.
pub trait View<N: NameValue> {
    /// Where a term stands.
    type At: Copy;

    /// An unbound variable.
    type Variable: Copy;

    /// A structure.
    type Structure: Copy;

    /// A term stands there.
    ghost IsAt: { Self → Self.At → Type 0 };

    /// The variable is unbound.
    ghost IsFree: { Self → Self.Variable → Type 0 };

    /// There is this structure.
    ghost IsThere: { Self → Self.Structure → Type 0 };

    /// What stands there is kept as a whole, and is compared with another such in another way.
    ghost IsShared: { Self → Self.At → Type 0 };

    /// The number of a variable.
    ghost number: { Self → Self.Variable → ℕ };

    /// How many arguments a structure has.
    ghost count: { Self → Self.Structure → ℕ };

    /// The arguments of a structure, names read by a reading.
    ghost arguments: { (N → List ℕ) → Self → Self.Structure → Terms };

    /// The term that stands somewhere, names read by a reading.
    ghost term: { (N → List ℕ) → Self → Self.At → Term };

    /// What a term is at the top.
    fn form_of(&self, at: Self::At) -> Form<N, Self::Variable, Self::Structure>
        requires { IsAt self.now at }
        ensures inside { IsFormIn (IsFree self.now) (IsThere self.now) (count self.now) result }
        ensures means { (f : N → List ℕ) → IsForm f (number self.now) (arguments f self.now) result (term f self.now at) };

    /// An argument of a structure, counted from 0.
    fn argument(&self, structure: Self::Structure, index: u32) -> Self::At
        requires structure { IsThere self.now structure }
        requires index { index < count self.now structure }
        ensures inside { IsAt self.now result }
        ensures means { (f : N → List ℕ) → argument_at (arguments f self.now structure) index ≡ Some (term f self.now result) };

    /// Whether what stands there is kept as a whole.
    fn is_shared(&self, at: Self::At) -> bool
        ensures { IsTrue result → IsShared self.now at };

    /// Whether two unbound variables are one.
    fn same_variable(&self, left: Self::Variable, right: Self::Variable) -> bool
        requires left { IsFree self.now left }
        requires right { IsFree self.now right }
        ensures { result ≡ (number self.now left == number self.now right) };
}
