// What an account asks of the codes of modules.

ghost use Rattle.std.specs.Prelude.{◌≡◌, ◌↔◌, ℕ, IfOk, IfErr, IfSome};
ghost use Rattle.kl1_model.specs.Module.{Module, good, read_module};
ghost use Rattle.kl1_clause.specs.Modules.{IsFaultOf};

use kl1_clause::{Code, CodeFault};
use std::alloc::AllocError;

/// Where codes of modules are kept: a source that is put in stays, and its code stays as it is.
pub trait CodeSource {
    /// What finds a code again.
    type Ref: Drop;

    /// Whether a code stands at a place of this source, which no call changes.
    ghost has: { Self → ℕ × ℕ → Type 0 };

    /// Where the code stands that a reference finds.
    ghost place: { Self.Ref → ℕ × ℕ };

    /// The module whose code a reference finds.
    ghost meaning: { Self.Ref → Module };

    /// A reference to the code of a source, if it is found. A source that was put in need not be found.
    fn find(&self, source: &[u8]) -> Option<Self::Ref>
        ensures of { IfSome result (λ r. has self.now (place r)) }
        ensures source { IfSome result (λ r. (meaning r).source ≡ source.now) }
        ensures module { IfSome result (λ r. read_module source.now ≡ good (meaning r)) };

    /// Puts a code in, whether or not it is there, and gives a reference to it.
    fn push(&mut self, code: Code) -> Result<Self::Ref, AllocError>
        ensures of { IfOk result (λ r. has self.new (place r)) }
        ensures is { IfOk result (λ r. meaning r ≡ code) }
        ensures same { (p : ℕ × ℕ) → has self.old p ↔ has self.new p };

    /// A reference to the code of a source, which is compiled and put in if it isn't found.
    fn find_or_push(&mut self, source: &[u8]) -> Result<Self::Ref, CodeFault>
        ensures of { IfOk result (λ r. has self.new (place r)) }
        ensures source { IfOk result (λ r. (meaning r).source ≡ source.now) }
        ensures module { IfOk result (λ r. read_module source.now ≡ good (meaning r)) }
        ensures fault { IfErr result (IsFaultOf (read_module source.now)) }
        ensures same { (p : ℕ × ℕ) → has self.old p ↔ has self.new p };

    /// The code that a reference finds.
    fn code<'a>(&'a self, r: &'a Self::Ref) -> &'a Code
        requires { has self.now (place r.now) }
        ensures { result.now ≡ meaning r.now };
}
