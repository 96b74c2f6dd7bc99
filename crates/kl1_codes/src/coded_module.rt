// A module with its code at hand.

ghost use Rattle.std.specs.Prelude.{◌≡◌, option_map, IfSome};
ghost use Rattle.kl1_codes.specs.Numbered.{number_of};
ghost use Rattle.kl1_clause.specs.Predicates.{AreSome};
ghost use Rattle.kl1_codes.specs.Finding.{FindsIn};

use crate::code_source::CodeSource;
use crate::loaded::Loaded;
use kl1_clause::{Code, Predicate};
use kl1_text::CellName;
use std::marker::Model;

/// A module, lent with its code.
#[derive(Drop)]
pub struct CodedModule<'a, C: CodeSource> {
    loaded: &'a Loaded<C>,
    code: &'a Code,
}

impl<'a, C: CodeSource> Model for CodedModule<'a, C> {
    ghost use Rattle.kl1_codes.specs.Numbered.{Numbered, numbered_code};

    ghost Value = { Numbered };

    ghost coded = { numbered_code };

    ghost use Rattle.std.specs.Prelude.{◌≡◌};

    ghost view = { λ m. m.loaded.now };

    ghost invariant = { λ m. m.code.now ≡ m.loaded.now.content };
}

impl<'a, C: CodeSource> CodedModule<'a, C> {
    /// A module with its code in the source where that stands.
    pub fn over(loaded: &'a Loaded<C>, codes: &'a C) -> Self
        requires { C.has codes.now loaded.now.place }
        ensures { result ≡ loaded.now }
    {
        let code = loaded.code(codes);
        CodedModule { loaded, code }
    }

    /// The code.
    pub fn code(&self) -> &Code
        ensures { result.now ≡ self.now.content }
    {
        self.code
    }

    /// The numbers of the names of the code's list.
    pub fn row(&self) -> &[CellName]
        ensures { result.now ≡ self.now.row }
    {
        self.loaded.row()
    }

    /// The number of the module's name.
    pub fn number(&self) -> CellName
        ensures { result ≡ number_of self.now }
    {
        self.loaded.number()
    }

    /// The clauses of a predicate, or nothing if there is none.
    pub fn find(&self, name: CellName, count: usize) -> Option<(usize, Predicate<'_, CellName>)>
        ensures finds { FindsIn self.now name count (option_map (λ p. p.1) result) }
        ensures some { IfSome result (λ p. AreSome p.1.names.now p.1.clauses.now) }
        ensures row { IfSome result (λ p. p.1.names.now ≡ self.now.row) }
    {
        self.loaded.find(self.code, name, count)
    }
}
