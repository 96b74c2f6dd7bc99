// The modules of an account with their codes at hand, and its rules.

ghost use Rattle.std.specs.Prelude.{◌≡◌, false, [], ◌∷◌, ◌++◌, length, slice_get, option_map, IfSome};
ghost use Rattle.kl1_codes.specs.Numbered.{number_of, ArePlaced};
ghost use Rattle.kl1_clause.specs.Predicates.{AreSome};
ghost use Rattle.kl1_codes.specs.Finding.{Finds, is_numbered};

use crate::code_source::CodeSource;
use crate::coded_module::CodedModule;
use crate::modules::Modules;
use crate::place::{Located, place_of};
use kl1_clause::Predicate;
use kl1_model::Rules;
use kl1_text::CellName;
use std::marker::Model;

/// The modules of an account and its rules, lent with the source where the codes of the modules stand: to contracts they are the
/// modules and the rules.
#[derive(Drop)]
pub struct CodedModules<'a, C: CodeSource> {
    rules: Rules,
    modules: &'a Modules<C>,
    code_source: &'a C,
}

impl<'a, C: CodeSource> Model for CodedModules<'a, C> {
    ghost use Rattle.std.specs.Coded.{codes};
    ghost use Rattle.kl1_codes.specs.Numbered.{numbered_code};
    ghost use Rattle.kl1_codes.specs.Shelves.{Program};

    ghost Value = { Program };

    ghost coded = { Prim.hlevel (codes, numbered_code) };

    ghost use Rattle.kl1_codes.specs.Numbered.{ArePlaced};

    ghost view = { λ m. record { rules = m.rules; loaded = m.modules.now.loaded } };

    ghost invariant = { λ m. ArePlaced (C.has m.code_source.now) m.modules.now.loaded };
}

impl<'a, C: CodeSource> CodedModules<'a, C> {
    /// Modules and rules with the source where the codes of the modules stand.
    pub fn over(rules: Rules, modules: &'a Modules<C>, codes: &'a C) -> Self
        requires { ArePlaced (C.has codes.now) modules.now.loaded }
        ensures { result ≡ record { rules = rules; loaded = modules.now.loaded } }
    {
        CodedModules {
            rules,
            modules,
            code_source: codes,
        }
    }

    /// The rules.
    pub fn rules(&self) -> Rules
        ensures { result ≡ self.now.rules }
    {
        self.rules
    }

    /// How many there are.
    pub fn len(&self) -> usize
        ensures { result ≡ length self.now.loaded }
    {
        self.modules.len()
    }

    /// The module at a place in order of loading, from 0, with its code.
    pub fn get(&self, place: usize) -> Option<CodedModule<'_, C>>
        ensures { result ≡ slice_get self.now.loaded place }
    {
        match self.modules.get(place) {
            None => None,
            Some(loaded) => Some(CodedModule::over(loaded, self.code_source)),
        }
    }

    /// The predicate with name `name` and `count` arguments in a module, or nothing if there is none. It is looked for first at a place.
    #[inline(always)]
    pub fn find(
        &self,
        module_name: CellName,
        name: CellName,
        count: usize,
        hint: u64,
    ) -> Option<Located<'_>>
        ensures finds { Finds self.now.loaded module_name name count (option_map (λ l. l.predicate) result) }
        ensures some { IfSome result (λ l. AreSome l.predicate.names.now l.predicate.clauses.now) }
    {
        self.modules
            .find(self.code_source, module_name, name, count, hint)
    }

    /// Like `find`, with one module more, which is drafted and none of these.
    pub fn find_beside<'b>(
        &'b self,
        draft: &'b CodedModule<'_, C>,
        module_name: CellName,
        name: CellName,
        count: usize,
    ) -> Option<Located<'b>>
        requires { is_numbered self.now.loaded (number_of draft.now) ≡ false }
        ensures finds { Finds (self.now.loaded ++ draft.now ∷ []) module_name name count (option_map (λ l. l.predicate) result) }
        ensures some { IfSome result (λ l. AreSome l.predicate.names.now l.predicate.clauses.now) }
    {
        if draft.number().number != module_name.number {
            return self.find(module_name, name, count, 0);
        }
        let (row, predicate) = draft.find(name, count)?;
        Some(Located {
            place: place_of(self.len(), row),
            predicate,
        })
    }
}
