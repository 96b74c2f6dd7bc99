// The modules of an account.

ghost use Rattle.std.specs.Prelude.{◌≡◌, ℕ, ◌+◌, ◌<◌, ◌≤◌, false, [], ◌∷◌, ◌++◌, length, slice_get, option_copied, option_map, OnOk, IfSome, Some, None, nat_eq};
ghost use Rattle.indexmap.specs.IndexMap.{get, spare};
ghost use Rattle.kl1_codes.specs.Numbered.{number_of, ArePlaced};
ghost use Rattle.kl1_clause.specs.Predicates.{AreSome};
ghost use Rattle.kl1_codes.specs.Finding.{Finds, is_numbered, TellsModule};

use crate::code_source::CodeSource;
use crate::loaded::Loaded;
use crate::place::{Located, module_in, place_of, row_in};
use indexmap::IndexMap;
use kl1_clause::Predicate;
use kl1_text::CellName;
use std::alloc::{AllocError, Global};
use std::marker::Model;

/// How many modules are compared one by one, before the others are looked up: to compare a number with that of each of these
/// costs less than to look it up.
const FEW: usize = 8;

/// The modules of an account in order of loading, each found by the number of its name. Their codes stand in a source of codes.
#[derive(Drop)]
pub struct Modules<C: CodeSource> {
    loaded: IndexMap<u64, Loaded<C>>,
}

impl<C: CodeSource> Model for Modules<C> {
    ghost use Rattle.kl1_codes.specs.Shelves.{Shelf, shelf_code};

    ghost Value = { Shelf };

    ghost coded = { shelf_code };

    ghost use Rattle.indexmap.specs.IndexMap.{values, spare};
    ghost use Rattle.kl1_codes.specs.Shelves.{AreKeyed};

    ghost view = { λ m. record { loaded = values m.loaded; room = spare m.loaded } };

    ghost invariant = { λ m. AreKeyed m.loaded.entries };
}

impl<C: CodeSource> Modules<C> {
    /// No modules.
    pub fn new(alloc: Global) -> Self
        ensures { result.loaded ≡ [] }
    {
        Modules {
            loaded: IndexMap::new(alloc),
        }
    }

    /// How many there are.
    pub fn len(&self) -> usize
        ensures { result ≡ length self.now.loaded }
    {
        self.loaded.len()
    }

    /// The module at a place in order of loading, from 0.
    pub fn get(&self, place: usize) -> Option<&Loaded<C>>
        ensures { option_copied result ≡ slice_get self.now.loaded place }
    {
        let (_, loaded) = self.loaded.get_index(place)?;
        Some(loaded)
    }

    /// Whether a module of this name is there.
    #[tactic(auto, using(crate::proofs::Shelving::has_number, crate::proofs::Shelving::tells_value))]
    pub fn has(&self, name: CellName) -> bool
        ensures value { result ≡ is_numbered self.now.loaded name }
        ensures tells { TellsModule self.now.loaded name result }
    {
        self.loaded.contains_key(&name.number)
    }

    /// The predicate with name `name` and `count` arguments in a module, or nothing if there is none.
    #[inline(never)]
    fn search<'a>(
        &'a self,
        codes: &'a C,
        module_name: CellName,
        name: CellName,
        count: usize,
    ) -> Option<Located<'a>>
        requires { ArePlaced (C.has codes.now) self.now.loaded }
        ensures finds { Finds self.now.loaded module_name name count (option_map (λ l. l.predicate) result) }
        ensures some { IfSome result (λ l. AreSome l.predicate.names.now l.predicate.clauses.now) }
    {
        let (module, loaded) = loaded_under(&self.loaded, module_name.number)?;
        let (row, predicate) = loaded.find(loaded.code(codes), name, count)?;
        Some(Located {
            place: place_of(module, row),
            predicate,
        })
    }

    /// The clauses of the predicate with name `name` and `count` arguments in a module, if it stands at a place.
    #[inline(always)]
    fn find_at<'a>(
        &'a self,
        codes: &'a C,
        module_name: CellName,
        name: CellName,
        count: usize,
        place: u64,
    ) -> Option<Predicate<'a, CellName>>
        requires { ArePlaced (C.has codes.now) self.now.loaded }
        ensures finds { IfSome result (λ p. Finds self.now.loaded module_name name count (Some p)) }
        ensures some { IfSome result (λ p. AreSome p.names.now p.clauses.now) }
    {
        let (number, loaded) = self.loaded.get_index(module_in(place))?;
        if *number != module_name.number {
            return None;
        }
        loaded.find_on(loaded.code(codes), name, count, row_in(place))
    }

    /// The predicate with name `name` and `count` arguments in a module, or nothing if there is none. It is looked for first at the place
    /// that `hint` says.
    #[inline(always)]
    pub fn find<'a>(
        &'a self,
        codes: &'a C,
        module_name: CellName,
        name: CellName,
        count: usize,
        hint: u64,
    ) -> Option<Located<'a>>
        requires { ArePlaced (C.has codes.now) self.now.loaded }
        ensures finds { Finds self.now.loaded module_name name count (option_map (λ l. l.predicate) result) }
        ensures some { IfSome result (λ l. AreSome l.predicate.names.now l.predicate.clauses.now) }
    {
        match self.find_at(codes, module_name, name, count, hint) {
            None => self.search(codes, module_name, name, count),
            Some(predicate) => Some(Located {
                place: hint,
                predicate,
            }),
        }
    }

    /// Makes room for `more` modules more. If memory is refused, the modules are as before.
    pub fn reserve(&mut self, more: usize) -> Result<(), AllocError>
        ensures ok { OnOk result (more ≤ self.new.room) }
        ensures loaded { self.new.loaded ≡ self.old.loaded }
        ensures room { self.old.room ≤ self.new.room }
    {
        self.loaded.reserve(more)
    }

    /// Puts a module after the others, if there is room.
    pub fn push(&mut self, loaded: Loaded<C>)
        requires room { 0 < self.old.room }
        requires new { is_numbered self.old.loaded (number_of loaded) ≡ false }
        ensures loaded { self.new.loaded ≡ self.old.loaded ++ loaded ∷ [] }
        ensures room { self.old.room ≤ self.new.room + 1 }
    {
        let number = loaded.number().number;
        put_last(&mut self.loaded, number, loaded);
    }
}

/// The module under a number and its place, or nothing if there is none.
fn loaded_under<C: CodeSource>(
    modules: &IndexMap<u64, Loaded<C>>,
    number: u64,
) -> Option<(usize, &Loaded<C>)>
    ensures { option_map (λ p. p.1.now) result ≡ get nat_eq modules.now number }
{
    for place in 0..FEW {
        match modules.get_index(place) {
            None => break,
            Some((other, loaded)) => {
                if *other == number {
                    return Some((place, loaded));
                }
            }
        }
    }
    let (place, _, loaded) = modules.get_full(&number)?;
    Some((place, loaded))
}

/// Puts a module under a number that none has, if there is room.
#[tactic(auto, using(crate::proofs::Shelving::entry_is_last))]
fn put_last<C: CodeSource>(modules: &mut IndexMap<u64, Loaded<C>>, number: u64, loaded: Loaded<C>)
    requires room { 0 < spare modules.old }
    requires new { get nat_eq modules.old number ≡ None }
    ensures entries { modules.new.entries ≡ modules.old.entries ++ (number, loaded) ∷ [] }
    ensures room { spare modules.old ≤ spare modules.new + 1 }
{
    match modules.insert(number, loaded) {
        Ok(_) => {}
        Err(_) => unreachable!(),
    }
}
