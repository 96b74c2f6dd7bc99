// Codes that threads share.

ghost use Rattle.std.specs.Prelude.{◌≡◌, IfOk, IfErr, IfSome};
ghost use Rattle.boxcar.specs.Table.{Shows};
ghost use Rattle.kl1_model.specs.Module.{good, read_module};
ghost use Rattle.kl1_clause.specs.Modules.{IsFaultOf};

use crate::hints::{Hints, note, place_in};
use boxcar::Pushed;
use kl1_clause::{Code, CodeFault};
use std::alloc::{AllocError, Global};
use std::marker::Model;
use std::sync::Wait;
use std::sync::atomic::AtomicU64;

/// Codes that many threads find and put in at once. A code that is put in stays where it is.
#[derive(Drop)]
pub struct CodeTable {
    codes: boxcar::Vec<Code>,
    hints: Hints,
    alloc: Global,
}

impl Model for CodeTable {
    ghost use Rattle.boxcar.specs.Table.{Shelves, shelves_coded};

    ghost Value = { Shelves };

    ghost coded = { shelves_coded };

    ghost view = { λ t. t.codes };
}

impl CodeTable {
    /// A table without codes.
    pub fn new(alloc: Global) -> Result<Self, AllocError> {
        CodeTable::with_hints(alloc, 0)
    }

    /// A table without codes whose hints all begin as this word. Every word is lawful: a hint that is wrong costs a look alone.
    pub fn with_hints(alloc: Global, word: u64) -> Result<Self, AllocError> {
        Ok(CodeTable {
            codes: boxcar::Vec::new(alloc)?,
            hints: Hints::new(alloc, word)?,
            alloc,
        })
    }

    /// The code at a place, if it is that of a source.
    fn at(&self, place: usize, source: &[u8]) -> Option<Pushed<Code>>
        ensures of { IfSome result (Shows self.now) }
        ensures module { IfSome result (λ r. read_module source.now ≡ good r.value) }
    {
        let shown = self.codes.witness(place)?;
        if self.codes.value(&shown).source() != source {
            return None;
        }
        Some(shown)
    }

    /// The code of a source, if one of these hints says the place.
    fn find_by(&self, hints: &[AtomicU64], source: &[u8]) -> Option<Pushed<Code>>
        ensures of { IfSome result (Shows self.now) }
        ensures module { IfSome result (λ r. read_module source.now ≡ good r.value) }
    {
        for hint in hints {
            if let Some(place) = place_in(hint) {
                if let Some(shown) = self.at(place, source) {
                    return Some(shown);
                }
            }
        }
        None
    }

    /// What shows the code of a source, if one of its hints says the place.
    pub fn find(&self, source: &[u8]) -> Option<Pushed<Code>>
        ensures of { IfSome result (Shows self.now) }
        ensures source { IfSome result (λ r. r.value.source ≡ source.now) }
        ensures module { IfSome result (λ r. read_module source.now ≡ good r.value) }
    {
        self.find_by(self.hints.of(source), source)
    }

    /// Puts a code in, whether or not it is there, and gives what shows it.
    pub fn push<R: Wait>(&self, rt: &R, code: Code) -> Result<Pushed<Code>, AllocError>
        ensures of { IfOk result (Shows self.now) }
        ensures is { IfOk result (λ r. r.value ≡ code) }
    {
        let hints = self.hints.of(code.source());
        let Ok(shown) = self.codes.push_shown(rt, code) else {
            return Err(AllocError);
        };
        note(hints, shown.index());
        Ok(shown)
    }

    /// What shows the code of a source, which is compiled and put in if no hint finds it. Two threads that put in one source at
    /// once may both put it in.
    pub fn find_or_push<R: Wait>(&self, rt: &R, source: &[u8]) -> Result<Pushed<Code>, CodeFault>
        ensures of { IfOk result (Shows self.now) }
        ensures source { IfOk result (λ r. r.value.source ≡ source.now) }
        ensures module { IfOk result (λ r. read_module source.now ≡ good r.value) }
        ensures fault { IfErr result (IsFaultOf (read_module source.now)) }
    {
        if let Some(shown) = self.find(source) {
            return Ok(shown);
        }
        let code = Code::compile(self.alloc, source)?;
        let Ok(shown) = self.push(rt, code) else {
            return Err(CodeFault::Memory);
        };
        Ok(shown)
    }

    /// The code that was shown.
    pub fn code<'a>(&'a self, shown: &Pushed<Code>) -> &'a Code
        requires { Shows self.now shown.now }
        ensures { result.now ≡ shown.now.value }
    {
        self.codes.value(shown)
    }
}
