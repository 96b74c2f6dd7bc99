// Modules that are compiled.

ghost use Rattle.std.specs.Prelude.{◌≡◌, ℕ, List, [], length, filter, map, IfOk, IfErr, OnOk, IsTrue};
ghost use Rattle.std.specs.List.{list_all};
ghost use Rattle.kl1_model.specs.State.{names_of_module, names_of_clauses, with_names};
ghost use Rattle.kl1_clause.specs.NameList.{with_text, with_texts, IsNameList};
ghost use Rattle.kl1_clause.specs.Clauses.{AreCompiled};
ghost use Rattle.kl1_read.specs.Sources.{clause_of_parts, module_of_parts};
ghost use Rattle.kl1_model.specs.Module.{good, is_of, read_module};
ghost use Rattle.kl1_model.specs.laws.WaitsLaws.{is_guarded};
ghost use Rattle.kl1_clause.specs.Modules.{IsMeant, IsFaultOf};

use crate::code_fault::CodeFault;
use crate::compiled_clause::{CompiledClause, compiled_of};
use crate::names::Names;
use crate::predicate::{from_first, front_run};
use kl1_read::{ClauseParts, ReadFault, Source, read_module};
use kl1_text::AtomText;
use std::alloc::{AllocError, Global};
use std::marker::Model;

/// A module compiled: its source, the names in it that are not built in, and its clauses as instructions, whose names are
/// places in the list of those.
pub struct Code {
    source: Vec<u8>,
    name: AtomText,
    names: Names,
    clauses: Vec<CompiledClause>,
}

/// Not derived, so that crates above don't prove the drop of each part again.
impl Drop for Code {
    fn drop(self) {
        let Code {
            source,
            name: _,
            names,
            clauses,
        } = self;
        let _ = (source, names, clauses);
    }
}

impl Model for Code {
    ghost use Rattle.kl1_model.specs.Module.{Module};
    ghost use Rattle.kl1_clause.specs.ModuleCode.{module_code};

    ghost Value = { Module };

    ghost coded = { module_code };

    ghost use Rattle.kl1_clause.specs.Codes.{module_in, IsSound};

    ghost view = { module_in };

    ghost invariant = { IsSound };
}

impl Code {
    /// The code of a module that is the meaning of a source.
    pub(crate) fn of_parts(alloc: Global, source: &[u8], parts: &Source) -> Result<Self, AllocError>
        requires { IsMeant source.now (module_of_parts source.now parts.now) }
        ensures { IfOk result (λ code. code ≡ module_of_parts source.now parts.now) }
    {
        let name = parts.name;
        let mut names = first_names(alloc, &name)?;
        let clauses = clauses_of(alloc, &mut names, &parts.clauses)?;
        let source = Vec::from_slice(alloc, source)?;
        Ok(Code {
            source,
            name,
            names,
            clauses,
        })
    }

    /// The code of the module that a source is.
    pub fn compile(alloc: Global, source: &[u8]) -> Result<Self, CodeFault>
        ensures module { IfOk result (λ code. read_module source.now ≡ good code) }
        ensures fault { IfErr result (IsFaultOf (read_module source.now)) }
    {
        let parts = match read_module(alloc, source) {
            Ok(parts) => parts,
            Err(ReadFault::Bad { line }) => return Err(CodeFault::Bad { line }),
            Err(ReadFault::Memory) => return Err(CodeFault::Memory),
        };
        match Code::of_parts(alloc, source, &parts) {
            Ok(code) => Ok(code),
            Err(_refused) => Err(CodeFault::Memory),
        }
    }

    /// The source, which means the module.
    pub fn source(&self) -> &[u8]
        ensures value { result.now ≡ self.now.source }
        ensures meant { IsMeant result.now self.now }
    {
        &self.source
    }

    /// The names of the module that are not built in, in order of first use.
    #[tactic(auto, using(crate::proofs::Soundness::names_as))]
    pub fn names(&self) -> &[AtomText]
        ensures value { result.now ≡ with_names [] (names_of_module self.now) }
        ensures names { IsNameList result.now }
    {
        let names = &self.names;
        names.texts()
    }

    /// The module's name.
    pub fn module_name(&self) -> AtomText
        ensures { result ≡ self.now.name }
    {
        self.name
    }

    /// How many clauses there are.
    pub fn clause_count(&self) -> usize
        ensures { result ≡ length self.now.clauses }
    {
        self.clauses.len()
    }

    /// The clauses compiled, in order.
    #[tactic(auto, using(crate::proofs::Soundness::clauses_as))]
    pub fn clauses(&self) -> &[CompiledClause]
        ensures { AreCompiled (with_names [] (names_of_module self.now)) result.now self.now.clauses }
    {
        self.clauses.as_slice()
    }

    /// The clauses of one predicate compiled, in order: its first clause, which has the number 1, stands first.
    #[tactic(auto, using(crate::proofs::Predicates::found_is))]
    pub fn predicate(&self, name: &AtomText, count: usize) -> &[CompiledClause]
        ensures { AreCompiled (with_names [] (names_of_module self.now)) result.now (filter (is_of name.now count) self.now.clauses) }
    {
        let texts = self.names.texts();
        let behind = from_first(texts, &self.clauses, name, count);
        front_run(texts, behind, name, count)
    }
}

/// The names of a code whose module has this name, before its clauses.
fn first_names(alloc: Global, name: &AtomText) -> Result<Names, AllocError>
    ensures { IfOk result (λ names. names ≡ with_text [] name.now) }
{
    let mut names = Names::new(alloc);
    let _first = names.placed(name)?;
    Ok(names)
}

/// Clauses compiled one after another, with their names put to the others. The variables of their tests are their heads'.
pub(crate) fn clauses_of(
    alloc: Global,
    names: &mut Names,
    parts: &[ClauseParts],
) -> Result<Vec<CompiledClause>, AllocError>
    requires { IsTrue (list_all is_guarded (map clause_of_parts parts.now)) }
    ensures names { OnOk result (names.new ≡ with_texts names.old (names_of_clauses (map clause_of_parts parts.now))) }
    ensures clauses { IfOk result (λ clauses. AreCompiled names.new clauses.items (map clause_of_parts parts.now)) }
{
    let mut clauses = Vec::new(alloc);
    for part in parts {
        let clause = compiled_of(alloc, names, part)?;
        clauses.push(clause)?;
    }
    Ok(clauses)
}
