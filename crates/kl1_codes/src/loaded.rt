// One module with the numbers of its names.

ghost use Rattle.std.specs.Prelude.{◌≡◌, ◌-◌, length, take, drop, option_map, Some, IfOk, IfSome};
ghost use Rattle.kl1_text.specs.BuiltIns.{built_in_of};
ghost use Rattle.kl1_codes.specs.Numbered.{own_names, number_by, number_of};
ghost use Rattle.kl1_clause.specs.Clauses.{AreCompiled};
ghost use Rattle.kl1_clause.specs.Predicates.{AreSome};
ghost use Rattle.kl1_codes.specs.Spans.{IsWithin};
ghost use Rattle.kl1_codes.specs.Finding.{FindsIn};

use crate::code_source::CodeSource;
use crate::indexing::{Index, key_by, place_near, put_spans, span_on};
use crate::span::{Span, part};
use kl1_clause::{Code, Predicate};
use kl1_text::{CellName, NameValue};
use std::alloc::{AllocError, Global};
use std::marker::{Model, PhantomData};

/// A module: what finds its code in a source of codes, the numbers of its names in an account, and where the clauses of each
/// predicate stand. The numbers may be spare ones while the module is drafted.
#[derive(Drop)]
pub struct Loaded<C: CodeSource> {
    code: C::Ref,
    number: CellName,
    row: Vec<CellName>,
    index: Index,
    source: PhantomData<C>,
}

impl<C: CodeSource> Model for Loaded<C> {
    ghost use Rattle.kl1_codes.specs.Numbered.{Numbered, numbered_code};

    ghost Value = { Numbered };

    ghost coded = { numbered_code };

    ghost use Rattle.std.specs.Prelude.{vec_capacity};
    ghost use Rattle.kl1_codes.specs.Indexes.{IsFiled};

    ghost view = { λ l. record { content = C.meaning l.code; row = l.row.items; place = C.place l.code } };

    ghost invariant = { λ l. IsFiled (C.meaning l.code) l.number l.row.items l.index.items (vec_capacity l.index) };
}

/// The number of a module's own name, if these are the numbers of its names.
pub fn number_by(code: &Code, row: &[CellName]) -> CellName
    ensures { result ≡ number_by row.now (built_in_of code.now.name) }
{
    match code.module_name().built_in() {
        Some(built_in) => CellName::of(built_in),
        None => match row.first() {
            Some(number) => *number,
            None => CellName { number: 0 },
        },
    }
}

impl<C: CodeSource> Loaded<C> {
    /// A module with a number for each name of its code's list.
    pub fn new(
        alloc: Global,
        codes: &C,
        code: C::Ref,
        row: Vec<CellName>,
    ) -> Result<Self, AllocError>
        requires of { C.has codes.now (C.place code) }
        requires named { length row.items ≡ length (own_names (C.meaning code)) }
        ensures { IfOk result (λ loaded. loaded ≡ record { content = C.meaning code; row = row.items; place = C.place code }) }
    {
        let found = codes.code(&code);
        let mut index = Vec::with_capacity(alloc, found.clause_count())?;
        put_spans(&mut index, found, &row);
        let number = number_by(found, &row);
        Ok(Loaded {
            code,
            number,
            row,
            index,
            source: PhantomData,
        })
    }

    /// Puts other numbers in place of those of its names. It takes no memory.
    pub fn renumber(&mut self, codes: &C, row: &[CellName])
        requires of { C.has codes.now self.old.place }
        requires named { length row.now ≡ length (own_names self.old.content) }
        ensures { self.new ≡ record self.old { row = row.now } }
    {
        let found = codes.code(&self.code);
        self.row.as_mut_slice().copy_from_slice(row);
        self.index.clear();
        put_spans(&mut self.index, found, row);
        self.number = number_by(found, row);
    }

    /// The code, in the source where it stands.
    #[inline(always)]
    pub fn code<'a>(&'a self, codes: &'a C) -> &'a Code
        requires { C.has codes.now self.now.place }
        ensures { result.now ≡ self.now.content }
    {
        codes.code(&self.code)
    }

    /// The numbers of the names of the code's list.
    pub fn row(&self) -> &[CellName]
        ensures { result.now ≡ self.now.row }
    {
        &self.row
    }

    /// The number of the module's name.
    pub fn number(&self) -> CellName
        ensures { result ≡ number_of self.now }
    {
        self.number
    }

    /// The clauses in a span. This is the module's code.
    #[inline(always)]
    fn clauses_in<'a>(&'a self, code: &'a Code, span: Span) -> Predicate<'a, CellName>
        requires code { code.now ≡ self.now.content }
        requires span { IsWithin (length self.now.content.clauses) span }
        ensures some { AreSome result.names.now result.clauses.now }
        ensures row { result.names.now ≡ self.now.row }
        ensures are { AreCompiled (own_names self.now.content) result.clauses.now (take (span.end - span.start) (drop span.start self.now.content.clauses)) }
    {
        Predicate {
            names: &self.row,
            clauses: part(code.clauses(), span),
        }
    }

    /// The row of a predicate in the index and its clauses, or nothing if there is none. This is the module's code.
    pub(crate) fn find<'a>(
        &'a self,
        code: &'a Code,
        name: CellName,
        count: usize,
    ) -> Option<(usize, Predicate<'a, CellName>)>
        requires { code.now ≡ self.now.content }
        ensures finds { FindsIn self.now name count (option_map (λ p. p.1) result) }
        ensures some { IfSome result (λ p. AreSome p.1.names.now p.1.clauses.now) }
        ensures row { IfSome result (λ p. p.1.names.now ≡ self.now.row) }
    {
        // The clauses of a predicate stand together in a module that is the meaning of its source.
        let _ = code.source();
        let row = place_near(&self.index, key_by(name, count))?;
        Some((row, self.clauses_in(code, self.index[row].1)))
    }

    /// The clauses of a predicate, if it stands in this row of the index. This is the module's code.
    #[inline(always)]
    pub(crate) fn find_on<'a>(
        &'a self,
        code: &'a Code,
        name: CellName,
        count: usize,
        row: usize,
    ) -> Option<Predicate<'a, CellName>>
        requires { code.now ≡ self.now.content }
        ensures finds { IfSome result (λ p. FindsIn self.now name count (Some p)) }
        ensures some { IfSome result (λ p. AreSome p.names.now p.clauses.now) }
    {
        // As in `find`: the clauses of a predicate stand together in a module that is the meaning of its source.
        let _ = code.source();
        let span = span_on(&self.index, key_by(name, count), row)?;
        Some(self.clauses_in(code, span))
    }
}
