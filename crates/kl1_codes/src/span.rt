// Where a predicate's clauses stand.

ghost use Rattle.std.specs.Prelude.{◌≡◌, ◌-◌, length, take, drop};
ghost use Rattle.kl1_codes.specs.Spans.{IsWithin};

use kl1_clause::CompiledClause;

/// The places of the clauses of one predicate among those of a module, from 0: the first, and the one after the last.
#[derive(Clone, Copy)]
pub(crate) struct Span {
    pub start: usize,
    pub end: usize,
}

/// The clauses in a span.
pub(crate) fn part(clauses: &[CompiledClause], span: Span) -> &[CompiledClause]
    requires { IsWithin (length clauses.now) span }
    ensures { result.now ≡ take (span.end - span.start) (drop span.start clauses.now) }
{
    &clauses[span.start..span.end]
}
