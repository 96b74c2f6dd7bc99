// Predicates that may not be there.

ghost use Rattle.std.specs.Prelude.{◌≡◌, ℕ, List, map, IfSome};
ghost use Rattle.kl1_model.specs.Module.{Clause};
ghost use Rattle.kl1_clause.specs.Clauses.{AreCompiled};
ghost use Rattle.kl1_clause.specs.Predicates.{AreSome, FoundAs};

use kl1_clause::Predicate;
use kl1_text::NameValue;

/// What was found of a predicate, or one without clauses.
pub fn or_none<N: NameValue>(found: Option<Predicate<'_, N>>) -> Predicate<'_, N>
    requires { IfSome found (λ p. AreSome p.names.now p.clauses.now) }
    ensures some { AreSome result.names.now result.clauses.now }
    ensures clauses { (f : N → List ℕ) (cs : List Clause) → FoundAs f cs found.entry → AreCompiled (map f result.names.now) result.clauses.now cs }
{
    match found {
        None => Predicate {
            names: &[],
            clauses: &[],
        },
        Some(predicate) => predicate,
    }
}
