// What a commit to a clause adds.

ghost use Rattle.std.specs.Prelude.{◌≡◌, ℕ, ◌<◌, List, length, slice_index_or};
ghost use Rattle.kl1_model.specs.Match.{Candidate};
ghost use Rattle.kl1_model.specs.Instance.{body_priorities};
ghost use Rattle.kl1_store.specs.Held.{Held};
ghost use Rattle.kl1_match.specs.declared.place.Place.{Place};
ghost use Rattle.kl1_goals_moves.specs.Moves.{IsCandidate};
ghost use Rattle.kl1_goals_moves.specs.Bodies.{AreNeeds};

use kl1_clause::{CompiledClause, Predicate};
use kl1_text::NameValue;

/// How much a commit to a clause adds to an account: goals, variables, and structures in the arguments of these goals.
#[derive(Clone, Copy)]
pub struct Needs {
    pub goals: u64,
    pub variables: u64,
    pub nodes: u64,
}

/// The clause at a place, from 0.
pub(crate) fn nth(clauses: &[CompiledClause], place: usize) -> &CompiledClause
    requires { place < length clauses.now }
    ensures { result.now ≡ slice_index_or clauses.now place result.now }
{
    &clauses[place]
}

/// How much a commit to the clause at a place of a predicate adds.
pub fn needs_of<N: NameValue>(predicate: Predicate<'_, N>, place: usize) -> Needs
    requires { place < length predicate.clauses.now }
    ensures { (f : N → List ℕ) (h : Held N) (places : List (Place N)) (k : Candidate) → IsCandidate f h predicate.entry place places k → AreNeeds k.clause result }
{
    let clause = nth(predicate.clauses, place);
    Needs {
        goals: clause.priorities.len() as u64,
        variables: clause.fresh_variables,
        nodes: clause.nodes,
    }
}

/// The priorities that the goals of the body of the clause at a place of a predicate name, if any: one for each goal, in the order in
/// which `commit` puts them.
pub fn priorities_of<'a, N: NameValue>(
    predicate: Predicate<'a, N>,
    place: usize,
) -> &'a [Option<u64>]
    requires { place < length predicate.clauses.now }
    ensures { (f : N → List ℕ) (h : Held N) (places : List (Place N)) (k : Candidate) → IsCandidate f h predicate.entry place places k → result.now ≡ body_priorities k.clause }
{
    nth(predicate.clauses, place).priorities.as_slice()
}
