// The clauses of the predicates that goals call.

ghost use Rattle.std.specs.Prelude.{ℕ, List, map, option_map, IfSome};
ghost use Rattle.kl1_model.specs.Term.{Term};
ghost use Rattle.kl1_model.specs.Module.{Clause};
ghost use Rattle.kl1_text.specs.declared.cell_name.CellName.{CellName};
ghost use Rattle.kl1_store.specs.Held.{Held};
ghost use Rattle.kl1_clause.specs.Clauses.{AreCompiled};
ghost use Rattle.kl1_clause.specs.Predicates.{AreSome, FoundAs};
ghost use Rattle.kl1_goals_moves.specs.Kinds.{IsKind};
ghost use Rattle.kl1_goals_moves.specs.Moves.{HasPredicate};
ghost use Rattle.kl1_codes.specs.Finding.{contents};
ghost use Rattle.kl1_user_effects.specs.Fitting.{Reading};
ghost use Rattle.kl1_user_effects.specs.Works.{Knows};

use kl1_codes::{CodeSource, CodedModules, Located};
use kl1_goals_moves::{Kind, or_none};
use kl1_text::CellName;

/// An account's modules, with the place where the predicate stands that goals may call: it is looked for there first.
#[derive(Drop)]
pub struct CallCache<'a, 'b, C: CodeSource> {
    pub modules: &'a CodedModules<'b, C>,
    pub hint: u64,
}

/// A predicate that was found, or one without clauses.
pub(crate) fn located_or_none<'a>(found: Option<Located<'a>>) -> Located<'a>
    requires { IfSome found (λ l. AreSome l.predicate.names.now l.predicate.clauses.now) }
    ensures some { AreSome result.predicate.names.now result.predicate.clauses.now }
    ensures clauses { (f : CellName → List ℕ) (cs : List Clause) → FoundAs f cs (option_map (λ l. l.predicate) found.entry) → AreCompiled (map f result.predicate.names.now) result.predicate.clauses.now cs }
{
    match found {
        None => Located {
            place: 0,
            predicate: or_none(None),
        },
        Some(located) => located,
    }
}

/// The predicate that goals of a kind call, which is looked for first at a place; one without clauses if there is none, or they call
/// none.
#[inline(always)]
pub fn predicate_of<'a, C: CodeSource>(
    modules: &'a CodedModules<'_, C>,
    kind: Kind<CellName>,
    hint: u64,
) -> Located<'a>
    ensures some { AreSome result.predicate.names.now result.predicate.clauses.now }
    ensures has { (f : Reading) → Knows modules.now.loaded f → (h : Held CellName) (t : Term) → IsKind f h t kind → HasPredicate f h (contents modules.now.loaded) kind result.predicate }
{
    match kind {
        Kind::Calls(call) => {
            located_or_none(modules.find(call.module_name, call.name, call.count, hint))
        }
        Kind::Unifies(_, _) => located_or_none(None),
        Kind::Assigns(_, _) => located_or_none(None),
        Kind::Spells(_, _) => located_or_none(None),
        Kind::Executes(_) => located_or_none(None),
        Kind::Goes => located_or_none(None),
        Kind::Waits(_) => located_or_none(None),
        Kind::Nothing => located_or_none(None),
    }
}
