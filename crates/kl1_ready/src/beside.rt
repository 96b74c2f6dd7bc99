// What goals can do when a module is loaded.

ghost use Rattle.std.specs.Prelude.{◌≡◌, ℕ, ◌++◌, false, List, [], ◌∷◌, IfOk};
ghost use Rattle.kl1_model.specs.Term.{Term};
ghost use Rattle.kl1_text.specs.declared.cell_name.CellName.{CellName};
ghost use Rattle.kl1_store.specs.Held.{Held, IsIn};
ghost use Rattle.kl1_store.specs.Hooks.{HasGrown};
ghost use Rattle.kl1_clause.specs.Predicates.{AreSome};
ghost use Rattle.kl1_goals_moves.specs.Kinds.{IsKind};
ghost use Rattle.kl1_goals_moves.specs.Moves.{HasPredicate};
ghost use Rattle.kl1_goals.specs.declared.task.Task.TheVariants.{Reduces};
ghost use Rattle.kl1_shoen_paths.specs.declared.shoen.Shoen.{Shoen};
ghost use Rattle.kl1_codes.specs.Numbered.{number_of};
ghost use Rattle.kl1_codes.specs.Finding.{contents, is_numbered};
ghost use Rattle.kl1_codes.specs.Shelves.{with_last};
ghost use Rattle.kl1_user_effects.specs.Fitting.{Reading};
ghost use Rattle.kl1_user_effects.specs.Kept.{IsTaskIn, AreShoensIn};
ghost use Rattle.kl1_user_effects.specs.Works.{Knows};
ghost use Rattle.kl1_ready.specs.Ready.{IsReadyAt};

use crate::call_cache::located_or_none;
use crate::clauses::{ready_or_suspend, standing_of_monitor, standing_of_substitute};
use kl1_codes::{CodeSource, CodedModule, CodedModules, Located};
use kl1_goals::{Goal, Standing, Task};
use kl1_goals_moves::{Kind, Trial, kind_of_qualified};
use kl1_shoen::ShoenTree;
use kl1_store::{Qualified, Store};
use kl1_text::CellName;
use std::alloc::AllocError;

/// The predicate that goals of a kind call, in modules or in one that is loaded; one without clauses if there is none, or they
/// call none.
fn predicate_beside<'a, C: CodeSource>(
    modules: &'a CodedModules<'_, C>,
    loaded: &'a CodedModule<'_, C>,
    kind: Kind<CellName>,
) -> Located<'a>
    requires { is_numbered modules.now.loaded (number_of loaded.now) ≡ false }
    ensures some { AreSome result.predicate.names.now result.predicate.clauses.now }
    ensures has { (f : Reading) → Knows (modules.now.loaded ++ loaded.now ∷ []) f → (h : Held CellName) (t : Term) → IsKind f h t kind → HasPredicate f h (contents (modules.now.loaded ++ loaded.now ∷ [])) kind result.predicate }
{
    match kind {
        Kind::Calls(call) => located_or_none(modules.find_beside(
            loaded,
            call.module_name,
            call.name,
            call.count,
        )),
        Kind::Unifies(_, _) => located_or_none(None),
        Kind::Assigns(_, _) => located_or_none(None),
        Kind::Spells(_, _) => located_or_none(None),
        Kind::Executes(_) => located_or_none(None),
        Kind::Goes => located_or_none(None),
        Kind::Waits(_) => located_or_none(None),
        Kind::Nothing => located_or_none(None),
    }
}

/// What goal `number` can do, which is for a cell. The number is hung on each variable that the goal waits for.
fn standing_beside<C: CodeSource>(
    store: &mut Store<CellName>,
    modules: &CodedModules<'_, C>,
    loaded: &CodedModule<'_, C>,
    trial: &mut Trial<CellName>,
    number: u64,
    cell: Qualified<CellName>,
) -> Result<Standing, AllocError>
    requires cell { IsIn store.old.held cell.cell }
    requires new { is_numbered modules.now.loaded (number_of loaded.now) ≡ false }
    ensures ready { IfOk result (λ standing. (shoens : List (Shoen CellName)) (shoen : ℕ) → IsReadyAt (with_last modules.now loaded.now) shoens store.old.held store.new.hooks number shoen (Reduces cell) standing) }
    ensures held { store.new.held ≡ store.old.held }
    ensures grown { HasGrown store.old store.new }
{
    let kind = kind_of_qualified(store, cell);
    let located = predicate_beside(modules, loaded, kind);
    ready_or_suspend(store, modules.rules(), kind, located, trial, number)
}

/// Like `judge`, with one module more.
pub fn judge_beside<C: CodeSource>(
    store: &mut Store<CellName>,
    shoens: &ShoenTree<CellName>,
    modules: &CodedModules<'_, C>,
    loaded: &CodedModule<'_, C>,
    trial: &mut Trial<CellName>,
    goal: &Goal<CellName>,
) -> Result<Standing, AllocError>
    requires task { IsTaskIn store.old.held goal.now.task }
    requires shoens { AreShoensIn store.old.held shoens.now.shoens }
    requires new { is_numbered modules.now.loaded (number_of loaded.now) ≡ false }
    ensures ready { IfOk result (λ standing. IsReadyAt (with_last modules.now loaded.now) shoens.now.shoens store.old.held store.new.hooks goal.now.number goal.now.shoen goal.now.task standing) }
    ensures held { store.new.held ≡ store.old.held }
    ensures grown { HasGrown store.old store.new }
{
    match goal.task {
        Task::Monitor => standing_of_monitor(store, shoens, goal.number, goal.shoen),
        Task::Reduces(cell) => standing_beside(store, modules, loaded, trial, goal.number, cell),
        Task::Substitutes(term) => standing_of_substitute(store, trial, goal.number, term),
    }
}
