// The goals of a body.

ghost use Rattle.std.specs.Prelude.{◌≡◌, ◌∷◌, [], map, codes, option_map, IfOk, OnOk};
ghost use Rattle.kl1_model.specs.Term.{atom};
ghost use Rattle.kl1_model.specs.code.TermCode.{nodes_of};
ghost use Rattle.kl1_model.specs.Meaning.{pair};
ghost use Rattle.kl1_model.specs.Goal.{body_goal};
ghost use Rattle.kl1_model.specs.Module.{each_of};
ghost use Rattle.kl1_term.specs.Nodes.{code_of};
ghost use Rattle.kl1_read.specs.Sources.{goal_of_parts};
ghost use Rattle.kl1_read.specs.BodyGoals.{goal_of_term};
ghost use Rattle.kl1_read.specs.Statements.{given, fit_named, may_have};

use crate::clause_parts::GoalParts;
use crate::goal_kinds::{is_built_in_goal, is_goal};
use crate::goal_terms::GoalTerm;
use crate::head_kinds::is_head;
use kl1_model::limits::MOST_PRIORITY;
use kl1_term::{Node, Term};
use kl1_text::AtomText;
use std::alloc::{AllocError, Global};

/// Puts the goals that terms are, in a module of this name. Answers whether each is one. The terms that are read are taken one
/// by one, and the row they were in is given back.
pub(crate) fn put_goals(
    alloc: Global,
    module_name: AtomText,
    terms: &mut Vec<GoalTerm>,
    goals: &mut Vec<GoalParts>,
) -> Result<bool, AllocError>
    requires { goals.old.items ≡ [] }
    ensures { IfOk result (λ r. given r (map goal_of_parts goals.new.items) ≡ each_of (fit_named module_name) (map goal_of_term terms.old.items)) }
{
    while let Some(term) = terms.pop() {
        match goal_of(alloc, module_name, term)? {
            None => return Ok(false),
            Some(goal) => goals.push(goal)?,
        }
    }
    goals.reverse();
    *terms = Vec::new(alloc);
    Ok(true)
}

/// The goal that a term is in the body of a clause, in a module of this name, with the priority that it names. None if it is
/// no goal, or may not name that priority.
fn goal_of(
    alloc: Global,
    module_name: AtomText,
    goal: GoalTerm,
) -> Result<Option<GoalParts>, AllocError>
    ensures { IfOk result (λ parts. option_map goal_of_parts parts ≡ fit_named module_name (goal_of_term goal)) }
{
    let GoalTerm { term, priority } = goal;
    // Only for the proof: a text can write it.
    term.is_written();
    let term = term.into_term(alloc)?;
    if !may_have(priority, &term) {
        return Ok(None);
    }
    match whole_goal(alloc, module_name, term)? {
        None => Ok(None),
        Some(goal) => Ok(Some(GoalParts { goal, priority })),
    }
}

/// Whether a goal may name this priority, if it names one: it is no built-in goal, and the priority is at most 4,095.
fn may_have(priority: Option<u64>, term: &Term) -> bool
    ensures { result ≡ may_have priority term.now }
{
    match priority {
        None => true,
        Some(number) => !is_built_in_goal(term) && number <= MOST_PRIORITY,
    }
}

/// The goal that a term is in the body of a clause, in a module of this name: with the module's name if it names none.
fn whole_goal(alloc: Global, module_name: AtomText, term: Term) -> Result<Option<Term>, AllocError>
    ensures { IfOk result (λ goal. goal ≡ body_goal module_name term) }
{
    if is_goal(&term) {
        Ok(Some(term))
    } else if is_head(&term) {
        let goal = qualified(alloc, module_name, &term)?;
        Ok(Some(goal))
    } else {
        Ok(None)
    }
}

/// A goal with the name of its module.
fn qualified(alloc: Global, module_name: AtomText, goal: &Term) -> Result<Term, AllocError>
    ensures { IfOk result (λ whole. whole ≡ pair (codes ":") (atom module_name) goal.now) }
{
    let mut nodes = Vec::with_capacity(alloc, goal.nodes().len().saturating_add(2))?;
    put_behind(&mut nodes, module_name, goal)?;
    Ok(Term::of_nodes(nodes))
}

/// Puts the nodes of a goal with the name of its module.
#[tactic(auto, using(crate::proofs::Clauses::qualified_nodes))]
fn put_behind(nodes: &mut Vec<Node>, module_name: AtomText, goal: &Term) -> Result<(), AllocError>
    requires { nodes.old.items ≡ [] }
    ensures { OnOk result (map code_of nodes.new.items ≡ nodes_of (pair (codes ":") (atom module_name) goal.now)) }
{
    let front = [
        Node::Structure(AtomText::of(b":"), 2),
        Node::Atom(module_name),
    ];
    nodes.extend_from_slice(&front)?;
    nodes.extend_from_slice(goal.nodes())
}
