// The goals of a clause's body as instructions.

ghost use Rattle.std.specs.Prelude.{◌≡◌, length, map, IfOk, OnOk};
ghost use Rattle.kl1_term.specs.Nodes.{code_of};
ghost use Rattle.kl1_model.specs.Module.{goals_of};
ghost use Rattle.kl1_read.specs.Sources.{goal_of_parts};
ghost use Rattle.kl1_clause.specs.Instructions.{AreNamed};
ghost use Rattle.kl1_clause.specs.BareGoals.{ArePlaced, is_colon, atom_at, where_so, module_in, bare_nodes};
ghost use Rattle.kl1_clause.specs.Bodies.{PutsModule, PutsGoal, IsBody};

use crate::instruction::Instruction;
use crate::name::Name;
use crate::names::Names;
use crate::rows::put_nodes;
use kl1_model::BuiltIn;
use kl1_read::GoalParts;
use kl1_term::{Node, Term};
use kl1_text::AtomText;
use std::alloc::{AllocError, Global};

/// The goals of a body as one row, each without the name of its module if it names one by an atom; and that name for each.
#[derive(Drop)]
pub(crate) struct Body {
    pub goals: Vec<Instruction>,
    pub modules: Vec<Option<Name>>,
}

/// Whether a node is the name `:` of two arguments.
pub(crate) fn is_colon(node: &Node) -> bool
    ensures { result ≡ is_colon (code_of node.now) }
{
    match node {
        Node::Structure(name, count) => {
            *count == 2 && name.is(&AtomText::of_built_in(BuiltIn::Colon))
        }
        Node::Variable(_) => false,
        Node::Integer(_) => false,
        Node::Atom(_) => false,
    }
}

/// The atom that a node is.
fn atom_at(node: &Node) -> Option<AtomText>
    ensures { result ≡ atom_at (code_of node.now) }
{
    match node {
        Node::Atom(name) => Some(*name),
        Node::Variable(_) => None,
        Node::Integer(_) => None,
        Node::Structure(_, _) => None,
    }
}

/// The module that a goal names whose first nodes are these two.
fn module_by(first: &Node, second: &Node) -> Option<AtomText>
    ensures { result ≡ where_so (is_colon (code_of first.now)) (atom_at (code_of second.now)) }
{
    let name = atom_at(second)?;
    if is_colon(first) {
        return Some(name);
    }
    None
}

/// The name of the module that a goal of these nodes names.
fn module_in(nodes: &[Node]) -> Option<AtomText>
    ensures { result ≡ module_in (map code_of nodes.now) }
{
    if let [first, second, _rest @ ..] = nodes {
        return module_by(first, second);
    }
    None
}

/// The nodes of a goal of these nodes without that name.
fn bare_nodes(nodes: &[Node]) -> &[Node]
    ensures { map code_of result.now ≡ bare_nodes (map code_of nodes.now) }
{
    if let [first, second, rest @ ..] = nodes {
        if module_by(first, second).is_some() {
            return rest;
        }
    }
    nodes
}

/// The name of a module put to the others, if there is one.
fn placed_module(names: &mut Names, text: Option<AtomText>) -> Result<Option<Name>, AllocError>
    ensures { IfOk result (PutsModule names.old names.new text) }
{
    match text {
        None => Ok(None),
        Some(text) => {
            let name = names.placed(&text)?;
            Ok(Some(name))
        }
    }
}

/// Puts a goal after the others of a body, with its names put to the others.
fn put_goal(
    names: &mut Names,
    row: &mut Vec<Instruction>,
    modules: &mut Vec<Option<Name>>,
    goal: &Term,
) -> Result<(), AllocError>
    requires row { AreNamed (length names.old) row.old.items }
    requires modules { ArePlaced (length names.old) modules.old.items }
    ensures { OnOk result (PutsGoal names.old names.new row.old.items row.new.items modules.old.items modules.new.items goal.now) }
{
    let nodes = goal.nodes();
    let name = placed_module(names, module_in(nodes))?;
    modules.push(name)?;
    put_nodes(names, row, bare_nodes(nodes))
}

/// The goals of a body, with their names put to the others.
pub(crate) fn body_of(
    alloc: Global,
    names: &mut Names,
    goals: &[GoalParts],
) -> Result<Body, AllocError>
    ensures { IfOk result (λ body. IsBody names.old names.new body.goals.items body.modules.items (goals_of (map goal_of_parts goals.now))) }
{
    let mut row = Vec::new(alloc);
    let mut modules = Vec::new(alloc);
    for goal in goals {
        put_goal(names, &mut row, &mut modules, &goal.goal)?;
    }
    Ok(Body {
        goals: row,
        modules,
    })
}
