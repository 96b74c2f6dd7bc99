// How many structures goals have in their arguments.

ghost use Rattle.std.specs.Prelude.{◌≡◌, ◌<◌, ◌^◌, List, ◌∷◌, length, map};
ghost use Rattle.kl1_model.specs.code.TermCode.{NodeCode};
ghost use Rattle.kl1_term.specs.Nodes.{code_of, count_in};
ghost use Rattle.kl1_model.specs.Module.{goals_of};
ghost use Rattle.kl1_model.specs.Nodes.{goal_nodes, goals_nodes, structures_of};
ghost use Rattle.kl1_read.specs.Sources.{goal_of_parts};
ghost use Rattle.kl1_clause.specs.NodeCounts.{structure_weight, structures_counted, arguments_counted, behind_terms, nodes_counted};

use crate::body::is_colon;
use kl1_read::GoalParts;
use kl1_term::{Node, Term};

/// How many structures stand in the arguments of goals: a goal's outermost one, with the name of its module, is none of them.
pub(crate) fn goals_nodes(goals: &[GoalParts]) -> u64
    requires { goals_nodes (goals_of (map goal_of_parts goals.now)) < 2 ^ 64 }
    ensures { result ≡ goals_nodes (goals_of (map goal_of_parts goals.now)) }
{
    let mut count: u64 = 0;
    for goal in goals {
        count += goal_nodes(&goal.goal);
    }
    count
}

/// How many structures stand in the arguments of a goal.
#[tactic(auto, using(crate::proofs::NodeCounts::goal_counted))]
pub(crate) fn goal_nodes(goal: &Term) -> u64
    ensures { result ≡ goal_nodes goal.now }
{
    nodes_counted(goal.nodes())
}

/// How many structures a term has, itself among them.
#[tactic(auto, using(crate::proofs::NodeCounts::term_counted))]
pub fn structures_of(term: &Term) -> u64
    ensures { result ≡ structures_of term.now }
{
    structures_counted(term.nodes())
}

/// How many structures stand in the arguments of a goal of these nodes.
fn nodes_counted(nodes: &[Node]) -> u64
    ensures { result ≡ nodes_counted (map code_of nodes.now) }
{
    match nodes {
        [] => 0,
        [first, rest @ ..] => {
            if is_colon(first) {
                arguments_counted(behind_first(rest))
            } else {
                structures_counted(rest)
            }
        }
    }
}

/// How many structures stand in the arguments of a term of these nodes.
fn arguments_counted(nodes: &[Node]) -> u64
    ensures { result ≡ arguments_counted (map code_of nodes.now) }
{
    match nodes {
        [] => 0,
        [_first, rest @ ..] => structures_counted(rest),
    }
}

/// How many of nodes are structures.
fn structures_counted(nodes: &[Node]) -> u64
    ensures { result ≡ structures_counted (map code_of nodes.now) }
{
    let mut count: u64 = 0;
    for node in nodes {
        count += structure_weight(node);
    }
    count
}

/// 1 for a structure, and else 0.
fn structure_weight(node: &Node) -> u64
    ensures { result ≡ structure_weight (code_of node.now) }
{
    match node {
        Node::Structure(_name, _count) => 1,
        Node::Variable(_number) => 0,
        Node::Integer(_number) => 0,
        Node::Atom(_name) => 0,
    }
}

/// How many terms of those after it belong to a node.
fn count_in(node: &Node) -> usize
    ensures { result ≡ count_in node.now }
{
    match node {
        Node::Structure(_name, count) => *count,
        Node::Variable(_number) => 0,
        Node::Integer(_number) => 0,
        Node::Atom(_name) => 0,
    }
}

/// How many terms are left after a node, if `left` began with it; if they are more than a number holds, as many as it
/// holds, which are more than there are nodes.
fn left_behind(left: usize, node: &Node) -> usize
    requires { 0 < left }
    ensures { (cs : List NodeCode) → length cs < 2 ^ 64 → behind_terms result cs ≡ behind_terms left (code_of node.now ∷ cs) }
{
    (left - 1).saturating_add(count_in(node))
}

/// The nodes after those of the first term.
fn behind_first(nodes: &[Node]) -> &[Node]
    ensures { map code_of result.now ≡ behind_terms 1 (map code_of nodes.now) }
{
    let mut left: usize = 1;
    let mut rest = nodes;
    while left > 0 {
        match rest {
            [] => return rest,
            [first, others @ ..] => {
                left = left_behind(left, first);
                rest = others;
            }
        }
    }
    rest
}
