// Which terms are goals.

ghost use Rattle.std.specs.Prelude.{◌≡◌};
ghost use Rattle.kl1_model.specs.Goal.{is_goal, is_built_in_goal, is_pair_goal};
ghost use Rattle.kl1_read.specs.GoalNodes.{begins_goal, begins_structure_goal, begins_named, begins_built_in, begins_built_in_structure, begins_execute, is_callee_node, is_execute_node};

use kl1_term::{Node, Term};
use kl1_text::AtomText;

/// Whether a term is a goal wherever it stands: a built-in goal, or one that names its module. However large the term is, no
/// more than its first three nodes are looked at.
#[tactic(auto, using(crate::proofs::GoalFronts::goal_begins))]
pub fn is_goal(term: &Term) -> bool
    ensures { result ≡ is_goal term.now }
{
    begins_goal(term.nodes())
}

/// Whether a term is a built-in goal: `true`, one of two terms (`=`, `:=`, `atom_from`), or `shoen:execute` with six arguments. No
/// more than its first three nodes are looked at.
#[tactic(auto, using(crate::proofs::GoalFronts::built_in_begins))]
pub(crate) fn is_built_in_goal(term: &Term) -> bool
    ensures { result ≡ is_built_in_goal term.now }
{
    begins_built_in(term.nodes())
}

/// Whether the nodes of a term begin as those of a goal do.
fn begins_goal(nodes: &[Node]) -> bool
    ensures { result ≡ begins_goal nodes.now }
{
    match nodes {
        [] => false,
        [first, rest @ ..] => match first {
            Node::Atom(name) => name.is(&AtomText::of(b"true")),
            Node::Structure(name, count) => begins_structure_goal(name, *count, rest),
            _ => false,
        },
    }
}

/// Whether a structure with name `name` and `count` arguments, whose nodes these are, is a goal.
fn begins_structure_goal(name: &AtomText, count: usize, nodes: &[Node]) -> bool
    ensures { result ≡ begins_structure_goal name.now count nodes.now }
{
    is_pair_goal(name, count) || (count == 2 && name.is(&AtomText::of(b":")) && begins_named(nodes))
}

/// Whether the nodes of two terms begin with the name of a module and a goal that may stand after it.
fn begins_named(nodes: &[Node]) -> bool
    ensures { result ≡ begins_named nodes.now }
{
    match nodes {
        [] => false,
        [first, rest @ ..] => match rest {
            [] => false,
            [callee, _others @ ..] => match first {
                Node::Atom(_name) => is_callee(callee),
                _ => false,
            },
        },
    }
}

/// Whether a term that begins with a node may stand after the name of a module.
fn is_callee(node: &Node) -> bool
    ensures { result ≡ is_callee_node node.now }
{
    match node {
        Node::Atom(_name) => true,
        Node::Structure(_name, _count) => true,
        _ => false,
    }
}

/// Whether the nodes of a term begin as those of a built-in goal do.
fn begins_built_in(nodes: &[Node]) -> bool
    ensures { result ≡ begins_built_in nodes.now }
{
    match nodes {
        [] => false,
        [first, rest @ ..] => match first {
            Node::Atom(name) => name.is(&AtomText::of(b"true")),
            Node::Structure(name, count) => begins_built_in_structure(name, *count, rest),
            _ => false,
        },
    }
}

/// Whether a structure with name `name` and `count` arguments, whose nodes these are, is a built-in goal.
fn begins_built_in_structure(name: &AtomText, count: usize, nodes: &[Node]) -> bool
    ensures { result ≡ begins_built_in_structure name.now count nodes.now }
{
    is_pair_goal(name, count)
        || (count == 2 && name.is(&AtomText::of(b":")) && begins_execute(nodes))
}

/// Whether a name with `count` arguments is that of a built-in goal of two terms.
fn is_pair_goal(name: &AtomText, count: usize) -> bool
    ensures { result ≡ is_pair_goal name.now count }
{
    (name.is(&AtomText::of(b"=")) && count == 2)
        || (name.is(&AtomText::of(b":=")) && count == 2)
        || (name.is(&AtomText::of(b"atom_from")) && count == 2)
}

/// Whether the nodes of two terms begin with `shoen` and `execute` of six arguments.
fn begins_execute(nodes: &[Node]) -> bool
    ensures { result ≡ begins_execute nodes.now }
{
    match nodes {
        [] => false,
        [first, rest @ ..] => match rest {
            [] => false,
            [callee, _others @ ..] => match first {
                Node::Atom(name) => is_execute(name, callee),
                _ => false,
            },
        },
    }
}

/// Whether a term that begins with a node, after the name of a module, is `shoen:execute` with six arguments.
fn is_execute(name: &AtomText, callee: &Node) -> bool
    ensures { result ≡ is_execute_node name.now callee.now }
{
    match callee {
        Node::Structure(predicate, count) => {
            name.is(&AtomText::of(b"shoen"))
                && predicate.is(&AtomText::of(b"execute"))
                && *count == 6
        }
        _ => false,
    }
}
