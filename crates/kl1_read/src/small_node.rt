// Nodes in little room.

ghost use Rattle.std.specs.Prelude.{◌≡◌, map, reverse, IfOk};
ghost use Rattle.kl1_read.specs.SmallNodes.{node_of};

use crate::spelling::Spelling;
use kl1_term::Node;
use std::alloc::{AllocError, Global};

/// What stands at the top of a term, in little room: a structure with the number of its arguments, and its name.
#[derive(Drop)]
pub(crate) enum SmallNode {
    Variable(u64),
    Integer(i64),
    Atom(Spelling),
    Structure(u8, Spelling),
}

/// The node.
fn node_of(node: &SmallNode) -> Node
    ensures { result ≡ node_of node.now }
{
    match node {
        SmallNode::Variable(number) => Node::Variable(*number),
        SmallNode::Integer(number) => Node::Integer(*number),
        SmallNode::Atom(text) => Node::Atom(text.name()),
        SmallNode::Structure(count, name) => Node::Structure(name.name(), usize::from(*count)),
    }
}

/// Nodes from the last one on.
pub(crate) fn turned(alloc: Global, nodes: &[SmallNode]) -> Result<Vec<Node>, AllocError>
    ensures { IfOk result (λ row. row.items ≡ reverse (map node_of nodes.now)) }
{
    let mut row = Vec::with_capacity(alloc, nodes.len())?;
    let mut count = nodes.len();
    while count > 0 {
        count -= 1;
        row.push(node_of(&nodes[count]))?;
    }
    Ok(row)
}
