// Whether a text can write a term.

ghost use Rattle.std.specs.Prelude.{◌≡◌, nat_le, map, IfOk, IsTrue};
ghost use Rattle.std.specs.List.{list_all};
ghost use Rattle.kl1_model.specs.Meaning.{is_word, is_writable};
ghost use Rattle.kl1_model.specs.declared.limits.TheConstants.{MOST_DEPTH};
ghost use Rattle.kl1_term.specs.Nodes.{code_of};
ghost use Rattle.kl1_term.specs.Narrow.{is_narrow_node};

use crate::node::Node;
use crate::term::Term;
use kl1_model::limits::{MOST_ARGUMENTS, MOST_DEPTH};
use std::alloc::{AllocError, Global};

impl Term {
    /// Whether a text can write the term: its names have at most 127 bytes, its structures 1 to 8 arguments, and it is at
    /// most 256 deep.
    pub fn is_writable(&self, alloc: Global) -> Result<bool, AllocError>
        ensures { IfOk result (λ fits. fits ≡ is_writable self.now) }
    {
        if !are_narrow(self.nodes()) {
            return Ok(false);
        }
        let deep = self.depth(alloc)?;
        Ok(is_low(deep))
    }
}

/// Whether a text can write a term that is so deep.
fn is_low(deep: u64) -> bool
    ensures { result ≡ nat_le deep MOST_DEPTH }
{
    deep <= MOST_DEPTH
}

/// Whether the structures of nodes have 1 to 8 arguments; names and integers fit by their types.
fn are_narrow(nodes: &[Node]) -> bool
    ensures { result ≡ list_all is_narrow_node (map code_of nodes.now) }
{
    let mut left = nodes;
    while let [first, rest @ ..] = left {
        if !is_narrow(first) {
            return false;
        }
        left = rest;
    }
    true
}

/// Whether a node has 1 to 8 arguments if it is a structure's.
fn is_narrow(node: &Node) -> bool
    ensures { result ≡ is_narrow_node (code_of node.now) }
{
    match node {
        Node::Variable(_number) => true,
        Node::Integer(number) => is_word(*number),
        Node::Atom(name) => {
            name.shows_text();
            true
        }
        Node::Structure(name, count) => {
            name.shows_text();
            1 <= *count && *count <= MOST_ARGUMENTS
        }
    }
}

/// Whether an integer has 64 bits: it does by its type.
fn is_word(number: i64) -> bool
    ensures value { result ≡ is_word number }
    ensures always { IsTrue result }
{
    let _ = number;
    true
}
