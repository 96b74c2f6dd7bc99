// How deep terms are.

ghost use Rattle.std.specs.Prelude.{◌≡◌, ◌^◌, map, IfOk, OnOk};
ghost use Rattle.kl1_model.specs.Meaning.{depth};
ghost use Rattle.kl1_term.specs.Nodes.{code_of};
ghost use Rattle.kl1_term.specs.Depths.{depth_of, depths_on, depths_in, with_depth, first_depth, behind_depth, deepest_of, depths_behind, structure_depth, AreLow};

use crate::depth::Depth;
use crate::node::Node;
use crate::term::Term;
use kl1_text::AtomText;
use std::alloc::{AllocError, Global};

impl Term {
    /// How deep the term is: 1 for a variable or a constant, and 1 more than its deepest argument for a structure; a list is 1
    /// deeper than the deepest of its elements and its last tail.
    pub fn depth(&self, alloc: Global) -> Result<u64, AllocError>
        ensures { IfOk result (λ deep. deep ≡ depth self.now) }
    {
        find_depth(alloc, self.nodes())
    }
}

/// The depth of the first term that nodes make, which are read from the last to the first.
fn find_depth(alloc: Global, nodes: &[Node]) -> Result<u64, AllocError>
    ensures { IfOk result (λ deep. deep ≡ (first_depth (depths_in (map code_of nodes.now))).whole) }
{
    let mut stack = Vec::new(alloc);
    let mut at = nodes.len();
    while at > 0 {
        at -= 1;
        put_depth(&mut stack, &nodes[at])?;
    }
    Ok(take_depth(&mut stack).whole)
}

/// Puts the depth of a node on a stack, where it takes the place of its arguments' depths.
fn put_depth(stack: &mut Vec<Depth>, node: &Node) -> Result<(), AllocError>
    requires { AreLow (2 ^ 63) (depths_on stack.old.items) }
    ensures { OnOk result (depths_on stack.new.items ≡ with_depth (code_of node.now) (depths_on stack.old.items)) }
{
    let depth = match node {
        Node::Variable(_number) => Depth::flat(1),
        Node::Integer(_number) => Depth::flat(1),
        Node::Atom(_name) => Depth::flat(1),
        Node::Structure(name, count) => take_structure(stack, *name, *count),
    };
    stack.push(depth)?;
    Ok(())
}

/// Takes the depths of a structure's arguments; gives the depth of the structure.
fn take_structure(stack: &mut Vec<Depth>, name: AtomText, count: usize) -> Depth
    requires { AreLow (2 ^ 63) (depths_on stack.old.items) }
    ensures value { depth_of result ≡ structure_depth name count (depths_on stack.old.items) }
    ensures others { depths_on stack.new.items ≡ depths_behind count (depths_on stack.old.items) }
{
    if count == 2 {
        let first = take_depth(stack);
        let second = take_depth(stack);
        return Depth::of_pair(name, first, second);
    }
    let deepest = take_deepest(stack, count);
    Depth::flat(deepest + 1)
}

/// Takes the depths of `count` terms; gives the greatest, 0 if there is none.
fn take_deepest(stack: &mut Vec<Depth>, count: usize) -> u64
    ensures deepest { result ≡ deepest_of count (depths_on stack.old.items) }
    ensures others { depths_on stack.new.items ≡ depths_behind count (depths_on stack.old.items) }
{
    let mut deepest: u64 = 0;
    let mut left = count;
    while left > 0 {
        left -= 1;
        deepest = deepest.max(take_depth(stack).whole);
    }
    deepest
}

/// Takes the depth of the first term, or that of a variable if there is none.
fn take_depth(stack: &mut Vec<Depth>) -> Depth
    ensures first { depth_of result ≡ first_depth (depths_on stack.old.items) }
    ensures others { depths_on stack.new.items ≡ behind_depth (depths_on stack.old.items) }
{
    match stack.pop() {
        Some(depth) => depth,
        None => Depth::flat(1),
    }
}
