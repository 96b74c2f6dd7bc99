// What a printed goal calls.

use kl1_shown::parse_print;
use kl1_term::Node;
use kl1_text::AtomText;
use std::alloc::{AllocError, Global};

/// What a goal calls: a predicate of a module, or a built-in one.
#[derive(Clone, Copy)]
pub struct Called {
    /// The module's name; `None` of a built-in goal.
    pub module: Option<AtomText>,
    pub predicate: AtomText,
    pub arity: u64,
}

/// The name and the arity of a node that is a goal.
fn name_in(node: &Node) -> Option<(AtomText, u64)> {
    match node {
        Node::Atom(name) => Some((*name, 0)),
        Node::Structure(name, count) => Some((*name, *count as u64)),
        Node::Variable(_) | Node::Integer(_) => None,
    }
}

/// What a printed goal calls, if that is known.
pub fn called_by(alloc: Global, text: &[u8]) -> Result<Option<Called>, AllocError> {
    let parsed = parse_print(alloc, text)?;
    let (module, node) = match parsed.nodes.as_slice() {
        [Node::Structure(sign, 2), Node::Atom(module), node, ..]
            if sign.unpacked().as_slice() == b":".as_slice() => { (Some(*module), node) }
        [node, ..] => (None, node),
        [] => return Ok(None),
    };
    Ok(match name_in(node) {
        Some((predicate, arity)) => Some(Called {
            module,
            predicate,
            arity,
        }),
        None => None,
    })
}
