// What the variables of a goal are bound to.

use kl1_term::Node;

/// What a variable of a goal is bound to.
#[derive(Clone, Copy)]
pub struct Binding<'a> {
    /// The nodes of the term, as far as they are known. A variable that is bound to nothing is one node.
    pub nodes: &'a [Node],
    /// Whether these are all its nodes.
    pub is_whole: bool,
}

/// How many of the terms after a node are its arguments.
fn count_of(node: &Node) -> usize {
    match node {
        Node::Structure(_name, count) => *count,
        _ => 0,
    }
}

/// The term with which nodes begin.
fn term_in_front(nodes: &[Node]) -> Binding<'_> {
    let mut waits: usize = 1;
    for (place, node) in nodes.iter().enumerate() {
        if waits == 0 {
            return Binding {
                nodes: nodes.get(..place).unwrap_or(nodes),
                is_whole: true,
            };
        }
        waits = (waits - 1).saturating_add(count_of(node));
    }
    Binding {
        nodes,
        is_whole: waits == 0,
    }
}

/// What the variable of this number of a goal is bound to, as far as the goal's nodes are known now; `None` if nothing is known of it.
pub fn binding_of<'a>(goal: &[Node], now: &'a [Node], number: u64) -> Option<Binding<'a>> {
    let mut rest = now;
    for node in goal {
        let length = match node {
            Node::Variable(other) => {
                let binding = term_in_front(rest);
                if *other == number {
                    return if rest.is_empty() { None } else { Some(binding) };
                }
                binding.nodes.len()
            }
            _ => 1,
        };
        rest = rest.get(length..).unwrap_or(&[]);
    }
    None
}
