// What a unification binds, as far as it is seen in its two sides.

use kl1_term::Node;
use std::alloc::{AllocError, Global};

/// A variable that is bound, and the term to which it is.
#[derive(Clone, Copy)]
pub struct Binding<'a> {
    pub variable: u64,
    pub value: &'a [Node],
}

/// The term with which nodes begin, and what is after it.
pub fn split_term(nodes: &[Node]) -> (&[Node], &[Node]) {
    let mut waits: usize = 1;
    for (place, node) in nodes.iter().enumerate() {
        if waits == 0 {
            return (
                nodes.get(..place).unwrap_or(nodes),
                nodes.get(place..).unwrap_or(&[]),
            );
        }
        waits = (waits - 1).saturating_add(count_of(node));
    }
    (nodes, &[])
}

/// How many of the terms after a node are its arguments.
fn count_of(node: &Node) -> usize {
    match node {
        Node::Structure(_name, count) => *count,
        _ => 0,
    }
}

/// Whether two nodes are the same atom, integer, or name of a structure with as many arguments.
fn is_alike(one: &Node, other: &Node) -> bool {
    match (one, other) {
        (Node::Atom(first), Node::Atom(second)) => first == second,
        (Node::Integer(first), Node::Integer(second)) => first == second,
        (Node::Structure(first, count), Node::Structure(second, others)) => {
            first == second && count == others
        }
        _ => false,
    }
}

/// What is bound if two terms are made equal, each place for itself, up to the first at which they differ.
pub fn equated<'a>(
    alloc: Global,
    left: &'a [Node],
    right: &'a [Node],
) -> Result<Vec<Binding<'a>>, AllocError> {
    let mut all = Vec::new(alloc);
    let mut one = left;
    let mut other = right;
    // Each round takes a node of the left side at least.
    for _ in left {
        let (value, rest) = split_term(one);
        let (term, more) = split_term(other);
        match (one, other) {
            ([Node::Variable(first), ..], [Node::Variable(second), ..]) => {
                // Of two variables the later one is bound to the other.
                if first < second {
                    all.push(Binding {
                        variable: *second,
                        value,
                    })?;
                } else if second < first {
                    all.push(Binding {
                        variable: *first,
                        value: term,
                    })?;
                }
                one = rest;
                other = more;
            }
            ([Node::Variable(first), ..], [_, ..]) => {
                all.push(Binding {
                    variable: *first,
                    value: term,
                })?;
                one = rest;
                other = more;
            }
            ([_, ..], [Node::Variable(second), ..]) => {
                all.push(Binding {
                    variable: *second,
                    value,
                })?;
                one = rest;
                other = more;
            }
            ([first, ones @ ..], [second, others @ ..]) if is_alike(first, second) => {
                one = ones;
                other = others;
            }
            _ => return Ok(all),
        }
    }
    Ok(all)
}
