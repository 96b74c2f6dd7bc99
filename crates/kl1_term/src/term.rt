// Terms.

ghost use Rattle.std.specs.Prelude.{◌≡◌, ℕ, ◌≤◌, List, ◌++◌, length, map, IfOk, OnOk};
ghost use Rattle.kl1_model.specs.Term.{Term as TermSpec, variable, integer, atom, structure, terms_of};
ghost use Rattle.kl1_model.specs.code.TermCode.{nodes_of, nodes_of_all};
ghost use Rattle.kl1_model.specs.Meaning.{cells};
ghost use Rattle.kl1_model.specs.declared.limits.TheConstants.{MOST_ARGUMENTS};
ghost use Rattle.kl1_term.specs.Nodes.{code_of, term_in, IsTerm, cell_nodes};

use crate::node::Node;
use kl1_text::AtomText;
use std::alloc::{AllocError, Global};
use std::marker::Model;

/// A term, kept as its nodes in the order of reading: however long its lists and however deep it is, it is one row in memory.
#[derive(Drop)]
pub struct Term {
    nodes: Vec<Node>,
}

impl Model for Term {
    ghost use Rattle.kl1_model.specs.Term.{Term as TermSpec};
    ghost use Rattle.kl1_model.specs.code.TermCode.{term_code};

    ghost Value = { TermSpec };

    ghost coded = { term_code };

    ghost use Rattle.kl1_term.specs.Nodes.{term_in, IsTerm};

    ghost view = { λ t. term_in t.nodes.items };

    ghost invariant = { λ t. IsTerm t.nodes.items };
}

impl Term {
    /// The variable with number `number`.
    pub fn variable(alloc: Global, number: u64) -> Result<Self, AllocError>
        ensures { IfOk result (λ t. t ≡ variable number) }
    {
        Ok(Term {
            nodes: Vec::from_slice(alloc, &[Node::Variable(number)])?,
        })
    }

    /// An integer.
    pub fn integer(alloc: Global, number: i64) -> Result<Self, AllocError>
        ensures { IfOk result (λ t. t ≡ integer number) }
    {
        Ok(Term {
            nodes: Vec::from_slice(alloc, &[Node::Integer(number)])?,
        })
    }

    /// An atom.
    pub fn atom(alloc: Global, name: AtomText) -> Result<Self, AllocError>
        ensures { IfOk result (λ t. t ≡ atom name) }
    {
        Ok(Term {
            nodes: Vec::from_slice(alloc, &[Node::Atom(name)])?,
        })
    }

    /// The nodes in the order of reading: a structure's name stands before the nodes of its arguments.
    pub fn nodes(&self) -> &[Node]
        ensures { map code_of result.now ≡ nodes_of self.now }
    {
        &self.nodes
    }

    /// The term of nodes in the order of reading.
    #[tactic(auto, using(crate::proofs::Rows::term_is, crate::proofs::Rows::one_term))]
    pub fn of_nodes(nodes: Vec<Node>) -> Self
        requires { (t : TermSpec) × (map code_of nodes.items ≡ nodes_of t) }
        ensures { (t : TermSpec) → map code_of nodes.items ≡ nodes_of t → result ≡ t }
    {
        Term { nodes }
    }

    /// The structure of a name and arguments.
    pub fn structure(alloc: Global, name: AtomText, arguments: &[Term]) -> Result<Self, AllocError>
        requires few { 1 ≤ length arguments.now }
        requires many { length arguments.now ≤ MOST_ARGUMENTS }
        ensures { IfOk result (λ t. t ≡ structure name (terms_of arguments.now)) }
    {
        let mut nodes = Vec::from_slice(alloc, &[Node::Structure(name, arguments.len())])?;
        put_each(&mut nodes, arguments)?;
        Ok(Term::of_nodes(nodes))
    }

    /// The list of elements with a tail after them.
    pub fn list(alloc: Global, elements: &[Term], tail: &Term) -> Result<Self, AllocError>
        ensures { IfOk result (λ t. t ≡ cells (terms_of elements.now) tail.now) }
    {
        let mut nodes = Vec::new(alloc);
        put_cells(&mut nodes, elements)?;
        nodes.extend_from_slice(tail.nodes())?;
        Ok(Term::of_nodes(nodes))
    }
}

impl Clone for Term {
    ghost is_clone = { λ t u. u ≡ t };

    fn clone(&self) -> Result<Self, AllocError> {
        Ok(Term {
            nodes: Vec::from_slice(*self.nodes.allocator(), &self.nodes)?,
        })
    }
}

/// Puts the nodes of each term after the others.
#[tactic(auto, using(crate::proofs::Rows::next_nodes))]
fn put_each(nodes: &mut Vec<Node>, terms: &[Term]) -> Result<(), AllocError>
    ensures { OnOk result (map code_of nodes.new.items ≡ map code_of nodes.old.items ++ nodes_of_all (terms_of terms.now)) }
{
    let mut terms = terms;
    while let [first, rest @ ..] = terms {
        nodes.extend_from_slice(first.nodes())?;
        terms = rest;
    }
    Ok(())
}

/// Puts after the others, for each term, the node of a list cell and the nodes of the term.
#[tactic(auto, using(crate::proofs::Rows::next_cell))]
fn put_cells(nodes: &mut Vec<Node>, terms: &[Term]) -> Result<(), AllocError>
    ensures { OnOk result (map code_of nodes.new.items ≡ map code_of nodes.old.items ++ cell_nodes (terms_of terms.now)) }
{
    let mut terms = terms;
    while let [first, rest @ ..] = terms {
        nodes.push(Node::Structure(AtomText::of(b"."), 2))?;
        nodes.extend_from_slice(first.nodes())?;
        terms = rest;
    }
    Ok(())
}
