// A term that is being read.

ghost use Rattle.std.specs.Prelude.{◌≡◌, ◌≢◌, ℕ, ◌≤◌, ◌<◌, true, false, List, [], ◌∷◌, ◌++◌, map, reverse, vec_len, IfOk, OnOk, IsTrue};
ghost use Rattle.kl1_model.specs.Term.{atom, structure, terms_of};
ghost use Rattle.kl1_model.specs.Text.{is_text};
ghost use Rattle.kl1_model.specs.code.TermCode.{nodes_of, nodes_of_all};
ghost use Rattle.kl1_model.specs.Meaning.{Depth, pair, cells, deepest, depth, are_narrow, is_narrow, is_writable, pair_depth};
ghost use Rattle.kl1_model.specs.declared.limits.TheConstants.{MOST_ARGUMENTS, MOST_DEPTH};
ghost use Rattle.kl1_term.specs.declared.node.Node.TheVariants.{Structure};
ghost use Rattle.kl1_term.specs.Nodes.{code_of, term_in};
ghost use Rattle.kl1_read.specs.PieceView.{IsPiece};
ghost use Rattle.kl1_read.specs.Pieces.{writable};
ghost use Rattle.kl1_read.specs.SmallNodes.{node_of};

use crate::small_node::{SmallNode, turned};
use crate::spelling::Spelling;
use kl1_model::limits::{MOST_ARGUMENTS, MOST_DEPTH};
use kl1_term::Term;
use kl1_text::AtomText;
use std::alloc::{AllocError, Global};
use std::marker::Model;

/// A term that a text can write, with its depth, and its depth as what follows the elements of a list.
#[derive(Drop)]
pub(crate) struct Piece {
    /// The nodes, the last one first.
    nodes: Vec<SmallNode>,
    whole: u64,
    rest: u64,
}

impl Model for Piece {
    ghost use Rattle.std.specs.Prelude.{map, reverse};
    ghost use Rattle.kl1_read.specs.SmallNodes.{node_of};
    ghost use Rattle.kl1_model.specs.Term.{Term as TermSpec};
    ghost use Rattle.kl1_model.specs.code.TermCode.{term_code};
    ghost use Rattle.kl1_term.specs.Nodes.{term_in};

    ghost Value = { TermSpec };

    ghost coded = { term_code };

    ghost use Rattle.kl1_read.specs.PieceView.{IsPiece};

    ghost view = { λ a. term_in (reverse (map node_of a.nodes.items)) };

    ghost invariant = { λ a. IsPiece (reverse (map node_of a.nodes.items)) a.whole a.rest };
}

impl Piece {
    /// An atom.
    pub(crate) fn atom(alloc: Global, text: AtomText) -> Result<Self, AllocError>
        ensures { IfOk result (λ piece. piece ≡ atom text) }
    {
        text.shows_text();
        let spelling = Spelling::of(alloc, text)?;
        Piece::leaf(alloc, SmallNode::Atom(spelling))
    }

    /// A term of one node.
    pub(crate) fn leaf(alloc: Global, node: SmallNode) -> Result<Self, AllocError>
        requires { IsPiece (node_of node ∷ []) 1 1 }
        ensures { IfOk result (λ piece. piece ≡ term_in (node_of node ∷ [])) }
    {
        let mut nodes = Vec::with_capacity(alloc, 1)?;
        nodes.push_reserved(node);
        Ok(Piece {
            nodes,
            whole: 1,
            rest: 1,
        })
    }

    /// The structure of two arguments with this name, if a text can write it.
    pub(crate) fn pair(
        name: AtomText,
        first: Piece,
        second: Piece,
    ) -> Result<Option<Self>, AllocError>
        ensures { IfOk result (λ piece. piece ≡ writable (pair name first second)) }
    {
        let Piece {
            nodes: front,
            whole: first_whole,
            rest: _first_rest,
        } = first;
        let Piece {
            nodes: behind,
            whole: second_whole,
            rest: second_rest,
        } = second;
        let (whole, rest) = pair_depth(name, first_whole, second_whole, second_rest);
        if is_too_deep(whole) {
            return Ok(None);
        }
        let (mut nodes, mut front) = (behind, front);
        nodes.append(&mut front)?;
        put_structure(&mut nodes, 2, name)?;
        Ok(Some(Piece { nodes, whole, rest }))
    }

    /// Tells a caller's proof that a text can write the term. It does nothing.
    pub(crate) fn is_written(&self)
        ensures { IsTrue (is_writable self.now) }
    {
        let _nodes = &self.nodes;
    }

    /// The term itself.
    pub(crate) fn into_term(self, alloc: Global) -> Result<Term, AllocError>
        ensures { IfOk result (λ term. term ≡ self) }
    {
        let row = turned(alloc, self.nodes.as_slice())?;
        Ok(Term::of_nodes(row))
    }

    /// How deep the term is.
    pub(crate) fn depth(&self) -> u64
        ensures { result ≡ depth self.now }
    {
        self.whole
    }

    /// Puts the nodes after others, which come before them in the order of reading; gives the depth. If there are no
    /// others, the nodes are not copied.
    fn spill(self, nodes: &mut Vec<SmallNode>) -> Result<u64, AllocError>
        ensures nodes { OnOk result (map code_of (reverse (map node_of nodes.new.items)) ≡ nodes_of self ++ map code_of (reverse (map node_of nodes.old.items))) }
        ensures depth { IfOk result (λ whole. whole ≡ depth self) }
        ensures narrow { IsTrue (is_narrow self) }
        ensures low { depth self ≤ MOST_DEPTH }
    {
        let Piece {
            nodes: mut own,
            whole,
            rest: _rest,
        } = self;
        if nodes.len() == 0 {
            *nodes = own;
            return Ok(whole);
        }
        nodes.append(&mut own)?;
        Ok(whole)
    }

    /// A list of these elements with this after them, if a text can write it.
    pub(crate) fn cells(elements: Vec<Piece>, tail: Piece) -> Result<Option<Self>, AllocError>
        ensures { IfOk result (λ piece. piece ≡ writable (cells (terms_of elements.items) tail)) }
    {
        let Piece {
            mut nodes,
            whole,
            rest,
        } = tail;
        nodes.reserve(room_for(elements.as_slice()))?;
        Piece::put_cells(elements, Piece { nodes, whole, rest })
    }

    /// A list of these elements with this after them, which is put in front of what is after it.
    fn put_cells(elements: Vec<Piece>, tail: Piece) -> Result<Option<Self>, AllocError>
        ensures { IfOk result (λ piece. piece ≡ writable (cells (terms_of elements.items) tail)) }
    {
        let mut elements = elements;
        let mut list = tail;
        while let Some(element) = elements.pop() {
            match Piece::pair(AtomText::of(b"."), element, list)? {
                None => return Ok(None),
                Some(longer) => list = longer,
            }
        }
        // Only for the proof: a text can write the list.
        let _nodes = &list.nodes;
        Ok(Some(list))
    }

    /// The structure of these arguments with this name, if a text can write it.
    pub(crate) fn structure(
        alloc: Global,
        name: AtomText,
        arguments: Vec<Piece>,
    ) -> Result<Option<Self>, AllocError>
        ensures { IfOk result (λ piece. piece ≡ writable (structure name (terms_of arguments.items))) }
    {
        if arguments.len() == 0 {
            return Ok(None);
        }
        if are_too_many(arguments.len()) {
            return Ok(None);
        }
        if arguments.len() == 2 {
            let mut arguments = arguments;
            let second = arguments.pop().unwrap();
            let first = arguments.pop().unwrap();
            return Piece::pair(name, first, second);
        }
        Piece::of_many(alloc, name, arguments)
    }

    /// The structure of one argument, or of more than two.
    fn of_many(
        alloc: Global,
        name: AtomText,
        arguments: Vec<Piece>,
    ) -> Result<Option<Self>, AllocError>
        requires some { 1 ≤ vec_len arguments }
        requires few { vec_len arguments ≤ MOST_ARGUMENTS }
        requires other { vec_len arguments ≢ 2 }
        ensures { IfOk result (λ piece. piece ≡ writable (structure name (terms_of arguments.items))) }
    {
        let count = arguments.len() as u8;
        let mut nodes = Vec::new(alloc);
        let deepest = spill_all(arguments, &mut nodes)?;
        if deepest >= MOST_DEPTH {
            return Ok(None);
        }
        put_structure(&mut nodes, count, name)?;
        Ok(Some(Piece {
            nodes,
            whole: deepest + 1,
            rest: deepest + 1,
        }))
    }
}

/// Puts the nodes of arguments after others, which come before them in the order of reading; gives how deep the deepest
/// is.
fn spill_all(arguments: Vec<Piece>, nodes: &mut Vec<SmallNode>) -> Result<u64, AllocError>
    ensures nodes { OnOk result (map code_of (reverse (map node_of nodes.new.items)) ≡ nodes_of_all (terms_of arguments.items) ++ map code_of (reverse (map node_of nodes.old.items))) }
    ensures depth { IfOk result (λ deep. deep ≡ deepest (terms_of arguments.items)) }
    ensures narrow { OnOk result (IsTrue (are_narrow (terms_of arguments.items))) }
{
    let mut arguments = arguments;
    let mut deepest = 0;
    while let Some(argument) = arguments.pop() {
        let depth = argument.spill(nodes)?;
        deepest = depth.max(deepest);
    }
    Ok(deepest)
}

/// Puts the node of a structure after others.
fn put_structure(nodes: &mut Vec<SmallNode>, count: u8, name: AtomText) -> Result<(), AllocError>
    ensures nodes { OnOk result (map node_of nodes.new.items ≡ map node_of nodes.old.items ++ Structure name count ∷ []) }
    ensures text { IsTrue (is_text name) }
{
    name.shows_text();
    nodes.reserve(1)?;
    let spelling = Spelling::of(*nodes.allocator(), name)?;
    nodes.push_reserved(SmallNode::Structure(count, spelling));
    Ok(())
}

/// Whether no text can write a term that is so deep.
fn is_too_deep(depth: u64) -> bool
    ensures deep { result ≡ true → MOST_DEPTH < depth }
    ensures low { result ≡ false → depth ≤ MOST_DEPTH }
{
    depth > MOST_DEPTH
}

/// Whether no text can write `count` arguments.
fn are_too_many(count: usize) -> bool
    ensures many { result ≡ true → MOST_ARGUMENTS < count }
    ensures few { result ≡ false → count ≤ MOST_ARGUMENTS }
{
    count > MOST_ARGUMENTS
}

/// How many nodes the cells of these elements take.
fn room_for(elements: &[Piece]) -> usize {
    let mut count = elements.len();
    for element in elements {
        count = count.saturating_add(element.nodes.len());
    }
    count
}

/// The depth of a structure of two arguments, and its depth as what follows the elements of a list.
fn pair_depth(name: AtomText, first: u64, second: u64, second_rest: u64) -> (u64, u64)
    requires first_low { first ≤ MOST_DEPTH }
    requires second_low { second ≤ MOST_DEPTH }
    requires rest_low { second_rest ≤ MOST_DEPTH }
    ensures rest_low { result.1 ≤ result.0 }
    ensures value { (first_rest : ℕ) → record { whole = result.0; rest = result.1 } ≡ pair_depth name (record { whole = first; rest = first_rest }) (record { whole = second; rest = second_rest }) }
{
    if name.is(&AtomText::of(b".")) {
        let deepest = first.max(second_rest);
        (deepest + 1, deepest)
    } else {
        let deepest = first.max(second);
        (deepest + 1, deepest + 1)
    }
}
