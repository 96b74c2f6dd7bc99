// The variables of answers, which tell those of an account by their numbers.

ghost use Rattle.std.specs.Prelude.{◌≡◌, ℕ, List, [], ◌∷◌, map, length, false, None, IsTrue, IfOk, OnOk, MatchOption};
ghost use Rattle.kl1_model.specs.Telling.{is_told_term, told_after, new_among};
ghost use Rattle.kl1_model.specs.Meaning.{variables_of, is_numbered, highest};
ghost use Rattle.kl1_term.specs.Nodes.{code_of};
ghost use Rattle.kl1_term.specs.Telling.{Finds, IsPlaced, anew, anew_in, renumbered_in, untold, untold_number};
ghost use Rattle.kl1_term.specs.Variables.{variables_in};

use crate::node::Node;
use crate::term::Term;
use kl1_model::limits::{FIRST_UNTOLD, NUMBER_LIMIT};
use std::alloc::{AllocError, Global};
use std::collections::HashMap;

/// How many variables that aren't told have occurred after this one, if `seen` had before; `None` if it isn't as a text tells it.
fn told_after(seen: u64, number: u64) -> Option<u64>
    ensures { (vs : List ℕ) → MatchOption result (told_after seen (number ∷ vs) ≡ false) (λ after. told_after seen (number ∷ vs) ≡ told_after after vs) }
{
    if number < FIRST_UNTOLD {
        if number == 0 {
            return None;
        }
        return Some(seen);
    }
    let place = number - FIRST_UNTOLD;
    if place > seen || number >= NUMBER_LIMIT {
        return None;
    }
    Some(seen.max(place + 1))
}

/// Whether the variables of nodes are as a text tells them.
fn are_told(nodes: &[Node]) -> bool
    ensures { result ≡ told_after 0 (variables_in (map code_of nodes.now)) }
{
    let mut left = nodes;
    let mut seen = 0;
    while let [first, rest @ ..] = left {
        if let Node::Variable(number) = first {
            match told_after(seen, *number) {
                None => return false,
                Some(after) => seen = after,
            }
        }
        left = rest;
    }
    true
}

/// The place of a variable among those seen, from 1, which it joins if it is new.
fn place_of(
    places: &mut HashMap<u64, u64>,
    seen: &mut Vec<u64>,
    number: u64,
) -> Result<u64, AllocError>
    requires { Finds places.old seen.old.items }
    ensures { IfOk result (IsPlaced places.new seen.old.items seen.new.items number) }
{
    if let Some(place) = places.get(&number) {
        return Ok(*place);
    }
    let place = seen.len() as u64 + 1;
    places.insert(number, place)?;
    seen.push(number)?;
    Ok(place)
}

impl Term {
    /// Whether the term's variables are as the text of an answer tells them: those that aren't told are numbered from 2^62 by first
    /// occurrence.
    #[tactic(auto, using(crate::proofs::Renumbering::told_is))]
    pub fn is_told(&self) -> bool
        ensures { result ≡ is_told_term self.now }
    {
        are_told(self.nodes())
    }

    /// The term with its variables numbered from 1 by first occurrence; `seen`, which holds nothing, gets the numbers that they had.
    pub fn numbered_anew(&self, alloc: Global, seen: &mut Vec<u64>) -> Result<Term, AllocError>
        requires { seen.old.items ≡ [] }
        ensures seen { OnOk result (seen.new.items ≡ new_among None [] (variables_of self.now)) }
        ensures term { IfOk result (λ t. t ≡ anew seen.new.items self.now) }
        ensures numbered { IfOk result (λ t. IsTrue (is_numbered t)) }
        ensures highest { IfOk result (λ t. highest t ≡ length seen.new.items) }
    {
        let nodes = anew_nodes(alloc, self.nodes(), seen)?;
        Ok(Term::of_nodes(nodes))
    }

    /// The term, whose variables are numbered from 1, with them as those that an answer doesn't tell: numbered from 2^62. One beyond 2^63
    /// is as if memory was refused: no term of a text has it.
    pub fn untold(&self, alloc: Global) -> Result<Term, AllocError>
        ensures { IfOk result (λ t. t ≡ untold self.now) }
    {
        let nodes = untold_nodes(alloc, self.nodes())?;
        Ok(Term::of_nodes(nodes))
    }
}

/// The nodes of a term with its variables numbered from 1 by first occurrence; `seen`, which holds nothing, gets the numbers that they had.
fn anew_nodes(alloc: Global, nodes: &[Node], seen: &mut Vec<u64>) -> Result<Vec<Node>, AllocError>
    requires { seen.old.items ≡ [] }
    ensures seen { OnOk result (seen.new.items ≡ new_among None [] (variables_in (map code_of nodes.now))) }
    ensures nodes { IfOk result (λ ns. map code_of ns.items ≡ anew_in seen.new.items (map code_of nodes.now)) }
{
    let mut out = Vec::with_capacity(alloc, nodes.len())?;
    let mut places = HashMap::new(alloc);
    let mut left = nodes;
    while let [first, rest @ ..] = left {
        let node = match first {
            Node::Variable(number) => Node::Variable(place_of(&mut places, seen, *number)?),
            other => *other,
        };
        out.push_reserved(node);
        left = rest;
    }
    Ok(out)
}

/// The number of a variable, which is numbered from 1, as one that an answer doesn't tell.
fn untold_number(number: u64) -> Result<u64, AllocError>
    ensures { IfOk result (λ n. n ≡ untold_number number) }
{
    if number > NUMBER_LIMIT {
        return Err(AllocError);
    }
    Ok(FIRST_UNTOLD + number.saturating_sub(1))
}

/// The nodes of a term, whose variables are numbered from 1, with them as those that an answer doesn't tell.
fn untold_nodes(alloc: Global, nodes: &[Node]) -> Result<Vec<Node>, AllocError>
    ensures { IfOk result (λ ns. map code_of ns.items ≡ renumbered_in untold_number (map code_of nodes.now)) }
{
    let mut out = Vec::with_capacity(alloc, nodes.len())?;
    let mut left = nodes;
    while let [first, rest @ ..] = left {
        let node = match first {
            Node::Variable(number) => Node::Variable(untold_number(*number)?),
            other => *other,
        };
        out.push_reserved(node);
        left = rest;
    }
    Ok(out)
}
