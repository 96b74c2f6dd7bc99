// The variables of terms.

ghost use Rattle.std.specs.Prelude.{◌≡◌, map};
ghost use Rattle.kl1_model.specs.Term.{terms_of};
ghost use Rattle.kl1_model.specs.Meaning.{highest, highest_in as highest_of_all, is_numbered, numbered_after};
ghost use Rattle.kl1_term.specs.Nodes.{code_of};
ghost use Rattle.kl1_term.specs.Variables.{highest_in, variables_in};

use crate::node::Node;
use crate::term::Term;

impl Term {
    /// The greatest number of a variable in the term, 0 if it has none.
    #[tactic(auto, using(crate::proofs::VariableFacts::highest_is))]
    pub fn highest(&self) -> u64
        ensures { result ≡ highest self.now }
    {
        find_highest(self.nodes())
    }

    /// Whether the term's variables are numbered from 1 by first occurrence.
    #[tactic(auto, using(crate::proofs::VariableFacts::numbered_is))]
    pub fn is_numbered(&self) -> bool
        ensures { result ≡ is_numbered self.now }
    {
        are_numbered(self.nodes())
    }
}

/// The greatest number of a variable in terms, 0 if they have none.
pub fn highest_among(terms: &[Term]) -> u64
    ensures { result ≡ highest_of_all (terms_of terms.now) }
{
    let mut most = 0;
    for term in terms {
        most = most.max(term.highest());
    }
    most
}

/// The greatest number of a variable among nodes, 0 if there is none.
#[tactic(auto, using(crate::proofs::VariableFacts::next_highest))]
fn find_highest(nodes: &[Node]) -> u64
    ensures { result ≡ highest_in (map code_of nodes.now) }
{
    let mut left = nodes;
    let mut most = 0;
    while let [first, rest @ ..] = left {
        if let Node::Variable(number) = first {
            most = most.max(*number);
        }
        left = rest;
    }
    most
}

/// Whether the variables of nodes are numbered from 1 by first occurrence.
fn are_numbered(nodes: &[Node]) -> bool
    ensures { result ≡ numbered_after 0 (variables_in (map code_of nodes.now)) }
{
    let mut left = nodes;
    let mut seen = 0;
    while let [first, rest @ ..] = left {
        if let Node::Variable(number) = first {
            if *number == 0 || *number - 1 > seen {
                return false;
            }
            seen = seen.max(*number);
        }
        left = rest;
    }
    true
}
