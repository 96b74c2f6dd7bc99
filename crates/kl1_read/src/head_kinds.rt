// Which terms are heads.

ghost use Rattle.std.specs.Prelude.{◌≡◌};
ghost use Rattle.kl1_model.specs.Goal.{is_head};
ghost use Rattle.kl1_read.specs.Heads.{begins_head};

use crate::reserved::{may_name_atom, may_name_structure};
use kl1_term::{Node, Term};

/// Whether a term is a head, and so a goal of the module in which it stands. No more than its first node is looked at.
#[tactic(auto, using(crate::proofs::HeadFronts::head_begins))]
pub(crate) fn is_head(term: &Term) -> bool
    ensures { result ≡ is_head term.now }
{
    begins_head(term.nodes())
}

/// Whether the nodes of a term begin as those of a head do.
fn begins_head(nodes: &[Node]) -> bool
    ensures { result ≡ begins_head nodes.now }
{
    match nodes {
        [] => false,
        [first, _rest @ ..] => match first {
            Node::Atom(name) => may_name_atom(name),
            Node::Structure(name, count) => may_name_structure(name, *count),
            _ => false,
        },
    }
}
