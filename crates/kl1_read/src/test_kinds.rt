// Which terms are tests.

ghost use Rattle.std.specs.Prelude.{◌≡◌};
ghost use Rattle.kl1_model.specs.Goal.{is_test};
ghost use Rattle.kl1_read.specs.Heads.{begins_test, is_structure_test};

use crate::reserved::is_named;
use kl1_model::BuiltIn;
use kl1_term::{Node, Term};
use kl1_text::AtomText;

/// The names of tests of one term.
const LOOKS: [BuiltIn; 4] = [
    BuiltIn::Wait,
    BuiltIn::Integer,
    BuiltIn::Atom,
    BuiltIn::ListTest,
];

/// The names of tests of two terms.
const COMPARES: [BuiltIn; 8] = [
    BuiltIn::Equal,
    BuiltIn::NotEqual,
    BuiltIn::Less,
    BuiltIn::Greater,
    BuiltIn::AtMost,
    BuiltIn::AtLeast,
    BuiltIn::SameNumber,
    BuiltIn::OtherNumber,
];

/// Whether a term is a test. No more than its first node is looked at.
#[tactic(auto, using(crate::proofs::TestFronts::test_begins))]
pub(crate) fn is_test(term: &Term) -> bool
    ensures { result ≡ is_test term.now }
{
    begins_test(term.nodes())
}

/// Whether the nodes of a term begin as those of a test do.
fn begins_test(nodes: &[Node]) -> bool
    ensures { result ≡ begins_test nodes.now }
{
    match nodes {
        [] => false,
        [first, _rest @ ..] => match first {
            Node::Atom(name) => name.is(&AtomText::of(b"true")),
            Node::Structure(name, count) => is_structure_test(name, *count),
            _ => false,
        },
    }
}

/// Whether a structure with name `name` and `count` arguments is a test.
fn is_structure_test(name: &AtomText, count: usize) -> bool
    ensures { result ≡ is_structure_test name.now count }
{
    (count == 1 && is_named(name, LOOKS.as_slice()))
        || (count == 2 && is_named(name, COMPARES.as_slice()))
}
