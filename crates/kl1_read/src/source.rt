// A module as it is read.

use crate::clause_parts::ClauseParts;
use kl1_text::AtomText;

/// A module as it is read from its source: its name, and its clauses in order.
#[derive(Drop)]
pub struct Source {
    pub name: AtomText,
    pub clauses: Vec<ClauseParts>,
}
