// Brackets that are open.

use kl1_reasons_items::Token;

/// What a bracket opened.
#[derive(Clone, Copy)]
pub(crate) enum Bracket {
    /// The arguments of a name.
    Call,
    /// A term in parentheses.
    Group,
    /// The elements of a list.
    List,
    /// What is after the bar of a list.
    Tail,
}

/// An open bracket.
#[derive(Clone, Copy)]
pub(crate) struct Level {
    pub(crate) bracket: Bracket,
    /// The bracket itself.
    pub(crate) token: Token,
    /// The name before it, of a call, and else the bracket.
    pub(crate) name: Token,
    /// The place of that token.
    pub(crate) place: usize,
    /// How many terms stand in it, the one that is read among them.
    pub(crate) count: u64,
    /// Whether the term in which it stands has a relation already.
    pub(crate) was_related: bool,
    /// Whether the term in which it stands names a module already.
    pub(crate) was_qualified: bool,
}

impl Level {
    /// The bracket that closes this one.
    pub(crate) fn closing(&self) -> &'static [u8] {
        match self.bracket {
            Bracket::Call | Bracket::Group => b")",
            Bracket::List | Bracket::Tail => b"]",
        }
    }

    /// Whether a bracket closes this one: `]` if `is_list`, else `)`.
    pub(crate) fn is_closed_by(&self, is_list: bool) -> bool {
        match self.bracket {
            Bracket::Call | Bracket::Group => !is_list,
            Bracket::List | Bracket::Tail => is_list,
        }
    }
}
