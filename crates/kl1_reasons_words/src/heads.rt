// Heads that can't stand there.

use crate::finding::Say;
use crate::outline::{Outline, Step};
use crate::part::{Main, Part};
use kl1_reasons_items::Token;

/// Names that no head has.
const RESERVED: [&[u8]; 17] = [
    b"=", b"\\=", b":=", b"<", b">", b"=<", b">=", b"=:=", b"=\\=", b"+", b"-", b"*", b"/", b"mod",
    b":", b".", b"[]",
];

/// Whether a name with `count` arguments is that of no user's predicate.
pub fn is_built_in(name: &[u8], count: u64) -> bool {
    match (name, count) {
        (b"true", 0) | (b"otherwise", 0) | (b"atom_from", 2) => true,
        _ => RESERVED.iter().any(|reserved| name == *reserved),
    }
}

impl Outline<'_> {
    /// Tells why a part is no head, if it is none.
    pub(crate) fn check_head(&self, part: &Part) -> Step {
        let Some(token) = self.tokens.get(part.place) else {
            return Ok(None);
        };
        match part.main {
            Main::Name => self.check_head_name(token, part.count),
            Main::Variable => self.say(
                token.start,
                &[
                    Say::Text(b"a clause begins with a name, and "),
                    Say::Text(token.bytes(self.text)),
                    Say::Text(b" is a variable"),
                ],
                &[Say::Text(b"predicates begin with a small letter")],
            ),
            Main::Qualified => self.tell(
                token.start,
                b"a head names no module",
                b"a module defines its own predicates alone",
            ),
            Main::Nothing | Main::Number | Main::List | Main::Group => {
                self.tell(token.start, b"a clause begins with a name", b"")
            }
            Main::Product | Main::Sum | Main::Relation => self.say(
                token.start,
                &[
                    Say::Text(token.bytes(self.text)),
                    Say::Text(b" can't be defined: it is built in"),
                ],
                &[],
            ),
        }
    }

    /// Tells if a name with `count` arguments is no head's.
    fn check_head_name(&self, token: &Token, count: u64) -> Step {
        if !is_built_in(token.name(self.text), count) {
            return Ok(None);
        }
        self.say(
            token.start,
            &[
                Say::Text(token.bytes(self.text)),
                Say::Text(b"/"),
                Say::Number(count),
                Say::Text(b" can't be defined: it is built in"),
            ],
            &[],
        )
    }
}
