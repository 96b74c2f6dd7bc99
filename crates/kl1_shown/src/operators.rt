// The operators that may stand between their operands.

use kl1_model::BuiltIn;
use kl1_text::AtomText;

/// How tightly a term holds together that stands among operators, the tightest first.
#[derive(Clone, Copy)]
pub(crate) enum Level {
    /// A variable, a constant, a structure with its name in front, a list, or whatever stands in parentheses.
    Primary,
    /// A module's name and a structure, with a colon between them.
    Part,
    /// A product.
    Product,
    /// A sum.
    Sum,
    /// Two sums with a relation between them.
    Relation,
}

impl Level {
    /// Its place among them, the tightest having the least.
    fn place(self) -> u8 {
        match self {
            Level::Primary => 0,
            Level::Part => 1,
            Level::Product => 2,
            Level::Sum => 3,
            Level::Relation => 4,
        }
    }

    /// Whether a term of this level may stand where one of the other may.
    pub(crate) fn fits(self, other: Level) -> bool {
        self.place() <= other.place()
    }
}

/// An operator: how it is written, its level, and those of its operands.
#[derive(Clone, Copy)]
pub(crate) struct Operator {
    pub(crate) text: &'static [u8],
    pub(crate) level: Level,
    pub(crate) left: Level,
    pub(crate) right: Level,
}

/// An operator between two sums.
fn relation(text: &'static [u8]) -> Operator {
    Operator {
        text,
        level: Level::Relation,
        left: Level::Sum,
        right: Level::Sum,
    }
}

/// An operator after a sum and before a product.
fn sum(text: &'static [u8]) -> Operator {
    Operator {
        text,
        level: Level::Sum,
        left: Level::Sum,
        right: Level::Product,
    }
}

/// An operator after a product and before a part.
fn product(text: &'static [u8]) -> Operator {
    Operator {
        text,
        level: Level::Product,
        left: Level::Product,
        right: Level::Part,
    }
}

/// The operator that a structure of two arguments of this name is, if it is one.
pub(crate) fn operator_of(name: &AtomText) -> Option<Operator> {
    Some(match name.built_in()? {
        BuiltIn::Equal => relation(b" = "),
        BuiltIn::NotEqual => relation(b" \\= "),
        BuiltIn::Assign => relation(b" := "),
        BuiltIn::Less => relation(b" < "),
        BuiltIn::Greater => relation(b" > "),
        BuiltIn::AtMost => relation(b" =< "),
        BuiltIn::AtLeast => relation(b" >= "),
        BuiltIn::SameNumber => relation(b" =:= "),
        BuiltIn::OtherNumber => relation(b" =\\= "),
        BuiltIn::Plus => sum(b" + "),
        BuiltIn::Minus => sum(b" - "),
        BuiltIn::Times => product(b" * "),
        BuiltIn::Divide => product(b" / "),
        BuiltIn::Modulo => product(b" mod "),
        _ => return None,
    })
}
