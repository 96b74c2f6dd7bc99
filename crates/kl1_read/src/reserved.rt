// Names that no head has.

ghost use Rattle.std.specs.Prelude.{◌≡◌};
ghost use Rattle.kl1_model.specs.Goal.{is_reserved};
ghost use Rattle.kl1_read.specs.Heads.{is_named, may_name_atom, may_name_structure};

use kl1_model::BuiltIn;
use kl1_text::AtomText;

/// The texts of the operators, `:`, `.` and `[]`.
const RESERVED: [BuiltIn; 17] = [
    BuiltIn::Equal,
    BuiltIn::NotEqual,
    BuiltIn::Assign,
    BuiltIn::Less,
    BuiltIn::Greater,
    BuiltIn::AtMost,
    BuiltIn::AtLeast,
    BuiltIn::SameNumber,
    BuiltIn::OtherNumber,
    BuiltIn::Plus,
    BuiltIn::Minus,
    BuiltIn::Times,
    BuiltIn::Divide,
    BuiltIn::Modulo,
    BuiltIn::Colon,
    BuiltIn::ListCell,
    BuiltIn::EmptyList,
];

/// Whether a name is the text of an operator, of `:`, `.` or `[]`.
fn is_reserved(name: &AtomText) -> bool
    ensures { result ≡ is_reserved name.now }
{
    is_named(name, RESERVED.as_slice())
}

/// Whether a name is one of these.
pub(crate) fn is_named(name: &AtomText, names: &[BuiltIn]) -> bool
    ensures { result ≡ is_named name.now names.now }
{
    for built_in in names {
        if name.is(&AtomText::of_built_in(*built_in)) {
            return true;
        }
    }
    false
}

/// Whether a name may be a head without arguments.
pub(crate) fn may_name_atom(name: &AtomText) -> bool
    ensures { result ≡ may_name_atom name.now }
{
    !is_reserved(name) && !name.is(&AtomText::of(b"true")) && !name.is(&AtomText::of(b"otherwise"))
}

/// Whether a name may be that of a head with `count` arguments, from 1.
pub(crate) fn may_name_structure(name: &AtomText, count: usize) -> bool
    ensures { result ≡ may_name_structure name.now count }
{
    !is_reserved(name) && !(name.is(&AtomText::of(b"atom_from")) && count == 2)
}
