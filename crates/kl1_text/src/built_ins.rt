// The built-in names in the order of their places.

ghost use Rattle.std.specs.Prelude.{◌≡◌, slice_get};
ghost use Rattle.kl1_text.specs.BuiltIns.{built_in_at, built_in_of};

use crate::literals::bytes_of;
use kl1_model::BuiltIn;

/// The built-in names in the order of their places.
const BUILT_INS: [BuiltIn; 43] = [
    BuiltIn::EmptyList,
    BuiltIn::ListCell,
    BuiltIn::Colon,
    BuiltIn::Equal,
    BuiltIn::NotEqual,
    BuiltIn::Assign,
    BuiltIn::Less,
    BuiltIn::Greater,
    BuiltIn::AtMost,
    BuiltIn::AtLeast,
    BuiltIn::SameNumber,
    BuiltIn::OtherNumber,
    BuiltIn::Plus,
    BuiltIn::Minus,
    BuiltIn::Times,
    BuiltIn::Divide,
    BuiltIn::Modulo,
    BuiltIn::True,
    BuiltIn::Otherwise,
    BuiltIn::Wait,
    BuiltIn::Integer,
    BuiltIn::Atom,
    BuiltIn::ListTest,
    BuiltIn::AtomFrom,
    BuiltIn::Shoen,
    BuiltIn::Execute,
    BuiltIn::Module,
    BuiltIn::Priority,
    BuiltIn::Started,
    BuiltIn::Stopped,
    BuiltIn::Resumed,
    BuiltIn::Exhausted,
    BuiltIn::Exception,
    BuiltIn::Terminated,
    BuiltIn::Aborted,
    BuiltIn::Failure,
    BuiltIn::Overflow,
    BuiltIn::IllegalInput,
    BuiltIn::Exhaustion,
    BuiltIn::Stop,
    BuiltIn::Start,
    BuiltIn::Abort,
    BuiltIn::Allow,
];

/// The built-in name of these bytes.
pub(crate) fn find_built_in(bytes: &[u8]) -> Option<BuiltIn>
    ensures { result ≡ built_in_of bytes.now }
{
    BUILT_INS
        .iter()
        .copied()
        .find(|built_in| bytes_of(*built_in) == bytes)
}

/// The built-in name at a place.
pub fn built_in_at(place: u32) -> Option<BuiltIn>
    ensures { result ≡ built_in_at place }
{
    at(&BUILT_INS, place as usize)
}

/// The name at a place of a list.
fn at(names: &[BuiltIn], place: usize) -> Option<BuiltIn>
    ensures { result ≡ slice_get names.now place }
{
    names.get(place).copied()
}
