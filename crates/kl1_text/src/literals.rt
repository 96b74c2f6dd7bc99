// The bytes of the built-in names.

ghost use Rattle.std.specs.Prelude.{◌≡◌};
ghost use Rattle.kl1_model.specs.Text.{text_of};

use kl1_model::BuiltIn;

/// The bytes of a built-in name.
pub(crate) fn bytes_of(built_in: BuiltIn) -> &'static [u8]
    ensures { result.now ≡ text_of built_in }
{
    match built_in {
        BuiltIn::EmptyList => b"[]",
        BuiltIn::ListCell => b".",
        BuiltIn::Colon => b":",
        BuiltIn::Equal => b"=",
        BuiltIn::NotEqual => b"\\=",
        BuiltIn::Assign => b":=",
        BuiltIn::Less => b"<",
        BuiltIn::Greater => b">",
        BuiltIn::AtMost => b"=<",
        BuiltIn::AtLeast => b">=",
        BuiltIn::SameNumber => b"=:=",
        BuiltIn::OtherNumber => b"=\\=",
        BuiltIn::Plus => b"+",
        BuiltIn::Minus => b"-",
        BuiltIn::Times => b"*",
        BuiltIn::Divide => b"/",
        BuiltIn::Modulo => b"mod",
        BuiltIn::True => b"true",
        BuiltIn::Otherwise => b"otherwise",
        BuiltIn::Wait => b"wait",
        BuiltIn::Integer => b"integer",
        BuiltIn::Atom => b"atom",
        BuiltIn::ListTest => b"list",
        BuiltIn::AtomFrom => b"atom_from",
        BuiltIn::Shoen => b"shoen",
        BuiltIn::Execute => b"execute",
        BuiltIn::Module => b"module",
        BuiltIn::Priority => b"priority",
        BuiltIn::Started => b"started",
        BuiltIn::Stopped => b"stopped",
        BuiltIn::Resumed => b"resumed",
        BuiltIn::Exhausted => b"exhausted",
        BuiltIn::Exception => b"exception",
        BuiltIn::Terminated => b"terminated",
        BuiltIn::Aborted => b"aborted",
        BuiltIn::Failure => b"failure",
        BuiltIn::Overflow => b"overflow",
        BuiltIn::IllegalInput => b"illegal_input",
        BuiltIn::Exhaustion => b"exhaustion",
        BuiltIn::Stop => b"stop",
        BuiltIn::Start => b"start",
        BuiltIn::Abort => b"abort",
        BuiltIn::Allow => b"allow",
    }
}
