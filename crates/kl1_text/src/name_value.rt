// What code over names asks of a name's type.

ghost use Rattle.std.specs.Prelude.{◌≡◌, Decides};
ghost use Rattle.kl1_model.specs.declared.built_in.BuiltIn.{BuiltIn};

use kl1_model::BuiltIn;

/// A type of names: texts, or numbers that stand for texts.
pub trait NameValue: Copy {
    /// The name of each built-in.
    ghost built: { BuiltIn → Self };

    /// The name of a built-in.
    fn of(built_in: BuiltIn) -> Self
        ensures { result ≡ built built_in };

    /// Whether two names are one.
    fn same(&self, other: &Self) -> bool
        ensures { Decides result (self.now ≡ other.now) };
}
