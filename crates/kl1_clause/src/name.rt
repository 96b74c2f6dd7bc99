// A name within a code.

use kl1_model::BuiltIn;

/// A name of the language, or the place of a name in the list of a code, from 0.
#[derive(Clone, Copy)]
pub enum Name {
    Language(BuiltIn),
    Place(u32),
}
