// Files with the sources of modules.

/// A file with the source of a module.
#[derive(Drop)]
pub struct SourceFile {
    /// Its name, as faults tell it.
    pub name: Vec<u8>,
    /// The bytes in it.
    pub text: Vec<u8>,
}
