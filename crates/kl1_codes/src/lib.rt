//! Compiled modules that accounts share: the code of a source, which is compiled once and stays; and the modules of an account,
//! references to codes with the numbers of their names, found by name and number of arguments.
#![tactic(auto)]

mod code_source;
mod code_table;
mod coded_module;
mod coded_modules;
mod hints;
mod indexing;
mod loaded;
mod modules;
mod place;
mod plain_codes;
mod shared_codes;
mod span;

pub use code_source::CodeSource;
pub use code_table::CodeTable;
pub use coded_module::CodedModule;
pub use coded_modules::CodedModules;
pub use loaded::{Loaded, number_by};
pub use modules::Modules;
pub use place::Located;
pub use plain_codes::PlainCodes;
pub use shared_codes::SharedCodes;
