//! A connection: what its bytes ask for, in whatever pieces they come; who is let in; and what is done and told.
#![tactic(auto)]

ghost use Rattle.kl1_model_server.specs.laws.InputLaws.{CutsAnywhere, CutsInPieces, InputsCutAnywhere};

mod action;
mod command_handler;
mod connection;
mod door;
mod ended;
mod file;
mod found;
mod input;
mod key;
pub mod limits;
mod next;
mod session;
mod texts;

pub use action::{Action, action_of};
pub use command_handler::CommandHandler;
pub use connection::{Disconnect, serve};
pub use door::{Door, Keys};
pub use file::read_keys;
pub use found::{find, is_same_key};
pub use input::Input;
pub use key::Key;
pub use session::Session;

/// What a stream asks for, and its rest, don't depend on the pieces in which it comes. It does nothing: its contract is this
/// law.
pub fn cuts_anywhere()
    ensures two { CutsAnywhere }
    ensures many { CutsInPieces }
    ensures inputs { InputsCutAnywhere }
{}
