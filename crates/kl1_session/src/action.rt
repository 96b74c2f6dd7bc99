// What becomes of an input.

ghost use Rattle.std.specs.Prelude.{◌≡◌, ◌<◌, ℕ};
ghost use Rattle.kl1_session.specs.Asking.{input_view};
ghost use Rattle.kl1_command.specs.Commands.{command_view};
ghost use Rattle.kl1_session.specs.Doors.{action_of, doing};
ghost use Rattle.kl1_session.specs.ActionViews.{action_view, IsOfOne, IsVisitor};

use crate::door::Door;
use crate::input::Input;
use kl1_command::Command;
use kl1_user_events::{Event, Refusal};

/// What becomes of an input.
#[derive(Clone, Copy)]
pub enum Action<'a> {
    /// It is refused for this reason.
    Refuse(Refusal),
    /// It is refused as a login, or since nobody is logged in.
    RefuseLogin,
    /// A session of the account of this number, from 0, begins.
    LogIn(usize),
    /// The session of the account of this number ends.
    LogOut(usize),
    /// This command is done to the account of this number.
    Perform(usize, &'a Command),
}

/// What becomes of an input of one who isn't logged in, or who is, to the account of the number `visitor`, from 0.
pub fn action_of<'a, K: Door>(door: &mut K, visitor: Option<usize>, input: &'a Input) -> Action<'a>
    ensures keys { K.accounts door.new ≡ K.accounts door.old }
    ensures opens { K.opens door.new ≡ K.opens door.old }
    ensures value { action_view result ≡ action_of (K.opens door.old) visitor (input_view input.now) }
    ensures within { IsVisitor (K.accounts door.old) visitor → IsOfOne (K.accounts door.old) result }
{
    match (visitor, input) {
        (_, Input::Refused(refusal)) => Action::Refuse(*refusal),
        (None, Input::Login { name, key }) => {
            match door.open(name.as_slice(), key.as_slice()) {
                None => Action::RefuseLogin,
                Some(number) => Action::LogIn(number),
            }
        }
        (None, Input::Command(_)) => Action::RefuseLogin,
        (Some(_), Input::Login { .. }) => Action::RefuseLogin,
        (Some(number), Input::Command(command)) => action_by(number, command),
    }
}

/// What becomes of a command of one who is logged in to the account of this number.
fn action_by(number: usize, command: &Command) -> Action<'_>
    ensures value { action_view result ≡ doing number (command_view command.now) }
    ensures within { (n : ℕ) → number < n → IsOfOne n result }
{
    match command {
        Command::Does(Event::Login) => Action::RefuseLogin,
        Command::Does(Event::Logout) => Action::LogOut(number),
        _ => Action::Perform(number, command),
    }
}
