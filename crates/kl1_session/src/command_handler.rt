// What does the commands of connections.

ghost use Rattle.std.specs.Prelude.{◌≡◌, ◌<◌, ◌++◌, ◌∷◌, [], ℕ, List, codes, OnOk, OnErr};
ghost use Rattle.kl1_model_server.specs.Command.{written_line};
ghost use Rattle.kl1_command.specs.Commands.{command_view};
ghost use Rattle.kl1_session.specs.Conversations.{Done, is_welcome, is_bye};
ghost use Rattle.kl1_session.specs.Replies.{told};

use kl1_command::{Command, Performed, put_reply};
use kl1_user_events::Reply;
use std::alloc::AllocError;

/// What does commands to accounts.
pub trait CommandHandler {
    /// How many accounts there are.
    ghost accounts: { Self → ℕ };

    /// What was done, in order, with what was answered.
    ghost done: { Self → List Done };

    /// What a handler has beside what was done.
    ghost Beside: { Type 0 };

    /// What a handler has beside what was done, which no command changes.
    ghost beside: { Self → Beside };

    /// Does a command to the account of this number, from 0.
    fn act(&mut self, account: usize, command: &Command) -> Performed
        requires { account < accounts self.old }
        ensures accounts { accounts self.new ≡ accounts self.old }
        ensures beside { beside self.new ≡ beside self.old }
        ensures done { done self.new ≡ done self.old ++ record { account = account; command = command_view command.now; answer = result } ∷ [] };
}

/// Whether what was answered to a login lets in.
pub(crate) fn is_welcome(performed: &Performed) -> bool
    ensures { result ≡ is_welcome performed.now }
{
    matches!(performed, Performed::Whole(Reply::Welcome(_)))
}

/// Whether what was answered is that a session was closed.
pub(crate) fn is_bye(performed: &Performed) -> bool
    ensures { result ≡ is_bye performed.now }
{
    matches!(performed, Performed::Whole(Reply::Bye))
}

/// Puts what a session is told of a command after the bytes.
pub(crate) fn put_performed(out: &mut Vec<u8>, performed: &Performed) -> Result<(), AllocError>
    ensures ok { OnOk result (out.new.items ≡ out.old.items ++ told performed.now) }
    ensures err { OnErr result (out.new.items ≡ out.old.items) }
{
    match performed {
        Performed::Whole(reply) => put_reply(out, reply),
        Performed::Short { steps } => put_reply(out, &Reply::Ran(*steps)),
        Performed::Memory => out.extend_from_slice(b"- 10 memory\n"),
    }
}

/// Puts what is told to who is refused as a login, or since nobody is logged in, after the bytes.
pub(crate) fn put_login_refused(out: &mut Vec<u8>) -> Result<(), AllocError>
    ensures ok { OnOk result (out.new.items ≡ out.old.items ++ written_line (codes "- 11 login")) }
    ensures err { OnErr result (out.new.items ≡ out.old.items) }
{
    out.extend_from_slice(b"- 11 login\n")
}
