// What a record does to the account that it names, and what is written for it.

ghost use Rattle.std.specs.Prelude.{◌≡◌, ◌++◌, ◌∷◌, ◌<◌, ℕ, List, [], length, IsTrue, OnOk, OnErr};
ghost use Rattle.kl1_model.specs.declared.limits.TheConstants.{MOST_WAITING_BYTES};
ghost use Rattle.kl1_model.specs.Record.{Record as Asked};
ghost use Rattle.kl1_model_server.specs.Command.{act, reply_lines};
ghost use Rattle.kl1_model_server.specs.Script.{are_distinct, written_for, written_reply};
ghost use Rattle.kl1_atoms.specs.Names.{AreNames};
ghost use Rattle.kl1_journal.specs.Keeping.{Reading, Fits, kept_of};
ghost use Rattle.kl1_command.specs.Commands.{command_view};
ghost use Rattle.kl1_lines.specs.Records.{request_of};
ghost use Rattle.kl1_world.specs.Worlds.{account_in};
ghost use Rattle.kl1_script.specs.Alone.{AreAlone};

use crate::accounts::place_in;
use kl1_atoms::AtomSource;
use kl1_codes::CodeSource;
use kl1_command::{Parsed, Performed, command_in, put_lines};
use kl1_lines::Record;
use kl1_user_events::{Refusal, Reply};
use kl1_world::{AccountName, Rules, World};
use std::alloc::{AllocError, Global};

/// Does the command of a record to the account that it names, and puts what is written for it after the bytes. After an `Err` the
/// bytes are as they were, and a run's first steps may be done.
pub(crate) fn put_record<A: AtomSource + Drop, C: CodeSource + Drop>(
    alloc: Global,
    accounts: &[AccountName],
    world: &mut World<A, C>,
    found: Record<'_>,
    out: &mut Vec<u8>,
) -> Result<(), AllocError>
    requires few { length out.old.items < MOST_WAITING_BYTES }
    requires many { length world.old.0 ≡ length accounts.now }
    requires distinct { IsTrue (are_distinct accounts.now) }
    ensures alone { OnOk result ((before : List Asked) → AreAlone accounts.now world.old.0 before → AreAlone accounts.now world.new.0 (before ++ record { name = found.entry.name.now; request = request_of found.entry.request } ∷ [])) }
    ensures reply { OnOk result ((before : List Asked) → AreAlone accounts.now world.old.0 before → out.new.items ≡ out.old.items ++ written_for accounts.now before (record { name = found.entry.name.now; request = request_of found.entry.request })) }
    ensures err { OnErr result (out.new.items ≡ out.old.items) }
    ensures many { length world.new.0 ≡ length world.old.0 }
{
    let Some(account) = place_in(accounts, found.name) else {
        return out.extend_from_slice(b"! account\n");
    };
    let command = match command_in(alloc, Rules::Three, found.request) {
        Ok(Parsed::Command(command)) => command,
        Ok(Parsed::Refused) => {
            return put_lines(out, found.name, &Reply::Refused(Refusal::Syntax));
        }
        Err(error) => return Err(error),
    };
    let performed = world.perform(account, &command);
    // This is called for the fact that it proves: some reading fits the account's names.
    world.shows_names(account);
    match performed {
        Performed::Whole(reply) => put_lines(out, found.name, &reply),
        Performed::Short { steps: _steps } => Err(AllocError),
        Performed::Memory => Err(AllocError),
    }
}
