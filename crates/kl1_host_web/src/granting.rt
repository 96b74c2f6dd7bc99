// What is done for a request that is let in.

ghost use Rattle.std.specs.Prelude.{◌≡◌, ◌<◌, [], IfOk};
ghost use Rattle.kl1_command.specs.Commands.{command_view};
ghost use Rattle.kl1_host_door.specs.declared.answer.Cookie.TheVariants.{Kept};
ghost use Rattle.kl1_session.specs.Conversations.{is_welcome, is_bye};
ghost use Rattle.kl1_host_web.specs.Wishes.{wish_view, enter, leave, do_to, load_into, show_of};
ghost use Rattle.kl1_host_web.specs.Telling.{IsView, Grants, Entered, Shows, IsOfOne, IsTold, Tells, IsReply, IsLoad, IsSyntax, Lists, ListsFor, IsOpenedIn, Refuses, Enters, Leaves};

use crate::accounts::Accounts;
use crate::json::{refused, restoring, told_command, told_load, told_name, told_syntax};
use crate::outcome::Outcome;
use crate::pages::{account_page, open_page, shoens_page, waiting_page};
use crate::wish::Wish;
use kl1_command::{Command, Performed};
use kl1_host_door::{Answer, Ask, Cookie, Refusal};
use kl1_user_events::{Event, Query, Reply};
use std::alloc::{AllocError, Global};

/// An answer, if memory was there for it.
fn told(answer: Result<Answer, AllocError>) -> Result<Outcome, AllocError>
    requires { IfOk answer IsView }
    ensures { IfOk result IsTold }
{
    Ok(Outcome::Told(answer?))
}

/// The answer to a request that is refused.
fn refuse(alloc: Global, refusal: Refusal) -> Result<Outcome, AllocError>
    ensures { IfOk result (Refuses refusal) }
{
    Ok(Outcome::Told(refused(alloc, refusal)?))
}

/// Whether what was answered to a login lets in.
fn is_welcome(performed: &Performed) -> bool
    ensures { result ≡ is_welcome performed.now }
{
    matches!(performed, Performed::Whole(Reply::Welcome(_)))
}

/// Whether what was answered is that a session was closed.
fn is_bye(performed: &Performed) -> bool
    ensures { result ≡ is_bye performed.now }
{
    matches!(performed, Performed::Whole(Reply::Bye))
}

/// Lets in by a name and a key.
#[tactic(auto, using(crate::proofs::Wanting::told_opens, crate::proofs::Wanting::tells_opens, crate::proofs::Wanting::refused_opens, crate::proofs::Wanting::enters_refused, crate::proofs::Wanting::enters_later))]
fn enter<A: Accounts>(
    alloc: Global,
    accounts: &mut A,
    name: &[u8],
    key: &[u8],
) -> Result<Outcome, AllocError>
    ensures house { A.house accounts.new ≡ A.house accounts.old }
    ensures within { IfOk result (IsOpenedIn (A.house accounts.old).accounts) }
    ensures grants { Entered ((A.house accounts.old).opens name.now key.now) (A.asked accounts.old) (A.asked accounts.new) result }
{
    let Some(account) = accounts.open(name, key) else {
        return refuse(alloc, Refusal::WrongKey);
    };
    let performed = accounts.act(account, &Command::Does(Event::Login));
    if is_welcome(&performed) {
        return Ok(Outcome::Opens(account));
    }
    match accounts.restoring(account) {
        Some((done, all)) => Ok(Outcome::Told(restoring(alloc, done, all)?)),
        None => refuse(alloc, Refusal::ManySessions),
    }
}

/// Closes a session of an account.
#[tactic(auto, using(crate::proofs::Wanting::told_opens, crate::proofs::Wanting::tells_opens, crate::proofs::Wanting::refused_opens))]
fn leave<A: Accounts>(
    alloc: Global,
    accounts: &mut A,
    account: usize,
) -> Result<Outcome, AllocError>
    requires { account < (A.house accounts.old).accounts }
    ensures house { A.house accounts.new ≡ A.house accounts.old }
    ensures within { IfOk result (IsOpenedIn (A.house accounts.old).accounts) }
    ensures grants { Grants (A.house accounts.old) [] (leave account) (A.asked accounts.old) (A.asked accounts.new) result }
{
    let performed = accounts.act(account, &Command::Does(Event::Logout));
    if is_bye(&performed) {
        // Without memory for the answer the session of the browser ends as well: that of the account is closed.
        Ok(Outcome::Closes(told_command(alloc, &performed, Cookie::Cleared)))
    } else {
        Ok(Outcome::Told(told_command(alloc, &performed, Cookie::Kept)?))
    }
}

/// Does a command to an account.
#[tactic(auto, using(crate::proofs::Wanting::told_opens, crate::proofs::Wanting::tells_opens, crate::proofs::Wanting::refused_opens))]
fn perform<A: Accounts>(
    alloc: Global,
    accounts: &mut A,
    account: usize,
    command: &Command,
) -> Result<Outcome, AllocError>
    requires { account < (A.house accounts.old).accounts }
    ensures house { A.house accounts.new ≡ A.house accounts.old }
    ensures within { IfOk result (IsOpenedIn (A.house accounts.old).accounts) }
    ensures grants { Grants (A.house accounts.old) [] (do_to account (command_view command.now)) (A.asked accounts.old) (A.asked accounts.new) result }
{
    let performed = accounts.act(account, command);
    Ok(Outcome::Told(told_command(alloc, &performed, Cookie::Kept)?))
}

/// Loads a module into an account, and tells why it is refused if it is.
#[tactic(auto, using(crate::proofs::Wanting::told_opens, crate::proofs::Wanting::tells_opens, crate::proofs::Wanting::refused_opens))]
fn load<A: Accounts>(
    alloc: Global,
    accounts: &mut A,
    account: usize,
    source: Vec<u8>,
) -> Result<Outcome, AllocError>
    requires { account < (A.house accounts.old).accounts }
    ensures house { A.house accounts.new ≡ A.house accounts.old }
    ensures within { IfOk result (IsOpenedIn (A.house accounts.old).accounts) }
    ensures grants { Grants (A.house accounts.old) [] (load_into account source.items) (A.asked accounts.old) (A.asked accounts.new) result }
{
    let command = Command::Does(Event::Load { source });
    let performed = accounts.act(account, &command);
    let loaded = match &command {
        Command::Does(Event::Load { source }) => source.as_slice(),
        _ => &[],
    };
    Ok(Outcome::Told(told_load(alloc, &performed, loaded)?))
}

/// Shows something of an account.
#[tactic(auto, using(crate::proofs::Wanting::told_opens, crate::proofs::Wanting::tells_opens, crate::proofs::Wanting::refused_opens))]
fn show<A: Accounts>(
    alloc: Global,
    accounts: &mut A,
    account: usize,
    ask: Ask,
) -> Result<Outcome, AllocError>
    requires { account < (A.house accounts.old).accounts }
    ensures house { A.house accounts.new ≡ A.house accounts.old }
    ensures within { IfOk result (IsOpenedIn (A.house accounts.old).accounts) }
    ensures grants { Grants (A.house accounts.old) [] (show_of account ask) (A.asked accounts.old) (A.asked accounts.new) result }
    ensures lists { Lists A.Viewer.lists account ask result }
{
    match ask {
        Ask::Account => {
            let quiet = accounts.act(account, &Command::Does(Event::Read(Query::Quiet)));
            let modules = accounts.act(account, &Command::Does(Event::Read(Query::Modules)));
            let mut viewer = accounts.look(account);
            let mut name = Vec::new(alloc);
            accounts.put_name(account, &mut name)?;
            told(account_page(alloc, &mut viewer, name.as_slice(), &quiet, &modules))
        }
        Ask::Shoens(from) => {
            let mut viewer = accounts.look(account);
            Ok(Outcome::Told(shoens_page(alloc, &mut viewer, from)?))
        }
        Ask::Waiting => {
            let mut viewer = accounts.look(account);
            told(waiting_page(alloc, &mut viewer))
        }
        _ => {
            let _viewer = accounts.look(account);
            refuse(alloc, Refusal::NoPage)
        }
    }
}

/// Does what is wanted for a request that is let in, of this target.
#[tactic(auto, using(crate::proofs::Wanting::told_opens, crate::proofs::Wanting::tells_opens, crate::proofs::Wanting::refused_opens))]
pub fn grant<A: Accounts>(
    alloc: Global,
    accounts: &mut A,
    wish: Wish,
    target: &[u8],
) -> Result<Outcome, AllocError>
    requires { IsOfOne (A.house accounts.old).accounts (wish_view wish) }
    ensures house { A.house accounts.new ≡ A.house accounts.old }
    ensures within { IfOk result (IsOpenedIn (A.house accounts.old).accounts) }
    ensures grants { Grants (A.house accounts.old) target.now (wish_view wish) (A.asked accounts.old) (A.asked accounts.new) result }
    ensures lists { ListsFor A.Viewer.lists (wish_view wish) result }
{
    match wish {
        Wish::Refuse(refusal) => refuse(alloc, refusal),
        Wish::Syntax => Ok(Outcome::Told(told_syntax(alloc)?)),
        Wish::Enter { name, key } => enter(alloc, accounts, name.as_slice(), key.as_slice()),
        Wish::Leave { account } => leave(alloc, accounts, account),
        Wish::Do { account, command } => perform(alloc, accounts, account, &command),
        Wish::Load { account, source } => load(alloc, accounts, account, source),
        Wish::Tell(account) => Ok(Outcome::Told(told_name(alloc, accounts, account)?)),
        Wish::Show { account, ask } => show(alloc, accounts, account, ask),
        Wish::Open(ask) => Ok(Outcome::Told(open_page(alloc, accounts, ask, target)?)),
    }
}
