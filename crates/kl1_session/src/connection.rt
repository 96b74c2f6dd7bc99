// One connection.

ghost use Rattle.std.specs.Prelude.{◌≡◌, ◌<◌, ◌≤◌, ℕ, [], ◌∷◌, length, map, OnOk, OnErr, IsErr, Ok};
ghost use Rattle.std.specs.Io.KnownBytes.{Appends};
ghost use Rattle.kl1_lines.specs.Devices.{AppendsFront, PassesOn};
ghost use Rattle.kl1_model_server.specs.Inputs.{inputs};
ghost use Rattle.kl1_command.specs.Commands.{command_view};
ghost use Rattle.kl1_session.specs.Asking.{input_view};
ghost use Rattle.kl1_session.specs.Doors.{action_of, log_in, log_out, perform};
ghost use Rattle.kl1_session.specs.ActionViews.{IsVisitor};
ghost use Rattle.kl1_session.specs.Connections.{Serves, Connects, GoesOrEnds, Talks, Tells, Takes, fresh, standing};

use crate::action::{Action, action_of};
use crate::command_handler::{
    CommandHandler, is_bye, is_welcome, put_login_refused, put_performed,
};
use crate::door::Door;
use crate::input::Input;
use crate::session::Session;
use kl1_command::{Command, put_reply};
use kl1_lines::{DeviceFailed, Sink, Source, finish, pass_on};
use kl1_model::Rules;
use kl1_user_events::{Event, Reply};
use std::alloc::{AllocError, Global};

/// How a connection ended.
#[derive(Clone, Copy)]
pub enum Disconnect {
    /// By a logout.
    Bye,
    /// By the end of what came in.
    Ended,
    /// A read or a write failed, or memory was refused outside the handler.
    Fault,
}

/// How inputs were answered.
#[derive(Clone, Copy)]
enum Answered {
    /// All of them.
    All,
    /// Up to a logout.
    Bye,
    /// Up to one at which a write failed, or for whose reply memory was refused.
    Fault,
}

/// Who is connected.
#[derive(Drop)]
struct ConnectionState {
    /// The number of the account to which they are logged in, from 0.
    account: Option<usize>,
    /// The replies that aren't written yet.
    replies: Vec<u8>,
}

/// Serves one connection of whom `door` lets in, to accounts of these rules, which comes in pieces of at most the length of `buffer`. A
/// session that is still open at its end is closed.
pub fn serve<S: Source, T: Sink, D: CommandHandler, K: Door>(
    alloc: Global,
    rules: Rules,
    source: &mut S,
    sink: &mut T,
    handler: &mut D,
    door: &mut K,
    buffer: &mut [u8],
) -> Disconnect
    requires { K.accounts door.old ≤ D.accounts handler.old }
    ensures accounts { D.accounts handler.new ≡ D.accounts handler.old }
    ensures beside { D.beside handler.new ≡ D.beside handler.old }
    ensures keys { K.accounts door.new ≡ K.accounts door.old }
    ensures opens { K.opens door.new ≡ K.opens door.old }
    ensures serves { Serves rules (K.opens door.old) (length buffer.old) result (S.remaining source.old) (S.remaining source.new) (T.contents sink.old) (T.contents sink.new) (D.done handler.old) (D.done handler.new) }
{
    let mut state = ConnectionState {
        account: None,
        replies: Vec::new(alloc),
    };
    let served = converse(
        alloc, rules, source, sink, handler, door, buffer, &mut state,
    );
    if let Some(account) = state.account {
        let _ = handler.act(account, &Command::Does(Event::Logout));
    }
    served
}

/// Like `serve`, but a session that is still open at the end stays so.
fn converse<S: Source, T: Sink, D: CommandHandler, K: Door>(
    alloc: Global,
    rules: Rules,
    source: &mut S,
    sink: &mut T,
    handler: &mut D,
    door: &mut K,
    buffer: &mut [u8],
    state: &mut ConnectionState,
) -> Disconnect
    requires handler { K.accounts door.old ≤ D.accounts handler.old }
    requires fresh { (state.old.account ≡ None) × (state.old.replies.items ≡ []) }
    ensures handler { D.accounts handler.new ≡ D.accounts handler.old }
    ensures beside { D.beside handler.new ≡ D.beside handler.old }
    ensures keys { K.accounts door.new ≡ K.accounts door.old }
    ensures opens { K.opens door.new ≡ K.opens door.old }
    ensures visitor { IsVisitor (K.accounts door.new) state.new.account }
    ensures talk { Connects rules (K.opens door.old) (length buffer.old) result [] (S.remaining source.old) (S.remaining source.new) (standing (T.contents sink.old) (D.done handler.old) state.old) (standing (T.contents sink.new) (D.done handler.new) state.new) }
{
    let mut session = Session::new(alloc);
    for _ in 0..u64::MAX {
        let ended = serve_piece(
            rules,
            source,
            sink,
            handler,
            door,
            buffer,
            &mut session,
            state,
        );
        if let Some(served) = ended {
            return served;
        }
    }
    Disconnect::Fault
}

/// Reads a piece, answers its inputs and writes the replies; answers how the connection ended, if it did.
fn serve_piece<S: Source, T: Sink, D: CommandHandler, K: Door>(
    rules: Rules,
    source: &mut S,
    sink: &mut T,
    handler: &mut D,
    door: &mut K,
    buffer: &mut [u8],
    session: &mut Session,
    state: &mut ConnectionState,
) -> Option<Disconnect>
    requires handler { K.accounts door.old ≤ D.accounts handler.old }
    requires visitor { IsVisitor (K.accounts door.old) state.old.account }
    requires empty { state.old.replies.items ≡ [] }
    requires quiet { inputs rules session.old ≡ [] }
    ensures handler { D.accounts handler.new ≡ D.accounts handler.old }
    ensures beside { D.beside handler.new ≡ D.beside handler.old }
    ensures keys { K.accounts door.new ≡ K.accounts door.old }
    ensures opens { K.opens door.new ≡ K.opens door.old }
    ensures visitor { IsVisitor (K.accounts door.new) state.new.account }
    ensures room { length buffer.new ≡ length buffer.old }
    ensures talk { GoesOrEnds rules (K.opens door.old) (length buffer.old) result session.old session.new (S.remaining source.old) (S.remaining source.new) (standing (T.contents sink.old) (D.done handler.old) state.old) (standing (T.contents sink.new) (D.done handler.new) state.new) }
{
    let Ok(count) = source.read(buffer) else {
        return Some(Disconnect::Fault);
    };
    if count == 0 {
        return Some(Disconnect::Ended);
    }
    let Ok(inputs) = session.feed(rules, &buffer[..count]) else {
        return Some(Disconnect::Fault);
    };
    match answer_piece(sink, handler, door, inputs.as_slice(), state) {
        Answered::All => None,
        Answered::Bye => Some(Disconnect::Bye),
        Answered::Fault => Some(Disconnect::Fault),
    }
}

/// Answers the inputs of a piece, and writes all replies.
fn answer_piece<T: Sink, D: CommandHandler, K: Door>(
    sink: &mut T,
    handler: &mut D,
    door: &mut K,
    inputs: &[Input],
    state: &mut ConnectionState,
) -> Answered
    requires handler { K.accounts door.old ≤ D.accounts handler.old }
    requires visitor { IsVisitor (K.accounts door.old) state.old.account }
    ensures handler { D.accounts handler.new ≡ D.accounts handler.old }
    ensures beside { D.beside handler.new ≡ D.beside handler.old }
    ensures keys { K.accounts door.new ≡ K.accounts door.old }
    ensures opens { K.opens door.new ≡ K.opens door.old }
    ensures visitor { IsVisitor (K.accounts door.new) state.new.account }
    ensures talk { Tells (K.opens door.old) (map input_view inputs.now) result (standing (T.contents sink.old) (D.done handler.old) state.old) (standing (T.contents sink.new) (D.done handler.new) state.new) }
{
    match answer_all(sink, handler, door, inputs, state) {
        Answered::All => match send(sink, &mut state.replies) {
            Ok(()) => Answered::All,
            Err(_) => Answered::Fault,
        },
        Answered::Bye => match send(sink, &mut state.replies) {
            Ok(()) => Answered::Bye,
            Err(_) => Answered::Fault,
        },
        Answered::Fault => Answered::Fault,
    }
}

/// Answers inputs one after another, up to a logout or a fault.
fn answer_all<T: Sink, D: CommandHandler, K: Door>(
    sink: &mut T,
    handler: &mut D,
    door: &mut K,
    inputs: &[Input],
    state: &mut ConnectionState,
) -> Answered
    requires handler { K.accounts door.old ≤ D.accounts handler.old }
    requires visitor { IsVisitor (K.accounts door.old) state.old.account }
    ensures handler { D.accounts handler.new ≡ D.accounts handler.old }
    ensures beside { D.beside handler.new ≡ D.beside handler.old }
    ensures keys { K.accounts door.new ≡ K.accounts door.old }
    ensures opens { K.opens door.new ≡ K.opens door.old }
    ensures visitor { IsVisitor (K.accounts door.new) state.new.account }
    ensures talk { Talks (K.opens door.old) (map input_view inputs.now) result (standing (T.contents sink.old) (D.done handler.old) state.old) (standing (T.contents sink.new) (D.done handler.new) state.new) }
{
    for input in inputs {
        match answer_next(sink, handler, door, input, state) {
            Answered::All => {}
            Answered::Bye => return Answered::Bye,
            Answered::Fault => return Answered::Fault,
        }
    }
    Answered::All
}

/// Answers one input, and writes the replies if they are many, or if the input may take long. What was done before is told, also if
/// memory is refused.
fn answer_next<T: Sink, D: CommandHandler, K: Door>(
    sink: &mut T,
    handler: &mut D,
    door: &mut K,
    input: &Input,
    state: &mut ConnectionState,
) -> Answered
    requires handler { K.accounts door.old ≤ D.accounts handler.old }
    requires visitor { IsVisitor (K.accounts door.old) state.old.account }
    ensures handler { D.accounts handler.new ≡ D.accounts handler.old }
    ensures beside { D.beside handler.new ≡ D.beside handler.old }
    ensures keys { K.accounts door.new ≡ K.accounts door.old }
    ensures opens { K.opens door.new ≡ K.opens door.old }
    ensures visitor { IsVisitor (K.accounts door.new) state.new.account }
    ensures talk { Talks (K.opens door.old) (input_view input.now ∷ []) result (standing (T.contents sink.old) (D.done handler.old) state.old) (standing (T.contents sink.new) (D.done handler.new) state.new) }
{
    if send_before(sink, input, &mut state.replies).is_err() {
        return Answered::Fault;
    }
    match answer(handler, door, input, state) {
        Ok(true) => Answered::Bye,
        Ok(false) => match pass_on(sink, &mut state.replies) {
            Ok(()) => Answered::All,
            Err(_) => Answered::Fault,
        },
        Err(_) => {
            let _ = send(sink, &mut state.replies);
            Answered::Fault
        }
    }
}

/// Writes the replies that wait if the next input asks for a run, so that no reply that is known waits for a long command.
fn send_before<T: Sink>(
    sink: &mut T,
    input: &Input,
    replies: &mut Vec<u8>,
) -> Result<(), DeviceFailed>
    ensures sent { OnOk result (PassesOn (T.contents sink.old) (T.contents sink.new) replies.old.items replies.new.items) }
    ensures front { OnErr result (AppendsFront (T.contents sink.old) (T.contents sink.new) replies.old.items) }
{
    if is_run(input) {
        send(sink, replies)
    } else {
        Ok(())
    }
}

/// Whether an input asks for a run.
fn is_run(input: &Input) -> bool {
    matches!(input, Input::Command(Command::Run(_)))
}

/// Writes the replies that wait, if there are any, and empties them.
fn send<T: Sink>(sink: &mut T, replies: &mut Vec<u8>) -> Result<(), DeviceFailed>
    ensures sent { OnOk result (Appends (T.contents sink.old) (T.contents sink.new) replies.old.items) }
    ensures front { OnErr result (AppendsFront (T.contents sink.old) (T.contents sink.new) replies.old.items) }
    ensures empty { replies.new.items ≡ [] }
{
    if replies.is_empty() {
        return Ok(());
    }
    let written = finish(sink, replies.as_slice());
    replies.clear();
    written
}

/// Answers one input, and tells whether it was a logout that was done. After an `Err` the reply isn't put.
fn answer<D: CommandHandler, K: Door>(
    handler: &mut D,
    door: &mut K,
    input: &Input,
    state: &mut ConnectionState,
) -> Result<bool, AllocError>
    requires handler { K.accounts door.old ≤ D.accounts handler.old }
    requires visitor { IsVisitor (K.accounts door.old) state.old.account }
    ensures handler { D.accounts handler.new ≡ D.accounts handler.old }
    ensures beside { D.beside handler.new ≡ D.beside handler.old }
    ensures keys { K.accounts door.new ≡ K.accounts door.old }
    ensures opens { K.opens door.new ≡ K.opens door.old }
    ensures visitor { IsVisitor (K.accounts door.new) state.new.account }
    ensures takes { Takes (action_of (K.opens door.old) state.old.account (input_view input.now)) result (D.done handler.old) (D.done handler.new) state.old state.new }
{
    match action_of(door, state.account, input) {
        Action::Refuse(refusal) => told_as(
            put_reply(&mut state.replies, &Reply::Refused(refusal)),
            false,
        ),
        Action::RefuseLogin => told_as(put_login_refused(&mut state.replies), false),
        Action::LogIn(account) => log_in(handler, account, state),
        Action::LogOut(account) => log_out(handler, account, state),
        Action::Perform(account, command) => perform(handler, account, command, state),
    }
}

/// This, if the text was put.
fn told_as(put: Result<(), AllocError>, is_last: bool) -> Result<bool, AllocError>
    ensures ok { OnOk put (result ≡ Ok is_last) }
    ensures err { OnErr put (IsErr result) }
{
    put?;
    Ok(is_last)
}

/// Does a command to an account, and puts what is told.
fn perform<D: CommandHandler>(
    handler: &mut D,
    account: usize,
    command: &Command,
    state: &mut ConnectionState,
) -> Result<bool, AllocError>
    requires { account < D.accounts handler.old }
    ensures handler { D.accounts handler.new ≡ D.accounts handler.old }
    ensures beside { D.beside handler.new ≡ D.beside handler.old }
    ensures visitor { state.new.account ≡ state.old.account }
    ensures takes { Takes (perform account (command_view command.now)) result (D.done handler.old) (D.done handler.new) state.old state.new }
{
    let performed = handler.act(account, command);
    told_as(put_performed(&mut state.replies, &performed), false)
}

/// Opens a session of an account. If that is refused, the visitor stays out.
fn log_in<D: CommandHandler>(
    handler: &mut D,
    account: usize,
    state: &mut ConnectionState,
) -> Result<bool, AllocError>
    requires { account < D.accounts handler.old }
    ensures handler { D.accounts handler.new ≡ D.accounts handler.old }
    ensures beside { D.beside handler.new ≡ D.beside handler.old }
    ensures visitor { (n : ℕ) → account < n → IsVisitor n state.old.account → IsVisitor n state.new.account }
    ensures takes { Takes (log_in account) result (D.done handler.old) (D.done handler.new) state.old state.new }
{
    let answer = handler.act(account, &Command::Does(Event::Login));
    if is_welcome(&answer) {
        state.account = Some(account);
    }
    told_as(put_performed(&mut state.replies, &answer), false)
}

/// Closes the session of an account, and tells whether that was done. The visitor is out before the reply is put, so that no session
/// is closed twice.
fn log_out<D: CommandHandler>(
    handler: &mut D,
    account: usize,
    state: &mut ConnectionState,
) -> Result<bool, AllocError>
    requires { account < D.accounts handler.old }
    ensures handler { D.accounts handler.new ≡ D.accounts handler.old }
    ensures beside { D.beside handler.new ≡ D.beside handler.old }
    ensures visitor { (n : ℕ) → IsVisitor n state.old.account → IsVisitor n state.new.account }
    ensures takes { Takes (log_out account) result (D.done handler.old) (D.done handler.new) state.old state.new }
{
    let answer = handler.act(account, &Command::Does(Event::Logout));
    let is_done = is_bye(&answer);
    if is_done {
        state.account = None;
    }
    told_as(put_performed(&mut state.replies, &answer), is_done)
}
