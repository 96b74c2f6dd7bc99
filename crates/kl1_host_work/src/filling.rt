// Room on the disk for the files of accounts.

ghost use Rattle.std.specs.Prelude.{◌≡◌};
ghost use Rattle.kl1_command.specs.Commands.{command_view};
ghost use Rattle.kl1_host_work.specs.Filling.{goes_on, fills_disk, is_reset, is_of_sessions, lacks_room};

use crate::host::{FileRoom, Host};
use kl1_command::Command;
use kl1_host_journals::Naming;
use kl1_log::Room;
use kl1_model::Message;
use kl1_user_events::Event;
use std::sync::Wait;

/// The room for the file of an account, if it can be short.
fn room_of(rooms: &[FileRoom], account: usize) -> Option<&Room> {
    let room = rooms.get(account)?.get()?;
    Some(&**room)
}

/// Whether a message lets a shoen go on that may add entries without end; others let it stand, or are its last.
fn goes_on(message: &Message) -> bool
    ensures { result ≡ goes_on message.now }
{
    match message {
        Message::Abort | Message::Stop => false,
        Message::Start | Message::Allow(_) => true,
    }
}

/// Whether a command makes the file of an account grow beyond an entry of a few bytes that lets less come after it.
pub(crate) fn fills_disk(command: &Command) -> bool
    ensures { result ≡ fills_disk (command_view command.now) }
{
    match command {
        Command::Does(event) => match event {
            Event::Load { .. } | Event::Start { .. } | Event::Answer { .. } => true,
            Event::Control { message, .. } => goes_on(message),
            Event::Reduce { .. } => true,
            Event::Forget { .. } => false,
            Event::Read(_) | Event::Login | Event::Logout | Event::Reset => false,
        },
        Command::Run(_) => true,
        Command::Shows { .. } => false,
    }
}

/// Whether a command is a reset.
fn is_reset(command: &Command) -> bool
    ensures { result ≡ is_reset (command_view command.now) }
{
    matches!(command, Command::Does(Event::Reset))
}

/// Whether a command opens or closes a session, of which the file tells nothing.
pub(crate) fn is_of_sessions(command: &Command) -> bool
    ensures { result ≡ is_of_sessions (command_view command.now) }
{
    matches!(command, Command::Does(Event::Login | Event::Logout))
}

/// Whether a command lacks room, by how it stands with the room for its account's file: whether what was written waits for some, whether
/// there is none for what a reset writes, and whether the file has as many bytes as it may.
fn lacks_room(command: &Command, is_short: bool, lacks_reserve: bool, is_beyond: bool) -> bool
    ensures { result ≡ lacks_room (command_view command.now) is_short lacks_reserve is_beyond }
{
    if is_of_sessions(command) {
        return false;
    }
    if is_reset(command) {
        return lacks_reserve;
    }
    is_short || (fills_disk(command) && is_beyond)
}

/// Whether what a command would write has no room: its account's file has as many bytes as it may, with those that wait for it; or the disk
/// is full, so that only a session is opened or closed, and a reset is done if there is room for that.
pub(crate) fn has_no_room<W: Wait, J: Naming>(
    rt: &W,
    host: Host<'_, J>,
    account: usize,
    command: &Command,
) -> bool {
    let Some(room) = room_of(host.rooms, account) else {
        return false;
    };
    let is_beyond = fills_disk(command) && is_beyond(rt, host, account, room);
    lacks_room(command, room.is_short(), room.lacks_reserve(), is_beyond)
}

/// Whether the file of an account has as many bytes as it may, with those that wait for it.
fn is_beyond<W: Wait, J: Naming>(rt: &W, host: Host<'_, J>, account: usize, room: &Room) -> bool {
    let waiting = match host.keeper(account) {
        Some(keeper) => keeper.waiting_bytes(rt) as u64,
        None => 0,
    };
    room.bytes().saturating_add(waiting) >= host.live.disk_each()
}

/// Takes in that a command was done: what waits for room gives way to a reset.
pub(crate) fn note_done<J: Naming>(host: Host<'_, J>, account: usize, command: &Command) {
    if is_reset(command)
        && let Some(room) = room_of(host.rooms, account)
        && room.is_short()
    {
        room.hurry();
    }
}

/// Whether the file of an account has as many bytes as it may, with those that wait for it.
pub(crate) fn is_beyond_disk<W: Wait, J: Naming>(
    rt: &W,
    host: Host<'_, J>,
    account: usize,
) -> bool {
    match room_of(host.rooms, account) {
        Some(room) => is_beyond(rt, host, account, room),
        None => false,
    }
}

/// Whether the file of an account waits for room.
pub(crate) fn is_short<J: Naming>(host: Host<'_, J>, account: usize) -> bool {
    match room_of(host.rooms, account) {
        Some(room) => room.is_short(),
        None => false,
    }
}

/// Lets what waits for room of an account that leaves be written from the room for resets, since none comes any more.
pub(crate) fn hurry_room<J: Naming>(host: Host<'_, J>, account: usize) {
    if let Some(room) = room_of(host.rooms, account) {
        room.hurry();
    }
}

/// Lets nothing wait for room any more.
pub(crate) fn close_rooms<J: Naming>(host: Host<'_, J>) {
    for room in host.rooms {
        if let Some(room) = room.get() {
            room.close();
        }
    }
}
