// What lines do to an account.

use crate::line::Line;
use kl1_command::{Command, Performed, UnbookedHost, perform};
use kl1_model::limits::MOST_PRIORITY;
use kl1_run_work::SourceFile;
use kl1_user_events::{Event, Reply};
use std::alloc::{AllocError, Global};

/// What goals get.
#[derive(Clone, Copy)]
pub struct Plan {
    /// The allowance of a goal's shoen, in reductions.
    pub allowance: u64,
    /// The most steps that are done at a time, unless a line says how many.
    pub steps: u64,
}

/// The commands of the account that a line stands for, in order.
fn commands_of(alloc: Global, line: Line, plan: Plan) -> Result<Vec<Command>, AllocError> {
    let mut commands = Vec::new(alloc);
    match line {
        Line::Goal(goal) => {
            commands.push(Command::Does(Event::Start {
                allowance: plan.allowance,
                low: 0,
                high: MOST_PRIORITY,
                goal,
            }))?;
            commands.push(Command::Run(plan.steps))?;
        }
        Line::Step(steps) => commands.push(Command::Run(steps))?,
        Line::Trace(steps) => commands.push(Command::Run(steps))?,
        Line::Command(command) => commands.push(command)?,
        Line::Blank => {}
        Line::NoGoal => {}
        Line::Show(_table) => {}
        Line::Load(_name) => {}
        Line::Reload => {}
        Line::Help(_word) => {}
        Line::Quit => {}
        Line::Unknown => {}
    }
    Ok(commands)
}

/// Does the commands of the account that a line stands for, in order, until one is refused, and answers the replies. After an `Err` some
/// of them may be done.
pub fn do_line<H: UnbookedHost>(
    alloc: Global,
    host: &mut H,
    line: Line,
    plan: Plan,
) -> Result<Vec<Reply>, AllocError> {
    let commands = commands_of(alloc, line, plan)?;
    do_each(alloc, host, commands.as_slice())
}

/// Loads sources in order, until one is refused, and answers the replies. After an `Err` some of them may be loaded.
pub fn load_all<H: UnbookedHost>(
    alloc: Global,
    host: &mut H,
    files: &[SourceFile],
) -> Result<Vec<Reply>, AllocError> {
    let mut commands = Vec::new(alloc);
    put_loads(alloc, files, &mut commands)?;
    do_each(alloc, host, commands.as_slice())
}

/// Begins the account anew, loads sources in order, until one is refused, and answers the replies. After an `Err` some of it may be done.
pub fn reload<H: UnbookedHost>(
    alloc: Global,
    host: &mut H,
    files: &[SourceFile],
) -> Result<Vec<Reply>, AllocError> {
    let mut commands = Vec::new(alloc);
    commands.push(Command::Does(Event::Reset))?;
    put_loads(alloc, files, &mut commands)?;
    do_each(alloc, host, commands.as_slice())
}

/// Puts the commands that load sources after others.
fn put_loads(
    alloc: Global,
    files: &[SourceFile],
    commands: &mut Vec<Command>,
) -> Result<(), AllocError> {
    for file in files {
        let source = Vec::from_slice(alloc, file.text.as_slice())?;
        commands.push(Command::Does(Event::Load { source }))?;
    }
    Ok(())
}

/// Does commands in order, until one is refused, and answers the replies. After an `Err` some of them may be done.
fn do_each<H: UnbookedHost>(
    alloc: Global,
    host: &mut H,
    commands: &[Command],
) -> Result<Vec<Reply>, AllocError> {
    let mut replies = Vec::new(alloc);
    for command in commands {
        let reply = do_one(host, command)?;
        let is_over = is_refused(&reply);
        replies.push(reply)?;
        if is_over {
            return Ok(replies);
        }
    }
    Ok(replies)
}

/// Does a command, and answers the reply. After an `Err` some of a run may be done.
pub(crate) fn do_one<H: UnbookedHost>(
    host: &mut H,
    command: &Command,
) -> Result<Reply, AllocError> {
    match perform(host, command) {
        Performed::Whole(reply) => Ok(reply),
        Performed::Short { steps: _steps } => Err(AllocError),
        Performed::Memory => Err(AllocError),
    }
}

/// Whether a reply is a refusal.
fn is_refused(reply: &Reply) -> bool {
    matches!(reply, Reply::Refused(_))
}
