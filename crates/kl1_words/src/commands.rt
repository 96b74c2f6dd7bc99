// Commands of the library of words, from the rows of tables.

use crate::program::{OptionSpec, Program, Takes, TaskSpec};
use clap::builder::ValueParser;
use clap::{Arg, ArgAction, Command};
use std::alloc::{AllocError, Global};

/// The version of all programs.
const VERSION: &str = "0.1.0";

/// The most values of an option.
const MOST: usize = usize::MAX;

/// What is done with the values of an option.
fn action_of(takes: Takes) -> ArgAction {
    match takes {
        Takes::Nothing => ArgAction::SetTrue,
        Takes::Each(_) | Takes::Words(_) => ArgAction::Append,
        _ => ArgAction::Set,
    }
}

/// What the values of an option are.
fn values_of<'a>(takes: Takes) -> Option<ValueParser<'a>> {
    match takes {
        Takes::Number(low, high) => Some(ValueParser::Unsigned(low, high)),
        Takes::OneOf(words) | Takes::MaybeOneOf(_, words) => Some(ValueParser::Names(words)),
        _ => None,
    }
}

/// An argument that takes as many values as an option.
fn counted<'a>(arg: Arg<'a>, takes: Takes) -> Arg<'a> {
    match takes {
        Takes::Maybe(missing) | Takes::MaybeOneOf(missing, _) => arg
            .num_args(0..=1)
            .require_equals(true)
            .default_missing_value(missing),
        Takes::Words(least) => arg.num_args(least..=MOST).required(least != 0),
        Takes::Word => arg.required(true),
        Takes::Each(letter) => arg.short(letter),
        _ => arg,
    }
}

/// The argument of an option, beside whatever else there is.
fn arg_of<'a>(alloc: Global, option: &OptionSpec) -> Arg<'a> {
    let arg = Arg::new(alloc, option.name)
        .help(option.help)
        .action(action_of(option.takes));
    let named = match option.takes {
        Takes::Word | Takes::Words(_) => arg,
        _ => arg.long(option.name),
    };
    let shown = if option.value.is_empty() {
        named
    } else {
        named.value_name(option.value)
    };
    let read = match values_of(option.takes) {
        Some(values) => shown.value_parser(values),
        None => shown,
    };
    counted(read, option.takes)
}

/// The argument with what it is refused or wanted beside.
fn related<'a>(arg: Arg<'a>, option: &OptionSpec) -> Result<Arg<'a>, AllocError> {
    let refused = arg.conflicts_with_all(option.beside)?;
    if option.with.is_empty() {
        Ok(refused)
    } else {
        refused.requires_arg(option.with)
    }
}

/// A command with these options too.
fn with_options<'a>(
    alloc: Global,
    command: Command<'a>,
    options: &[OptionSpec],
) -> Result<Command<'a>, AllocError> {
    let mut command = command;
    for option in options {
        let arg = related(arg_of(alloc, option), option)?;
        command = command.arg(arg)?;
    }
    Ok(command)
}

/// A command with these tasks too.
fn with_tasks<'a>(
    alloc: Global,
    command: Command<'a>,
    tasks: &[TaskSpec],
) -> Result<Command<'a>, AllocError> {
    let mut command = command.subcommand_required(!tasks.is_empty());
    for task in tasks {
        let plain = Command::new(alloc, task.name).about(task.about);
        command = command.subcommand(with_options(alloc, plain, task.options)?)?;
    }
    Ok(command)
}

/// The command of a program.
pub fn command_of<'a>(alloc: Global, program: &Program) -> Result<Command<'a>, AllocError> {
    let plain = Command::new(alloc, program.name)
        .about(program.about)
        .version(VERSION)
        .override_usage(program.usage);
    let command = with_options(alloc, plain, program.options)?;
    with_tasks(alloc, command, program.tasks)
}
