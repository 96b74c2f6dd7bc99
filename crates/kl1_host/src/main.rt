//! The server that stays: a folder with its settings, its accounts and their journals, and what is done with it.
#![tactic(auto)]

mod accounts;
mod accounts_file;
mod add;
mod arriving;
mod ask;
mod attending;
mod check;
mod control;
mod export;
mod fault;
mod faulty_line;
mod folder;
mod import;
mod init;
mod journals;
mod keyring;
mod last_line;
mod letting_go;
mod lock;
mod log;
mod logins;
mod machine;
mod new_file;
mod next_keys;
mod open_files;
mod paces;
mod program;
mod reload;
mod remove;
mod repair;
mod run;
mod settings;
mod sockets;
mod start_words;
mod started;
mod telling;
mod web;
mod words;

use crate::add::add_account;
use crate::ask::ask_host;
use crate::check::check_folder;
use crate::export::export_account;
use crate::fault::Fault;
use crate::import::import_account;
use crate::init::init_folder;
use crate::letting_go::reload_host;
use crate::remove::{rekey_account, remove_account};
use crate::run::run_folder;
use crate::words::{PROGRAM, Task, no_task, task_of, tell};
use kl1_words::{asked_in, words_of};
use std::process::ExitCode;

fn main(rt: HostRuntime) -> ExitCode {
    let done = match words_of(&rt) {
        Ok(words) => match asked_in(rt.alloc(), &PROGRAM, words.as_slice()) {
            Ok(asked) => match task_of(&asked) {
                // A host waits for its threads, which only `main` may.
                Some(Task::Run { folder, repairs }) => run_folder(&rt, folder, repairs),
                Some(task) => do_task(&rt, task),
                None => Err(no_task(rt.alloc())),
            },
            Err(unasked) => tell(&rt, &unasked),
        },
        Err(fault) => Err(fault),
    };
    match done {
        Ok(status) => ExitCode::from(status),
        Err(fault) => ExitCode::from(fault.tell(&mut rt.stderr(), &PROGRAM)),
    }
}

/// Does a task that waits for no thread, and answers the program's status.
fn do_task(rt: &HostRuntime, task: Task<'_>) -> Result<u8, Fault> {
    match task {
        Task::Init(folder) => init_folder(rt, folder),
        Task::Add { folder, name } => add_account(rt, folder, name),
        Task::Rekey { folder, name } => rekey_account(rt, folder, name),
        Task::Remove { folder, name } => remove_account(rt, folder, name),
        Task::Export { folder, name } => export_account(rt, folder, name),
        Task::Import { folder, name, from } => import_account(rt, folder, name, from),
        Task::Reload(folder) => reload_host(rt, folder),
        Task::Check(folder) => check_folder(rt, folder),
        Task::Status(folder) => ask_host(rt, folder, "status\n"),
        Task::Stop(folder) => ask_host(rt, folder, "stop\n"),
        Task::Run { .. } => Ok(0),
    }
}
