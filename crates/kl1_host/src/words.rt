// The words that the program knows, and what they ask for.

use crate::fault::{BAD, Fault};
use kl1_words::{Asked, OptionSpec, Program, SystemFaults, Takes, TaskSpec, Unasked, why_in};
use std::alloc::Global;

/// What is to be done.
#[derive(Clone, Copy)]
pub enum Task<'a> {
    /// A folder is made.
    Init(&'a str),
    /// An account is added to a folder.
    Add {
        folder: &'a str,
        name: &'a str,
    },
    /// An account of a folder gets another key.
    Rekey {
        folder: &'a str,
        name: &'a str,
    },
    /// An account of a folder is removed.
    Remove {
        folder: &'a str,
        name: &'a str,
    },
    /// An account is taken out of a folder for another.
    Export {
        folder: &'a str,
        name: &'a str,
    },
    /// An account that was taken out of a folder is added to another, from where it was put.
    Import {
        folder: &'a str,
        name: &'a str,
        from: &'a str,
    },
    /// The host of a folder reads settings and accounts anew.
    Reload(&'a str),
    /// The host of a folder runs.
    Run {
        folder: &'a str,
        repairs: bool,
    },
    /// The settings, the accounts and the journals of a folder are looked at.
    Check(&'a str),
    /// The host of a folder is asked how it goes.
    Status(&'a str),
    /// The host of a folder is asked to stop.
    Stop(&'a str),
}

/// The word of each task: its folder.
const DIR: OptionSpec = OptionSpec {
    name: "DIR",
    takes: Takes::Word,
    value: "",
    help: "The folder",
    beside: &[],
    with: "",
};

/// The word of an account: its name.
const NAME: OptionSpec = OptionSpec {
    name: "NAME",
    takes: Takes::Word,
    value: "",
    help: "The account's name",
    beside: &[],
    with: "",
};

/// The word of an account that comes: the folder in which its line and its journal are.
const FROM: OptionSpec = OptionSpec {
    name: "FROM",
    takes: Takes::Word,
    value: "",
    help: "The folder with what was exported",
    beside: &[],
    with: "",
};

/// The option of a host that runs.
const REPAIR: OptionSpec = OptionSpec {
    name: "repair",
    takes: Takes::Nothing,
    value: "",
    help: "Keep of a journal with a fault what is before it",
    beside: &[],
    with: "",
};

/// The tasks.
const TASKS: [TaskSpec; 11] = [
    TaskSpec {
        name: "init",
        about: "Makes a folder for accounts, with settings to look through",
        options: &[DIR],
    },
    TaskSpec {
        name: "add",
        about: "Adds an account, and writes its key, once",
        options: &[DIR, NAME],
    },
    TaskSpec {
        name: "rekey",
        about: "Gives an account another key, and writes it, once",
        options: &[DIR, NAME],
    },
    TaskSpec {
        name: "remove",
        about: "Removes an account, and puts its journal aside",
        options: &[DIR, NAME],
    },
    TaskSpec {
        name: "export",
        about: "Takes an account out, for another host",
        options: &[DIR, NAME],
    },
    TaskSpec {
        name: "import",
        about: "Adds an account that another host's folder has exported",
        options: &[DIR, NAME, FROM],
    },
    TaskSpec {
        name: "reload",
        about: "Has the host that runs there read settings and accounts anew",
        options: &[DIR],
    },
    TaskSpec {
        name: "run",
        about: "Serves the accounts, until it is asked to stop",
        options: &[DIR, REPAIR],
    },
    TaskSpec {
        name: "check",
        about: "Looks at settings and accounts, and replays each journal",
        options: &[DIR],
    },
    TaskSpec {
        name: "status",
        about: "Tells how the host that runs there goes",
        options: &[DIR],
    },
    TaskSpec {
        name: "stop",
        about: "Stops the host that runs there",
        options: &[DIR],
    },
];

/// The program.
pub static PROGRAM: Program = Program {
    name: "kl1_host",
    about: "A server whose accounts outlive it",
    usage: "kl1_host init DIR\n       kl1_host add DIR NAME\n       kl1_host rekey DIR NAME\n       kl1_host remove DIR NAME\n       kl1_host export DIR NAME\n       kl1_host import DIR NAME FROM\n       kl1_host reload DIR\n       kl1_host run DIR [--repair]\n       kl1_host check DIR\n       kl1_host status DIR\n       kl1_host stop DIR\n       kl1_host --help | --version",
    options: &[],
    tasks: &TASKS,
    faults: SystemFaults::PipesAndMemory,
};

/// The task that is asked for; `None` if there is none.
pub fn task_of<'a>(asked: &Asked<'a>) -> Option<Task<'a>> {
    let word = asked.task();
    let folder = asked.text(DIR.name).unwrap_or("");
    if word == "init" {
        Some(Task::Init(folder))
    } else if word == "add" {
        let name = asked.text(NAME.name).unwrap_or("");
        Some(Task::Add { folder, name })
    } else if let Some(task) = change_of(asked, word, folder) {
        Some(task)
    } else if word == "run" {
        let repairs = asked.has(REPAIR.name);
        Some(Task::Run { folder, repairs })
    } else {
        look_of(word, folder)
    }
}

/// The task of this word by which an account of a folder is changed; `None` if there is none.
fn change_of<'a>(asked: &Asked<'a>, word: &str, folder: &'a str) -> Option<Task<'a>> {
    let name = asked.text(NAME.name).unwrap_or("");
    if word == "rekey" {
        Some(Task::Rekey { folder, name })
    } else if word == "remove" {
        Some(Task::Remove { folder, name })
    } else if word == "export" {
        Some(Task::Export { folder, name })
    } else if word == "import" {
        let from = asked.text(FROM.name).unwrap_or("");
        Some(Task::Import { folder, name, from })
    } else if word == "reload" {
        Some(Task::Reload(folder))
    } else {
        None
    }
}

/// The task of this word over a folder that changes nothing in it; `None` if there is none.
fn look_of<'a>(word: &str, folder: &'a str) -> Option<Task<'a>> {
    if word == "check" {
        Some(Task::Check(folder))
    } else if word == "status" {
        Some(Task::Status(folder))
    } else if word == "stop" {
        Some(Task::Stop(folder))
    } else {
        None
    }
}

/// The fault of words that name no task.
pub fn no_task(alloc: Global) -> Fault {
    match format!(in alloc; "a task is wanted") {
        Ok(words) => Fault::Words(BAD, words),
        Err(_) => Fault::Memory,
    }
}

/// Tells help or the version, or why the words are not understood, and answers the program's status.
pub fn tell(rt: &HostRuntime, unasked: &Unasked) -> Result<u8, Fault> {
    if !unasked.is_bad() {
        return unasked.tell(rt, &PROGRAM);
    }
    // If nobody reads this, that is the status.
    let text = unasked.text(rt.alloc())?;
    eprint!(rt; "kl1_host: {}", why_in(text.as_str()))?;
    Ok(BAD)
}
