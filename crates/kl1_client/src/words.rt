// The words that the program knows, and what they ask for.

use kl1_client_talk::{BAD_WORDS, TROUBLE};
use kl1_words::{Asked, OptionSpec, Program, SystemFaults, Takes, Unasked};

/// The program.
pub static PROGRAM: Program = Program {
    name: "kl1_client",
    about: "Logs in to an account of a server, sends commands, and shows the replies",
    usage: "kl1_client [--key-file FILE] [--all] [--timeout SECONDS] [--reconnect] [-c COMMAND]... ADDRESS NAME",
    options: &OPTIONS,
    tasks: &[],
    faults: SystemFaults::Pipes,
};

/// The most seconds of `--timeout`, a day.
const MOST_SECONDS: u64 = 86_400;

/// The options of the program.
const OPTIONS: [OptionSpec; 7] = [
    OptionSpec {
        name: "key-file",
        takes: Takes::Text,
        value: "FILE",
        help: "Read the key from the first line of FILE, not from KL1_KEY in the environment",
        beside: &[],
        with: "",
    },
    OptionSpec {
        name: "all",
        takes: Takes::Nothing,
        value: "",
        help: "Ask for reports and lines of the journal up to the last one",
        beside: &[],
        with: "",
    },
    OptionSpec {
        name: "timeout",
        takes: Takes::Number(1, MOST_SECONDS),
        value: "SECONDS",
        help: "Wait for the server, and for each reply, at most SECONDS",
        beside: &[],
        with: "",
    },
    OptionSpec {
        name: "reconnect",
        takes: Takes::Nothing,
        value: "",
        help: "When the connection ends, make another and go on with the next command",
        beside: &[],
        with: "",
    },
    OptionSpec {
        name: "command",
        takes: Takes::Each('c'),
        value: "COMMAND",
        help: "Send COMMAND, and read no commands from standard input",
        beside: &[],
        with: "",
    },
    OptionSpec {
        name: "ADDRESS",
        takes: Takes::Word,
        value: "",
        help: "Where the server listens, as 127.0.0.1:7411",
        beside: &[],
        with: "",
    },
    OptionSpec {
        name: "NAME",
        takes: Takes::Word,
        value: "",
        help: "The account",
        beside: &[],
        with: "",
    },
];

/// What the words ask for.
#[derive(Clone, Copy)]
pub struct Wanted<'w, 'a> {
    /// Where the server listens: a host and a port.
    pub address: &'a str,
    /// The account's name.
    pub name: &'a str,
    /// The file in whose first line the account's key stands, if it isn't in the environment.
    pub key_file: Option<&'a str>,
    /// Whether reports, and lines of the journal, are asked for up to the last one.
    pub all: bool,
    /// The seconds in which the server and each reply are to come, if there is a limit.
    pub timeout: Option<u64>,
    /// Whether another connection is made when one ends.
    pub reconnects: bool,
    /// The commands; if there are none, they are read from standard input.
    pub commands: &'w [&'a str],
}

impl<'w, 'a> Wanted<'w, 'a> {
    /// What the words ask for.
    pub fn of(asked: &'w Asked<'a>) -> Self {
        Wanted {
            address: asked.text("ADDRESS").unwrap_or(""),
            name: asked.text("NAME").unwrap_or(""),
            key_file: asked.text("key-file"),
            all: asked.has("all"),
            timeout: asked.number("timeout"),
            reconnects: asked.has("reconnect"),
            commands: asked.words(),
        }
    }
}

/// Tells help or the version, or why the words are not understood, and answers the program's status.
pub fn tell(rt: &HostRuntime, unasked: &Unasked) -> u8 {
    let told = unasked.print(rt);
    if told.is_err() {
        TROUBLE
    } else if unasked.is_bad() {
        BAD_WORDS
    } else {
        0
    }
}
