// The steps of journals.

mod entries;
mod naming;
mod places;
mod tasks;

use crate::steps::StepsAsked;
use kl1_words::{Fault, OptionSpec, Program, SystemFaults, Takes, asked_in};
use tasks::tell_journal;

/// How the program is called.
const USAGE: &str =
    "kl1_trace [--trace[=PATTERN]] [--profile[=json]] [--timeline FILE.svg [--lanes PATTERN]]\n                 FILE.journal [SOURCE]...\n       kl1_trace --help | --version";

/// What the program knows.
const OPTIONS: [OptionSpec; 5] = [
    OptionSpec {
        name: "trace",
        takes: Takes::Maybe(""),
        value: "PATTERN",
        help: "Tell each step, or those of PATTERN; so it is without an option too",
        beside: &[],
        with: "",
    },
    OptionSpec {
        name: "profile",
        takes: Takes::MaybeOneOf("table", &["json", "table"]),
        value: "FORM",
        help: "Tell what each predicate did, as a table or as JSON",
        beside: &[],
        with: "",
    },
    OptionSpec {
        name: "timeline",
        takes: Takes::Text,
        value: "FILE.svg",
        help: "Write a picture to FILE.svg, which is new, empty or such a picture",
        beside: &[],
        with: "",
    },
    OptionSpec {
        name: "lanes",
        takes: Takes::Text,
        value: "PATTERN",
        help: "Draw only the processes and steps of PATTERN",
        beside: &[],
        with: "timeline",
    },
    OptionSpec {
        name: "words",
        takes: Takes::Words(1),
        value: "FILE",
        help: "A journal, and then the sources of its modules",
        beside: &[],
        with: "",
    },
];

/// The program that tells the steps of a journal.
pub static TRACE: Program = Program {
    name: "kl1_trace",
    about: "Tells the steps of a journal",
    usage: USAGE,
    options: &OPTIONS,
    tasks: &[],
    faults: SystemFaults::Writes,
};

/// Does what the words of `kl1_trace` ask for, of which the first is its name, and answers its status.
pub fn trace_journal(rt: &HostRuntime, words: &[String]) -> Result<u8, Fault> {
    match asked_in(rt.alloc(), &TRACE, words) {
        Ok(asked) => {
            // Without an option all steps are told.
            let steps = StepsAsked::of(&TRACE, &asked).or_all();
            tell_journal(rt, &steps, asked.words())
        }
        Err(unasked) => unasked.tell(rt, &TRACE),
    }
}
