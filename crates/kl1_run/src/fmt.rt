// The layout of files.

mod tasks;

use kl1_words::{Fault, OptionSpec, Program, SystemFaults, Takes, asked_in};
use tasks::format_each;

/// What the program knows.
const OPTIONS: [OptionSpec; 2] = [
    OptionSpec {
        name: "check",
        takes: Takes::Nothing,
        value: "",
        help: "Write no file; tell the names of those that would change",
        beside: &[],
        with: "",
    },
    OptionSpec {
        name: "files",
        takes: Takes::Words(1),
        value: "FILE",
        help: "Files with modules",
        beside: &[],
        with: "",
    },
];

/// The program that lays files out.
pub static FMT: Program = Program {
    name: "kl1_fmt",
    about: "Lays modules in files out",
    usage: "kl1_fmt [--check] FILE...\n       kl1_fmt --help | --version",
    options: &OPTIONS,
    tasks: &[],
    faults: SystemFaults::Pipes,
};

/// Does what the words of `kl1_fmt` ask for, of which the first is its name, and answers its status.
pub fn format_files(rt: &HostRuntime, words: &[String]) -> Result<u8, Fault> {
    match asked_in(rt.alloc(), &FMT, words) {
        Ok(asked) => format_each(rt, asked.words(), asked.has("check")),
        Err(unasked) => unasked.tell(rt, &FMT),
    }
}
