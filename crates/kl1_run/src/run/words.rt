// The words that the program knows, and what they ask for.

use crate::run::asked::{Asked, Form, MODULE, MOST_AT_A_TIME, Task, USAGE, Waits};
use crate::run::shown::{MOST_FORMED, MOST_WHOLE};
use crate::steps::StepsAsked;
use kl1_model::limits::MOST_PRINTED_BYTES;
use kl1_run_work::{Extent, MOST_ALLOWANCE, MOST_STEPS, Wanted};
use kl1_words::{OptionSpec, Program, SystemFaults, Takes};
use kl1_world::Rules;
use std::alloc::{AllocError, Global};

/// The greatest number that an option takes.
const MOST_NUMBER: u64 = 9_223_372_036_854_775_807;

/// Beside what an option is refused that is about a run or a script.
const OF_ALL: &[&str] = &["check"];

/// Beside what an option is refused that is about a run alone. A script keeps to the rules of `kl1`.
const OF_RUN: &[&str] = &["check", "script"];

/// What the program knows.
const OPTIONS: [OptionSpec; 19] = [
    OptionSpec {
        name: "steps",
        takes: Takes::Number(0, MOST_NUMBER),
        value: "",
        help: "Do at most N reductions",
        beside: OF_ALL,
        with: "",
    },
    OptionSpec {
        name: "allowance",
        takes: Takes::Number(0, MOST_NUMBER),
        value: "",
        help: "Let the goal be charged N reductions at most",
        beside: OF_ALL,
        with: "",
    },
    OptionSpec {
        name: "rules",
        takes: Takes::Number(3, 5),
        value: "",
        help: "Keep to the rules of version N, 3 to 5; 4 has greater limits than 3, and 5 those of memory alone",
        beside: OF_RUN,
        with: "",
    },
    OptionSpec {
        name: "reports",
        takes: Takes::Nothing,
        value: "",
        help: "Tell the goal's reports too",
        beside: OF_ALL,
        with: "",
    },
    OptionSpec {
        name: "whole",
        takes: Takes::Nothing,
        value: "",
        help: "Tell the goal whole, up to 16,777,216 bytes, not cut after 4,000",
        beside: OF_RUN,
        with: "",
    },
    OptionSpec {
        name: "bindings",
        takes: Takes::Nothing,
        value: "",
        help: "Tell the values of the goal's variables by their names",
        beside: OF_RUN,
        with: "",
    },
    OptionSpec {
        name: "infix",
        takes: Takes::Nothing,
        value: "",
        help: "Put operators between their operands",
        beside: OF_RUN,
        with: "",
    },
    OptionSpec {
        name: "waits",
        takes: Takes::OneOf(&["all", "none"]),
        value: "WHICH",
        help: "Tell what all goals that wait wait for, or none; without it, the first 8",
        beside: OF_RUN,
        with: "",
    },
    OptionSpec {
        name: "stats",
        takes: Takes::Nothing,
        value: "",
        help: "Tell what the run used on standard error",
        beside: OF_RUN,
        with: "",
    },
    OptionSpec {
        name: "trace",
        takes: Takes::Maybe(""),
        value: "PATTERN",
        help: "Tell each step on standard error, or those of PATTERN",
        beside: OF_RUN,
        with: "",
    },
    OptionSpec {
        name: "profile",
        takes: Takes::MaybeOneOf("table", &["json", "table"]),
        value: "FORM",
        help: "Tell what each predicate did on standard error, as a table or as JSON",
        beside: OF_RUN,
        with: "",
    },
    OptionSpec {
        name: "timeline",
        takes: Takes::Text,
        value: "FILE.svg",
        help: "Write a picture of the run to FILE.svg, which is new, empty or such a picture",
        beside: OF_RUN,
        with: "",
    },
    OptionSpec {
        name: "lanes",
        takes: Takes::Text,
        value: "PATTERN",
        help: "Draw only the processes and steps of PATTERN",
        beside: OF_RUN,
        with: "timeline",
    },
    OptionSpec {
        name: "journal",
        takes: Takes::Text,
        value: "FILE",
        help: "Write the journal of the run to FILE, which is new, empty or a journal",
        beside: OF_RUN,
        with: "",
    },
    OptionSpec {
        name: "check",
        takes: Takes::Nothing,
        value: "",
        help: "Tell what is wrong in each file and what was hardly meant, and run nothing",
        beside: &["script"],
        with: "",
    },
    OptionSpec {
        name: "warn",
        takes: Takes::OneOf(&["error"]),
        value: "error",
        help: "Let --check end with status 2 if there is a warning",
        beside: &[],
        with: "check",
    },
    OptionSpec {
        name: "script",
        takes: Takes::Nothing,
        value: "",
        help: "Write the script that does the same work",
        beside: &[],
        with: "",
    },
    OptionSpec {
        name: "prompt",
        takes: Takes::Nothing,
        value: "",
        help: "Read goals and commands from standard input, as without a goal",
        beside: OF_RUN,
        with: "",
    },
    OptionSpec {
        name: "words",
        takes: Takes::Words(0),
        value: "",
        help: "Files with modules, and then a goal; without one there is a prompt",
        beside: &[],
        with: "",
    },
];

/// The program that tries modules from files.
pub static RUN: Program = Program {
    name: "kl1_run",
    about: "Loads modules from files, and runs a goal",
    usage: USAGE,
    options: &OPTIONS,
    tasks: &[],
    faults: SystemFaults::Writes,
};

/// The most steps of a task. A script's `run` takes no more than its limit, and by the third rules a journal has no more entries; by
/// later rules a run ends at its allowance.
fn most_steps(task: Task, rules: Rules) -> u64 {
    match (task, rules) {
        (Task::Check | Task::Run | Task::Prompt, Rules::Four | Rules::Five) => MOST_ALLOWANCE,
        _ => MOST_STEPS,
    }
}

/// The steps of a task if none are asked for.
fn default_steps(task: Task) -> u64 {
    match task {
        Task::Check | Task::Script | Task::Run => MOST_ALLOWANCE,
        Task::Prompt => MOST_AT_A_TIME,
    }
}

/// What is to be done with the files.
fn task_of(asked: &kl1_words::Asked<'_>) -> Task {
    let has_goal = asked
        .words()
        .last()
        .is_none_or(|word| !word.ends_with(MODULE));
    if asked.has("check") {
        Task::Check
    } else if asked.has("script") {
        Task::Script
    } else if asked.has("prompt") || !has_goal {
        Task::Prompt
    } else {
        Task::Run
    }
}

/// What the words ask for.
pub fn asked_of<'a>(alloc: Global, asked: &kl1_words::Asked<'a>) -> Result<Asked<'a>, AllocError> {
    let task = task_of(asked);
    let rules = match (task, asked.number("rules")) {
        (Task::Script, _) | (_, Some(3)) => Rules::Three,
        (_, Some(4)) => Rules::Four,
        _ => Rules::Five,
    };
    let is_whole = asked.has("whole");
    let form = Form {
        has_bindings: asked.has("bindings") || matches!(task, Task::Prompt),
        is_infix: asked.has("infix"),
    };
    Ok(Asked {
        words: Vec::from_slice(alloc, asked.words())?,
        task,
        steps: asked
            .number("steps")
            .unwrap_or(default_steps(task))
            .min(most_steps(task, rules)),
        allowance: asked.number("allowance").unwrap_or(MOST_ALLOWANCE),
        rules,
        wanted: Wanted {
            reports: asked.has("reports"),
            value: extent_of(is_whole, form),
        },
        form,
        most: if is_whole {
            None
        } else {
            Some(MOST_PRINTED_BYTES)
        },
        waits: match asked.text("waits") {
            Some("all") => Waits::All,
            Some(_) => Waits::None,
            None => Waits::First,
        },
        has_stats: asked.has("stats"),
        told: StepsAsked::of(&RUN, asked),
        journal: asked.text("journal"),
        warnings_are_faults: asked.has("warn"),
    })
}

/// How much of the goal is told. Of a goal that is cut the last variables would have no value.
fn extent_of(is_whole: bool, form: Form) -> Extent {
    if is_whole {
        Extent::AtMost(MOST_WHOLE)
    } else if form.has_bindings {
        Extent::AtMost(MOST_FORMED)
    } else {
        Extent::Cut
    }
}
