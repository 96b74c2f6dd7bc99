// The prompt: lines of standard input, one after another, on an account of its own.

use crate::run::asked::Asked;
use crate::run::files::{Modules, read_each};
use crate::run::reasons::line_reasons;
use crate::run::shown::{MOST_FORMED, Shown, put_at_prompt};
use crate::run::tasks::{failed_write, journal_of};
use crate::run::told::write_done;
use crate::world::{OwnWorld, fresh_world};
use kl1_prompt::{
    Line, News, Plan, Stand, Table, do_line, load_all, parse_line, put_answer, put_help, put_news,
    put_table, put_unknown, put_waits, reload, trace_steps,
};
use kl1_run_work::{Extent, Host, SourceFile, Stop, Term, UnbookedHost, put_fault, put_journal};
use kl1_user_events::Reply;
use kl1_watch::Names;
use kl1_words::Fault;
use std::alloc::Global;
use std::io::{BufRead, IsTerminal, Lock, Write};

/// What asks for a line.
const PROMPT: &str = "kl1> ";

/// What is told of lines: answers go to standard output, and faults to standard error.
#[derive(Drop)]
struct Told {
    answers: Vec<u8>,
    faults: Vec<u8>,
}

/// The goal that was started last.
#[derive(Drop)]
struct Last {
    goal: Term,
    /// Its line.
    text: Vec<u8>,
    news: News,
}

/// A prompt over an account.
#[derive(Drop)]
struct Session<'a, 'r> {
    rt: &'r HostRuntime,
    alloc: Global,
    asked: &'a Asked<'a>,
    plan: Plan,
    /// The files whose modules are loaded.
    files: Vec<SourceFile>,
    last: Option<Last>,
    told: Told,
    /// Whether anything was refused.
    has_faults: bool,
}

/// Loads the modules in files of these names, and does what lines of standard input ask for. Answers the program's status.
pub fn run_prompt(rt: &HostRuntime, asked: &Asked<'_>, names: &[&str]) -> Result<u8, Fault> {
    let alloc = rt.alloc();
    refuse_of_run(alloc, asked)?;
    let Modules { files, ids } = read_each(rt, names)?;
    let mut journal = journal_of(rt, asked, ids.as_slice())?;
    let mut world = fresh_world(alloc, asked.rules)?;
    let replies = load_all(alloc, &mut world, files.as_slice())?;
    let mut faults = Vec::new(alloc);
    if !put_loaded(files.as_slice(), replies.as_slice(), &mut faults)? {
        return Err(Fault::Lines(faults));
    }
    let mut session = Session {
        rt,
        alloc,
        asked,
        plan: Plan {
            allowance: asked.allowance,
            steps: asked.steps,
        },
        files,
        last: None,
        told: Told {
            answers: Vec::new(alloc),
            faults,
        },
        has_faults: false,
    };
    let is_watched = rt.stdin().is_terminal() && rt.stdout().is_terminal();
    session.read_lines(&mut world, is_watched)?;
    if let Some(sink) = &mut journal {
        match put_journal(alloc, &world, sink) {
            Ok(()) => {}
            Err(Stop::Memory) => return Err(Fault::Memory),
            Err(_stop) => return Err(failed_write()),
        }
    }
    Ok(if session.has_faults && !is_watched {
        2
    } else {
        0
    })
}

/// Refuses what is told of the run of one goal: a prompt has no such goal.
fn refuse_of_run(alloc: Global, asked: &Asked<'_>) -> Result<(), Fault> {
    let (option, hint) = if asked.told.trace.is_some() {
        ("--trace", "at a prompt :trace tells steps")
    } else if asked.told.timeline.is_some() {
        ("--timeline", "write the goal after the files")
    } else if asked.told.is_any() {
        ("--profile", "write the goal after the files")
    } else {
        return Ok(());
    };
    let line = format!(in alloc;
        "kl1_run: {option} tells of the run of one goal, and a prompt has none\n    hint: {hint}\n"
    )?;
    Err(Fault::Lines(line.into_bytes()))
}

/// A line without its end.
fn without_end(line: &[u8]) -> &[u8] {
    let line = line.strip_suffix(b"\n").unwrap_or(line);
    line.strip_suffix(b"\r").unwrap_or(line)
}

impl Session<'_, '_> {
    /// Does what each line asks for, until one ends the prompt or there are no more.
    fn read_lines(&mut self, world: &mut OwnWorld, is_watched: bool) -> Result<(), Fault> {
        if is_watched {
            eprintln!(self.rt; "kl1_run: :help tells the commands, :quit ends")?;
        }
        let mut input = self.rt.stdin().lock();
        let mut line = Vec::new(self.alloc);
        for _ in 0..u64::MAX {
            if is_watched {
                print!(self.rt; "{PROMPT}")?;
            }
            line.clear();
            if input.read_until(b'\n', &mut line)? == 0 {
                break;
            }
            let goes = self.do_text(world, without_end(line.as_slice()))?;
            self.tell()?;
            if !goes {
                return Ok(());
            }
        }
        if is_watched {
            println!(self.rt)?;
        }
        Ok(())
    }

    /// Writes what is to be told.
    fn tell(&mut self) -> Result<(), Fault> {
        write_done(self.rt.stdout().write_all(self.told.answers.as_slice()))?;
        write_done(self.rt.stderr().write_all(self.told.faults.as_slice()))?;
        self.has_faults = self.has_faults || !self.told.faults.is_empty();
        self.told.answers.clear();
        self.told.faults.clear();
        Ok(())
    }

    /// Does what a line asks for. Answers whether the prompt goes on.
    fn do_text(&mut self, world: &mut OwnWorld, text: &[u8]) -> Result<bool, Fault> {
        let line = parse_line(self.alloc, self.asked.rules, text, self.plan.steps)?;
        match line {
            Line::Blank => {}
            Line::Quit => return Ok(false),
            Line::NoGoal => {
                let lines = line_reasons(self.alloc, text, self.files.as_slice())?;
                self.told.faults.extend_from_slice(lines.as_slice())?;
            }
            Line::Unknown => put_unknown(self.alloc, text, &mut self.told.faults)?,
            Line::Help(word) => put_help(
                self.alloc,
                word.as_slice(),
                &mut self.told.answers,
                &mut self.told.faults,
            )?,
            Line::Show(table) => self.show(world, table)?,
            Line::Load(name) => self.load(world, name.as_slice())?,
            Line::Reload => self.reload(world)?,
            Line::Goal(goal) => self.start(world, goal, text)?,
            Line::Step(steps) => {
                if self.do_plain(world, Line::Step(steps))? {
                    self.tell_last(world)?;
                }
            }
            Line::Trace(steps) => {
                trace_steps(world, steps, &mut self.told.answers)?;
                self.tell_last(world)?;
            }
            Line::Command(command) => {
                let is_done = self.do_plain(world, Line::Command(command))?;
                if is_done && world.pick().is_some() {
                    self.told
                        .answers
                        .extend_from_slice(b"goals can step: :step does steps\n")?;
                }
            }
        }
        Ok(true)
    }

    /// Does the commands of a line, and puts the replies. Answers whether none was refused.
    fn do_plain(&mut self, world: &mut OwnWorld, line: Line) -> Result<bool, Fault> {
        let replies = do_line(self.alloc, world, line, self.plan)?;
        for reply in replies.as_slice() {
            put_answer(reply, &mut self.told.answers, &mut self.told.faults)?;
        }
        Ok(self.told.faults.is_empty())
    }

    /// Starts a goal, runs it, and puts what comes of it.
    fn start(&mut self, world: &mut OwnWorld, goal: Term, text: &[u8]) -> Result<(), Fault> {
        let started = goal.clone()?;
        let replies = do_line(self.alloc, world, Line::Goal(goal), self.plan)?;
        for reply in replies.as_slice() {
            match reply {
                Reply::Opened(shoen) => {
                    self.last = Some(Last {
                        goal: started.clone()?,
                        text: Vec::from_slice(self.alloc, text)?,
                        news: News {
                            shoen: *shoen,
                            told: 0,
                            has_reports: self.asked.wanted.reports,
                        },
                    });
                }
                Reply::Refused(_refusal) => {
                    put_answer(reply, &mut self.told.answers, &mut self.told.faults)?;
                }
                _ => {}
            }
        }
        match replies.as_slice() {
            [Reply::Opened(_shoen), ..] => self.tell_last(world),
            _ => Ok(()),
        }
    }

    /// Puts the values of the goal that was started last, what is new of its shoen, and what stands still if it does.
    fn tell_last(&mut self, world: &mut OwnWorld) -> Result<(), Fault> {
        let Some(shown) = self.shown_last(world)? else {
            return Ok(());
        };
        let form = self.asked.form;
        if shown.is_left(form) {
            self.told.answers.extend_from_slice(
                b"the goal is too long for its values: :value S tells its front\n",
            )?;
        } else {
            shown.put_bindings(self.alloc, form, self.asked.most, &mut self.told.answers)?;
        }
        let Some(last) = &mut self.last else {
            return Ok(());
        };
        let stand = put_news(world, &mut last.news, &mut self.told.answers)?;
        if let Stand::Still = stand {
            let names = shown.names_now(self.alloc)?;
            let most = self.asked.waits.most();
            let mut lines = Vec::new(self.alloc);
            put_waits(self.alloc, world, most, &names, &mut lines)?;
            put_at_prompt(lines.as_slice(), &mut self.told.answers)?;
        }
        if self.asked.has_stats {
            self.show(world, Table::Used)?;
        }
        Ok(())
    }

    /// The goal that was started last, as it is now.
    fn shown_last(&self, world: &mut OwnWorld) -> Result<Option<Shown>, Fault> {
        let Some(last) = &self.last else {
            return Ok(None);
        };
        let Some(now) = world.value_text(last.news.shoen, Extent::AtMost(MOST_FORMED))? else {
            return Ok(None);
        };
        let goal = last.goal.clone()?;
        let text = str::from_utf8(last.text.as_slice()).unwrap_or("");
        let shown = Shown::new(self.alloc, self.asked.form, text, goal, now.as_slice())?;
        Ok(Some(shown))
    }

    /// Puts a table.
    fn show(&mut self, world: &mut OwnWorld, table: Table) -> Result<(), Fault> {
        let names = match self.shown_last(world)? {
            Some(shown) => shown.names_now(self.alloc)?,
            None => Names {
                names: Vec::new(self.alloc),
            },
        };
        put_table(self.alloc, world, table, &names, &mut self.told.answers)?;
        Ok(())
    }

    /// Loads the module in a file too.
    fn load(&mut self, world: &mut OwnWorld, name: &[u8]) -> Result<(), Fault> {
        let Some(files) = read_modules(self.rt, &[name], &mut self.told.faults)? else {
            return Ok(());
        };
        let replies = load_all(self.alloc, world, files.as_slice())?;
        for reply in replies.as_slice() {
            put_answer(reply, &mut self.told.answers, &mut self.told.faults)?;
        }
        if self.told.faults.is_empty() {
            for file in files {
                self.files.push(file)?;
            }
        }
        Ok(())
    }

    /// All files as they are now, if they are modules.
    fn read_again(&mut self) -> Result<Option<Vec<SourceFile>>, Fault> {
        let mut names: Vec<&[u8]> = Vec::new(self.alloc);
        for file in self.files.as_slice() {
            names.push(file.name.as_slice())?;
        }
        read_modules(self.rt, names.as_slice(), &mut self.told.faults)
    }

    /// Begins the account anew with all files as they are now, if they are modules.
    fn reload(&mut self, world: &mut OwnWorld) -> Result<(), Fault> {
        let Some(files) = self.read_again()? else {
            return Ok(());
        };
        self.last = None;
        let replies = reload(self.alloc, world, files.as_slice())?;
        self.files = files;
        if put_loaded(
            self.files.as_slice(),
            replies.as_slice(),
            &mut self.told.faults,
        )? {
            for reply in replies.as_slice() {
                put_answer(reply, &mut self.told.answers, &mut self.told.faults)?;
            }
        }
        Ok(())
    }
}

/// Whether a reply is that to a reset.
fn is_reset(reply: &Reply) -> bool {
    match reply {
        Reply::Reset => true,
        _ => false,
    }
}

/// Puts which source of these was refused, if one was. Answers whether none was.
fn put_loaded(
    files: &[SourceFile],
    replies: &[Reply],
    faults: &mut Vec<u8>,
) -> Result<bool, Fault> {
    // Before the loads stands the reply to a reset, if there was one.
    let loads = match replies {
        [first, rest @ ..] if is_reset(first) => rest,
        _ => replies,
    };
    let Some(Reply::Refused(refusal)) = loads.last() else {
        return Ok(true);
    };
    let place = loads.len().saturating_sub(1);
    if let Some(file) = files.get(place) {
        put_fault(faults, file.name.as_slice(), *refusal)?;
    }
    Ok(false)
}

/// Reads the files of these names, if all are modules, and puts what is wrong with them if not.
fn read_modules(
    rt: &HostRuntime,
    names: &[&[u8]],
    faults: &mut Vec<u8>,
) -> Result<Option<Vec<SourceFile>>, Fault> {
    let mut words: Vec<&str> = Vec::new(rt.alloc());
    for name in names {
        words.push(str::from_utf8(name).unwrap_or(""))?;
    }
    match read_each(rt, words.as_slice()) {
        Ok(Modules { files, .. }) => Ok(Some(files)),
        Err(fault) => {
            let Fault::Lines(lines) = &fault else {
                return Err(fault);
            };
            faults.extend_from_slice(lines.as_slice())?;
            Ok(None)
        }
    }
}
