// Who gives the commands: words of the program, or standard input.

use crate::hints::{refusal_hint, standstill_hint};
use crate::{files, help};
use kl1_client_talk::{
    Caller, Fault, LineReader, Source, TurnEnd, UserCommand, command_in, is_bad_source, refusal_in,
};
use std::io::Write;
use std::thread;
use std::time::{Duration, Instant};

/// The milliseconds of the first pause between two looks at a shoen, by which each further one is longer.
const PAUSE: u64 = 10;

/// The most milliseconds of a pause.
const MOST_PAUSE: u64 = 250;

/// Where commands are read.
#[derive(Drop)]
pub struct Terminal<'r, S> {
    pub rt: &'r HostRuntime,
    pub lines: LineReader<S>,
    /// What asks for a command, if somebody sits before the terminal.
    pub prompt: Option<&'r str>,
    /// When the first look of the last wait was.
    pub begun: Option<Instant>,
    /// Whether the seconds of a wait in this turn were over.
    pub is_late: bool,
    /// Whether a hint on a refusal was told in this turn.
    pub is_told: bool,
    /// Whether it was told in this turn why a file is no module.
    pub is_explained: bool,
    /// Whether the line of this turn asks the server for nothing.
    pub is_silent: bool,
}

impl<'r, S> Terminal<'r, S> {
    /// A terminal at which nothing was waited for.
    pub fn new(rt: &'r HostRuntime, lines: LineReader<S>, prompt: Option<&'r str>) -> Self {
        Terminal {
            rt,
            lines,
            prompt,
            begun: None,
            is_late: false,
            is_told: false,
            is_explained: false,
            is_silent: false,
        }
    }

    /// Tells what can be done about the refusal in this line, unless it was told why a file is no module. Answers whether it is one.
    fn tells_refusal(&self, line: &[u8]) -> bool {
        let Some(number) = refusal_in(line) else {
            return false;
        };
        if self.is_explained && is_bad_source(line) {
            return true;
        }
        if let Some(hint) = refusal_hint(number) {
            let _ = eprintln!(self.rt; "kl1_client: {hint}");
        }
        true
    }

    /// How much of these seconds is left since the first look; nothing if the clock can't be read.
    fn left_of(&self, seconds: u64) -> Duration {
        let Some(begun) = self.begun else {
            return Duration::ZERO;
        };
        match begun.elapsed(self.rt) {
            Ok(passed) => Duration::from_secs(seconds).saturating_sub(passed),
            Err(_) => Duration::ZERO,
        }
    }
}

impl<S: Source> Caller for Terminal<'_, S> {
    fn next(&mut self, line: &mut Vec<u8>) -> Result<bool, Fault> {
        self.is_late = false;
        self.is_told = false;
        self.is_explained = false;
        if let Some(name) = self.prompt {
            let _ = eprint!(self.rt; "{name}> ");
        }
        let found = self.lines.next(line, Fault::Commands)?;
        self.is_silent = matches!(
            command_in(line.as_slice()),
            UserCommand::Nothing | UserCommand::Help(_)
        );
        Ok(found)
    }

    fn file(&mut self, name: &[u8], source: &mut Vec<u8>) -> Result<bool, Fault> {
        match files::read(self.rt, name, source) {
            Ok(()) => Ok(true),
            Err(trouble) => {
                files::tell(self.rt, name, &trouble)?;
                Ok(false)
            }
        }
    }

    fn explain(&mut self, lines: &[u8]) {
        if !lines.is_empty() {
            self.is_explained = self.rt.stderr().write_all(lines).is_ok();
        }
    }

    fn save(&mut self, name: &[u8], bytes: &[u8]) -> Result<bool, Fault> {
        match files::write(self.rt, name, bytes) {
            Ok(()) => Ok(true),
            Err(trouble) => {
                files::tell(self.rt, name, &trouble)?;
                Ok(false)
            }
        }
    }

    fn pause(&mut self, looks: u64, seconds: Option<u64>) -> bool {
        let pause = Duration::from_millis(looks.min(MOST_PAUSE / PAUSE) * PAUSE);
        let Some(seconds) = seconds else {
            thread::sleep(self.rt, pause);
            return false;
        };
        if looks == 1 {
            self.begun = Instant::now(self.rt).ok();
        }
        let left = self.left_of(seconds);
        if left.is_zero() {
            self.is_late = true;
            return true;
        }
        thread::sleep(self.rt, if left < pause { left } else { pause });
        false
    }

    fn help(&mut self, topic: &[u8]) {
        help::tell(self.rt, topic);
    }

    fn turned(&mut self, end: TurnEnd, line: &[u8]) {
        // The line came in an earlier turn.
        if self.is_silent || matches!(end, TurnEnd::LacksFile) {
            return;
        }
        if self.tells_refusal(line) {
            self.is_told = true;
            return;
        }
        if matches!(end, TurnEnd::StandsStill) && !self.is_told {
            let hint = standstill_hint(line, self.is_late);
            let _ = eprintln!(self.rt; "kl1_client: {hint}");
        }
    }
}
