// What is told while a run goes on.

use kl1_run_work::Watch;
use std::io::IsTerminal;
use std::time::Instant;

/// The milliseconds of a run before its first line.
const QUIET_AT_FIRST: u128 = 1_000;

/// The milliseconds between two lines.
const BETWEEN_LINES: u128 = 200;

/// The line of a run on a terminal at standard error, which is written again and again.
#[derive(Drop)]
pub struct Progress<'r> {
    rt: &'r HostRuntime,
    /// When the run began, if a line is wanted and the clock told.
    start: Option<Instant>,
    /// The milliseconds from then on after which the next line is due.
    next: u128,
    /// The milliseconds from then on to the last look.
    now: u128,
    is_shown: bool,
}

impl<'r> Progress<'r> {
    /// The line of a run that begins now.
    pub fn new(rt: &'r HostRuntime) -> Self {
        let start = if rt.stderr().is_terminal() {
            Instant::now(rt).ok()
        } else {
            None
        };
        Progress {
            rt,
            start,
            next: QUIET_AT_FIRST,
            now: 0,
            is_shown: false,
        }
    }

    /// Takes the line away, if there is one.
    pub fn clear(&mut self) {
        if self.is_shown {
            let _ = eprint!(self.rt; "\r\x1b[K");
            self.is_shown = false;
        }
    }
}

impl Watch for Progress<'_> {
    fn is_due(&mut self) -> bool {
        let Some(start) = self.start else {
            return false;
        };
        let Ok(elapsed) = start.elapsed(self.rt) else {
            return false;
        };
        self.now = elapsed.as_millis();
        self.next <= self.now
    }

    fn tell(&mut self, charged: u64, alive: u64) {
        let millis = self.now.max(1);
        let rate = u128::from(charged) * 1_000 / millis;
        let _ = eprint!(self.rt;
            "\r\x1b[K{charged} reductions, {alive} goals alive, {rate} reductions a second"
        );
        self.next = self.now.saturating_add(BETWEEN_LINES);
        self.is_shown = true;
    }
}

/// What is told nothing, and shows nothing.
#[derive(Drop)]
pub struct NoWatch;

impl Watch for NoWatch {
    fn is_due(&mut self) -> bool {
        false
    }

    fn tell(&mut self, _charged: u64, _alive: u64) {}
}
