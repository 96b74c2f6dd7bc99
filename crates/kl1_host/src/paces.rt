// Lines of the log that strangers could make come often.

use kl1_host_front::Pace;
use std::sync::{Mutex, Wait};
use std::time::Clock;

/// Lines that are told once a second at most.
#[derive(Clone, Copy)]
pub enum PacedLine {
    /// An address has too many connections.
    TurnedAway,
    /// No thread could be made for a connection.
    Unserved,
    /// A connection gave way to another.
    GaveWay,
}

/// How often each of these lines is told.
#[derive(Drop)]
pub struct Paces {
    turned_away: Mutex<Pace>,
    unserved: Mutex<Pace>,
    gave_way: Mutex<Pace>,
}

impl Paces {
    /// None was told.
    pub fn new() -> Self {
        Paces {
            turned_away: Mutex::new(Pace::new()),
            unserved: Mutex::new(Pace::new()),
            gave_way: Mutex::new(Pace::new()),
        }
    }

    /// How often this line is told.
    fn pace_of(&self, line: PacedLine) -> &Mutex<Pace> {
        match line {
            PacedLine::TurnedAway => &self.turned_away,
            PacedLine::Unserved => &self.unserved,
            PacedLine::GaveWay => &self.gave_way,
        }
    }

    /// How many lines like this one were left out, if it is to be told now.
    pub fn told<R: Wait + Clock>(&self, rt: &R, line: PacedLine) -> Option<u64> {
        let now = match rt.monotonic() {
            Ok(time) => u64::try_from(time.as_millis()).unwrap_or(u64::MAX),
            Err(_) => 0,
        };
        self.pace_of(line).lock(rt).told(now)
    }
}
