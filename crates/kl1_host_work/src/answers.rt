// Answers of an account that are made or written.

ghost use Rattle.std.specs.Prelude.{◌≡◌, ◌≤◌, ◌+◌, ◌-◌, cond, nat_lt};
ghost use Rattle.kl1_host_work.specs.declared.answers.TheConstants.{MOST_ANSWERS};

use std::sync::{Mutex, Wait};

/// The most answers of an account to browsers that are made or written at a time: of one that isn't read all is kept, which may be ten
/// megabytes.
const MOST_ANSWERS: u64 = 8;

/// How many answers are made or written.
#[derive(Drop)]
struct Count {
    number: u64,
    ghost bounded: { number ≤ MOST_ANSWERS },
}

impl Count {
    /// Counts one more, if it may be.
    fn begin(&mut self) -> bool
        ensures may { result ≡ nat_lt self.old.number MOST_ANSWERS }
        ensures number { self.new.number ≡ self.old.number + cond result 1 0 }
    {
        if self.number >= MOST_ANSWERS {
            return false;
        }
        self.number += 1;
        true
    }

    /// Counts one less.
    fn end(&mut self)
        ensures { self.new.number ≡ self.old.number - 1 }
    {
        self.number = self.number.saturating_sub(1);
    }
}

/// How many answers of an account to browsers are made or written: never more than `MOST_ANSWERS`.
#[derive(Drop)]
pub(crate) struct Answers {
    count: Mutex<Count>,
}

impl Answers {
    /// None.
    pub(crate) fn new() -> Self {
        Answers {
            count: Mutex::new(Count { number: 0 }),
        }
    }

    /// Counts one more, if it may be.
    pub(crate) fn begin<W: Wait>(&self, rt: &W) -> bool {
        let mut guard = self.count.lock(rt);
        let count = &mut *guard;
        count.begin()
    }

    /// Counts one less.
    pub(crate) fn end<W: Wait>(&self, rt: &W) {
        let mut guard = self.count.lock(rt);
        let count = &mut *guard;
        count.end();
    }
}
