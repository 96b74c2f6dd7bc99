// The clock and the randomness of the machine.

use kl1_host_web::Machine;
use std::random::RandomSource;
use std::time::Clock;

/// The clock and the randomness of the machine.
#[derive(Clone, Copy)]
pub struct ThisMachine<'m, R: Clock + RandomSource> {
    pub rt: &'m R,
}

impl<R: Clock + RandomSource> Machine for ThisMachine<'_, R> {
    fn seconds(&self) -> u64 {
        match self.rt.monotonic() {
            Ok(time) => time.as_secs(),
            Err(_) => 0,
        }
    }

    fn fill(&self, bytes: &mut [u8]) -> bool {
        self.rt.fill_bytes(bytes).is_ok()
    }
}
