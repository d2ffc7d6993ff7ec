//! A dial that is made again until its time is over.

use std::thread;
use std::time::{Clock, Duration, Instant};

/// How many seconds a dial is made for: as long as a reply is waited for.
pub(crate) const LIMIT_SECS: u64 = 15;

/// The most rounds of a dial: more than there are pauses in its time.
pub(crate) const MOST_ROUNDS: u32 = 20;

/// How many milliseconds the first pause takes. Each further one takes twice as long, up to the longest.
const FIRST_PAUSE_MS: u64 = 100;

const LONGEST_PAUSE_MS: u64 = 1_000;

/// The time of a dial, which is made in rounds.
#[derive(Drop)]
pub(crate) struct Rounds<'a, C: Clock> {
    system: &'a C,
    begun: Instant,
    pause_ms: u64,
}

impl<'a, C: Clock> Rounds<'a, C> {
    /// Begins the first round. None if the clock can't be read.
    pub(crate) fn begin(system: &'a C) -> Option<Rounds<'a, C>> {
        Some(Rounds {
            system,
            begun: Instant::now(system).ok()?,
            pause_ms: FIRST_PAUSE_MS,
        })
    }

    /// Waits for the next round. None if the time is over.
    pub(crate) fn pause(&mut self) -> Option<()> {
        let elapsed = self.begun.elapsed(self.system).ok()?;
        let left = Duration::from_secs(LIMIT_SECS).checked_sub(elapsed)?;
        thread::sleep(self.system, Duration::from_millis(self.pause_ms).min(left));
        self.pause_ms = self.pause_ms.saturating_mul(2).min(LONGEST_PAUSE_MS);
        Some(())
    }
}
