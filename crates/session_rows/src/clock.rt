//! A clock whose readings are given.

use outside::Clock;

/// Gives these readings, in milliseconds, one after the other, and from then on the last one: they may go back. It tells
/// none of them.
#[derive(Drop)]
pub struct GivenClock<'a> {
    left: &'a [u32],
    last: u32,
}

impl<'a> GivenClock<'a> {
    /// A clock that gives 0 if there are no readings.
    pub fn new(readings: &'a [u32]) -> GivenClock<'a> {
        GivenClock {
            left: readings,
            last: 0,
        }
    }
}

impl Clock for GivenClock<'_> {
    ghost use Rattle.std.specs.Prelude.{None};

    ghost readings = { λ c. None };

    fn now(&mut self) -> u64 {
        if let Some((first, rest)) = self.left.split_first() {
            self.last = *first;
            self.left = rest;
        }
        u64::from(self.last)
    }
}
