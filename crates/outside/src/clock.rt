//! The clock.

ghost use Rattle.std.specs.Prelude.{◌≡◌, ℕ, List, Option};
ghost use Rattle.outside.specs.Clock.{ReadsClock};

use std::marker::Model;

/// A clock that counts milliseconds.
pub trait Clock {
    /// The readings that it gave, in order, if the clock tells them.
    ghost readings: { Self → Option (List ℕ) };

    /// Reads the clock: milliseconds from a moment of its own. It never fails.
    fn now(&mut self) -> u64
        ensures { ReadsClock (readings self.old) (readings self.new) result };
}

/// A clock that goes on by the same step at each reading, from 0, up to the greatest number of 64 bits.
#[derive(Debug, Drop)]
pub struct TickClock {
    tick: u64,
    count: u64,
}

impl Model for TickClock {
    ghost use Rattle.outside.specs.Views.{ClockView};

    ghost Value = { ClockView };

    ghost view = { λ c. record { tick = c.tick; count = c.count } };
}

impl TickClock {
    /// A clock whose n-th reading is (n - 1) times tick milliseconds, or the greatest u64 if that is less.
    pub fn new(tick: u64) -> TickClock
        ensures { result ≡ record { tick = tick; count = 0 } }
    {
        TickClock { tick, count: 0 }
    }
}

impl Clock for TickClock {
    ghost use Rattle.std.specs.Prelude.{◌≡◌};
    ghost use Rattle.outside.specs.Clock.{ReadsClock, reading, told_readings};

    ghost readings = { told_readings };

    fn now(&mut self) -> u64
        ensures told { ReadsClock (told_readings self.old) (told_readings self.new) result }
        ensures is { result ≡ reading self.old.tick self.old.count }
    {
        let ms = self.tick.saturating_mul(self.count);
        self.count = self.count.saturating_add(1);
        ms
    }
}
