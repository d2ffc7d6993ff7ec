//! The clock of the system.

ghost use Rattle.std.specs.Prelude.{◌≡◌};

use outside::Clock;
use std::marker::Model;
use std::time;

/// The clock of the system that never goes back, in milliseconds from a start of its own. A contract sees its last
/// reading, or 0 before the first.
#[derive(Drop)]
pub struct SystemClock<'a, C: time::Clock> {
    system: &'a C,
    last: u64,
}

impl<'a, C: time::Clock> Model for SystemClock<'a, C> {
    ghost use Rattle.std.specs.Prelude.{ℕ};

    ghost Value = { ℕ };

    ghost view = { λ c. c.last };
}

impl<'a, C: time::Clock> SystemClock<'a, C> {
    /// The clock of that system, not read yet.
    pub fn new(system: &'a C) -> SystemClock<'a, C>
        ensures { result ≡ 0 }
    {
        SystemClock { system, last: 0 }
    }
}

impl<C: time::Clock> Clock for SystemClock<'_, C> {
    ghost use Rattle.std.specs.Prelude.{◌≡◌, ◌≤◌, None};
    ghost use Rattle.outside.specs.Clock.{ReadsClock};

    ghost readings = { λ _. None };

    /// Reads the clock. A clock that can't be read, or that went back, gives its last reading again.
    fn now(&mut self) -> u64
        ensures told { ReadsClock None None result }
        ensures later { self.old ≤ result }
        ensures last { self.new ≡ result }
    {
        if let Ok(since_start) = self.system.monotonic() {
            let ms = u64::try_from(since_start.as_millis()).unwrap_or(u64::MAX);
            self.last = self.last.max(ms);
        }
        self.last
    }
}
