//! Standard output and standard error.

ghost use Rattle.std.specs.Prelude.{◌≡◌};

use crate::again::write_again;
use outside::{LinkFault, Sink};
use std::io::{Stderr, Stdout, Write};
use std::marker::Model;

/// A stream of the system as a sink. A contract sees the number of writes that failed.
#[derive(Drop)]
pub struct WriterSink<W: Write + Drop> {
    writer: W,
    faults: u64,
}

/// Standard output as a sink.
pub type StandardOutput = WriterSink<Stdout>;

/// Standard error as a sink.
pub type StandardError = WriterSink<Stderr>;

impl<W: Write + Drop> Model for WriterSink<W> {
    ghost use Rattle.std.specs.Prelude.{ℕ};

    ghost Value = { ℕ };

    ghost view = { λ s. s.faults };
}

impl<W: Write + Drop> WriterSink<W> {
    /// A sink over that stream, of which no write has failed.
    pub fn new(writer: W) -> WriterSink<W>
        ensures { result ≡ 0 }
    {
        WriterSink { writer, faults: 0 }
    }
}

impl<W: Write + Drop> Sink for WriterSink<W> {
    ghost use Rattle.std.specs.Prelude.{None, IfOk};
    ghost use Rattle.outside.specs.Causes.{HasCause};
    ghost use Rattle.outside.specs.Sink.{TakesSome, WritesTo};
    ghost use Rattle.net_edge.specs.Counts.{CountsFault};

    ghost written = { λ _. None };

    ghost faults = { λ count. count };

    /// Writes what the system takes. An error of it is a failure, and so is that it takes nothing, but a write that is
    /// interrupted is made again.
    fn write(&mut self, bytes: &[u8]) -> Result<usize, LinkFault>
        ensures takes { IfOk result (TakesSome bytes.now) }
        ensures told { WritesTo None None bytes.now result }
        ensures cause { HasCause self.old self.new result }
        ensures counts { CountsFault self.old self.new result }
    {
        if bytes.is_empty() {
            return Ok(0);
        }
        match write_again(&mut self.writer, bytes) {
            Ok(count) if count > 0 => Ok(count),
            _ => {
                self.faults = self.faults.saturating_add(1);
                Err(LinkFault::Failed)
            }
        }
    }
}
