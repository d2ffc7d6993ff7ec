//! A place for bytes that no one wants.

use outside::{LinkFault, Sink};
use std::marker::Model;

/// A sink that takes each piece whole and keeps nothing of it.
#[derive(Clone, Copy, Debug)]
pub struct Nowhere;

impl Sink for Nowhere {
    ghost use Rattle.std.specs.Prelude.{None, IfOk};
    ghost use Rattle.outside.specs.Causes.{HasCause};
    ghost use Rattle.outside.specs.Sink.{TakesSome, WritesTo};

    ghost written = { λ _. None };

    ghost faults = { λ _. 0 };

    fn write(&mut self, bytes: &[u8]) -> Result<usize, LinkFault>
        ensures takes { IfOk result (TakesSome bytes.now) }
        ensures told { WritesTo None None bytes.now result }
        ensures cause { HasCause 0 0 result }
    {
        Ok(bytes.len())
    }
}
