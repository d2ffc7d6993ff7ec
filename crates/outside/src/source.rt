//! Where bytes come from.

ghost use Rattle.std.specs.Prelude.{◌≡◌, ◌≤◌, ◌<◌, ℕ, List, Option, length, take, min, IfOk, is_err};
ghost use Rattle.outside.specs.Causes.{HasCauseFailed};
ghost use Rattle.outside.specs.Source.{TakesFrom};
ghost use Rattle.outside.specs.Views.{is_to_fail};

use std::alloc::Global;
use std::marker::Model;
use xdr_codec::Memory;

/// The outside failed.
#[derive(Clone, Copy, Debug, PartialEq, Eq)]
pub struct Failed;

/// A stream of bytes that is read to its end.
pub trait Source {
    /// What is left to be read, if the source tells it.
    ghost left: { Self → Option (List ℕ) };

    /// How often the outside failed. It never falls.
    ghost faults: { Self → ℕ };

    /// Reads bytes into the front of the buffer, and answers how many; 0 is the end.
    fn read(&mut self, buf: &mut [u8]) -> Result<usize, Failed>
        requires { 0 < length buf.old }
        ensures fits { IfOk result (λ n. n ≤ length buf.new) }
        ensures told { TakesFrom (left self.old) (left self.new) buf.new result }
        ensures cause { HasCauseFailed (faults self.old) (faults self.new) result };
}

/// A source in memory. The calls that are to fail are given, and no other call fails.
#[derive(Debug, Drop)]
pub struct MemSource {
    bytes: Vec<u8>,
    at: usize,
    fails: Vec<u32>,
    calls: u32,
    faults: u64,
}

impl Model for MemSource {
    ghost use Rattle.std.specs.Prelude.{◌≤◌, drop, length};
    ghost use Rattle.outside.specs.Views.{SourceView};

    ghost Value = { SourceView };

    ghost view = { λ s. record { left = drop s.at s.bytes.items; fails = s.fails.items; calls = s.calls; faults = s.faults } };

    ghost invariant = { λ s. s.at ≤ length s.bytes.items };
}

impl MemSource {
    /// A source of these bytes, whose calls of these numbers fail; calls are counted from 1.
    pub fn new(alloc: Global, bytes: &[u8], fails: &[u32]) -> Result<MemSource, Memory>
        ensures { IfOk result (λ s. s ≡ record { left = bytes.now; fails = fails.now; calls = 0; faults = 0 }) }
    {
        Ok(MemSource {
            bytes: bytes.to_vec(alloc)?,
            at: 0,
            fails: fails.to_vec(alloc)?,
            calls: 0,
            faults: 0,
        })
    }
}

impl Source for MemSource {
    ghost use Rattle.std.specs.Prelude.{◌≡◌, ◌≤◌, ◌<◌, Some, length, IfOk, is_err};
    ghost use Rattle.outside.specs.Causes.{HasCauseFailed};
    ghost use Rattle.outside.specs.Source.{TakesFrom};
    ghost use Rattle.outside.specs.Views.{is_to_fail};

    ghost left = { λ s. Some s.left };

    ghost faults = { λ s. s.faults };

    fn read(&mut self, buf: &mut [u8]) -> Result<usize, Failed>
        requires { 0 < length buf.old }
        ensures fits { IfOk result (λ n. n ≤ length buf.new) }
        ensures told { TakesFrom (Some self.old.left) (Some self.new.left) buf.new result }
        ensures cause { HasCauseFailed self.old.faults self.new.faults result }
        ensures listed { is_err result ≡ is_to_fail self.old.fails self.old.calls }
    {
        self.calls = self.calls.saturating_add(1);
        if self.fails.as_slice().contains(&self.calls) {
            self.faults = self.faults.saturating_add(1);
            return Err(Failed);
        }
        let (_, left) = self.bytes.as_slice().split_at(self.at);
        let count = copy_front(left, buf);
        self.at += count;
        Ok(count)
    }
}

/// Copies as many bytes as both have, and answers how many.
pub(crate) fn copy_front(from: &[u8], to: &mut [u8]) -> usize
    ensures count { result ≡ min (length from.now) (length to.old) }
    ensures front { take result to.new ≡ take result from.now }
{
    let count = from.len().min(to.len());
    to[..count].copy_from_slice(&from[..count]);
    count
}
