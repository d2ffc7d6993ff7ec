//! Memory that is used again.

use crate::incoming::Incoming;
use std::alloc::Global;
use std::marker::Model;
use std::mem;

/// Memory for the records that come, or for the lines that are written, which goes on from one to the next. What it holds
/// between two of them counts for nothing.
#[derive(Drop)]
pub(crate) struct Buffer {
    bytes: Vec<u8>,
}

impl Model for Buffer {
    ghost Value = { Unit {0} };

    ghost view = { λ _. tt };
}

impl Buffer {
    /// No memory yet.
    pub(crate) fn new(alloc: Global) -> Buffer {
        Buffer {
            bytes: Vec::new(alloc),
        }
    }

    /// Hands the memory out.
    pub(crate) fn lend(&mut self, alloc: Global) -> Vec<u8> {
        mem::replace(&mut self.bytes, Vec::new(alloc))
    }

    /// Takes memory back.
    pub(crate) fn take_back(&mut self, bytes: Vec<u8>) {
        self.bytes = bytes;
    }

    /// Takes the memory of a record back, unless an answer shares it.
    pub(crate) fn take_record(&mut self, rec: Incoming) {
        if let Some(bytes) = rec.into_memory() {
            self.bytes = bytes;
        }
    }
}
