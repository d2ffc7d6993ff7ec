//! Owned bytes.

ghost use Rattle.std.specs.Prelude.{◌≡◌, ◌+◌, ◌<◌, ◌≤◌, ◌^◌, length, take, OnOk, IfErr, IfOk, IfSome};
ghost use Rattle.xdr_codec.specs.Blobs.{part_of};

use std::alloc::{AllocError, AllocFailed, Global};
use std::marker::Model;
use std::rc::Rc;

/// Out of memory: the allocator refused.
#[derive(Clone, Copy, Debug, PartialEq, Eq)]
pub struct Memory;

impl From<AllocError> for Memory {
    fn from(_error: AllocError) -> Memory {
        Memory
    }
}

impl<T: Drop> From<AllocFailed<T>> for Memory {
    fn from(_failed: AllocFailed<T>) -> Memory {
        Memory
    }
}

/// So many bytes from a place on, of bytes that are shared.
#[derive(Debug, Drop)]
struct Part {
    all: Rc<Vec<u8>>,
    from: usize,
    len: usize,
}

impl Model for Part {
    ghost use Rattle.std.specs.Prelude.{List, ℕ};
    ghost use Rattle.xdr_codec.specs.Blobs.{part_of, IsPart};

    ghost Value = { List ℕ };

    ghost view = { λ p. part_of p.from p.len p.all.value.items };

    ghost invariant = { λ p. IsPart p.from p.len p.all.value.items };
}

impl Part {
    /// The bytes.
    fn bytes(&self) -> &[u8]
        ensures { result.now ≡ self.now }
    {
        &self.all.as_slice()[self.from..self.from + self.len]
    }

    /// How many bytes there are in all that it is a part of, with room for more.
    fn footprint(&self) -> usize {
        self.all.capacity()
    }

    /// Keeps the first bytes alone.
    fn shorten(&mut self, len: usize)
        ensures { self.new ≡ take len self.old }
    {
        if len < self.len {
            self.len = len;
        }
    }

    /// The same bytes, which aren't copied.
    fn again(&self) -> Result<Part, Memory>
        ensures { IfOk result (λ p. p ≡ self.now) }
    {
        Ok(Part {
            all: self.all.clone()?,
            from: self.from,
            len: self.len,
        })
    }

    /// So many of the bytes from a place on, which aren't copied. None if there are fewer, or too many share them.
    fn share(&self, alloc: Global, from: usize, len: usize) -> Option<Blob>
        ensures { IfSome result (λ b. b ≡ part_of from len self.now) }
    {
        if self.len < len || self.len - len < from {
            return None;
        }
        match Blob::share(alloc, &self.all, self.from + from, len) {
            Ok(blob) => Some(blob),
            Err(_) => None,
        }
    }
}

/// A list of bytes, that it owns or shares.
#[derive(Debug, Drop)]
pub struct Blob {
    part: Option<Part>,
    own: Vec<u8>,
}

impl Model for Blob {
    ghost use Rattle.std.specs.Prelude.{List, ℕ};
    ghost use Rattle.xdr_codec.specs.Blobs.{shared_or};

    ghost Value = { List ℕ };

    ghost view = { λ b. shared_or b.part b.own.items };
}

impl Blob {
    /// Holds these bytes, and takes no memory.
    pub fn of(bytes: Vec<u8>) -> Blob
        ensures { result ≡ bytes.items }
    {
        Blob {
            part: None,
            own: bytes,
        }
    }

    /// A copy of the bytes.
    pub fn copy(alloc: Global, bytes: &[u8]) -> Result<Blob, Memory>
        ensures { IfOk result (λ b. b ≡ bytes.now) }
    {
        let mut own = Vec::new(alloc);
        own.extend_from_slice(bytes)?;
        Ok(Blob::of(own))
    }

    /// So many bytes from a place on, which aren't copied.
    pub fn share(alloc: Global, all: &Rc<Vec<u8>>, from: usize, len: usize) -> Result<Blob, Memory>
        requires { from + len ≤ length all.now.value.items }
        ensures { IfOk result (λ b. b ≡ part_of from len all.now.value.items) }
    {
        let part = Part {
            all: all.clone()?,
            from,
            len,
        };
        Ok(Blob::over(alloc, part))
    }

    /// Holds these bytes so that they can be shared. They aren't copied.
    pub fn shared(alloc: Global, bytes: Vec<u8>) -> Result<Blob, Memory>
        ensures { IfOk result (λ b. b ≡ bytes.items) }
    {
        let len = bytes.len();
        let part = Part {
            all: Rc::new(alloc, bytes)?,
            from: 0,
            len,
        };
        Ok(Blob::over(alloc, part))
    }

    /// Holds these bytes so that they can be shared, as `shared` does. If there is no memory they come back.
    pub fn try_shared(alloc: Global, bytes: Vec<u8>) -> Result<Blob, Vec<u8>>
        ensures ok { IfOk result (λ b. b ≡ bytes.items) }
        ensures back { IfErr result (λ b. b ≡ bytes) }
    {
        let len = bytes.len();
        match Rc::new(alloc, bytes) {
            Ok(all) => Ok(Blob::over(alloc, Part { all, from: 0, len })),
            Err(failed) => Err(failed.value),
        }
    }

    /// So many of the bytes from a place on, which aren't copied. None if there are fewer, they are its own, or too many share
    /// them.
    pub fn part(&self, alloc: Global, from: usize, len: usize) -> Option<Blob>
        ensures { IfSome result (λ b. b ≡ part_of from len self.now) }
    {
        match &self.part {
            Some(part) => part.share(alloc, from, len),
            None => None,
        }
    }

    /// The same bytes: shared if they are shared, else a copy.
    pub fn again(&self, alloc: Global) -> Result<Blob, Memory>
        ensures { IfOk result (λ b. b ≡ self.now) }
    {
        match &self.part {
            Some(part) => Ok(Blob::over(alloc, part.again()?)),
            None => Blob::copy(alloc, self.own.as_slice()),
        }
    }

    /// How many bytes there are.
    pub fn len(&self) -> usize
        ensures len { result ≡ length self.now }
        ensures small { result < 2 ^ 63 }
    {
        let bytes = self.bytes();
        bytes.len()
    }

    /// How many bytes of memory are kept for them: if they are shared, of all that they are a part of.
    pub fn footprint(&self) -> usize {
        match &self.part {
            Some(part) => part.footprint(),
            None => self.own.capacity(),
        }
    }

    /// Keeps the first bytes alone, in the same memory.
    pub fn shorten(&mut self, len: usize)
        ensures { self.new ≡ take len self.old }
    {
        match &mut self.part {
            Some(part) => part.shorten(len),
            None => self.own.truncate(len),
        }
    }

    /// Shares this part.
    fn over(alloc: Global, part: Part) -> Blob
        ensures { result ≡ part }
    {
        Blob {
            part: Some(part),
            own: Vec::new(alloc),
        }
    }

    /// The bytes.
    pub fn bytes(&self) -> &[u8]
        ensures { result.now ≡ self.now }
    {
        match &self.part {
            Some(part) => part.bytes(),
            None => self.own.as_slice(),
        }
    }
}
