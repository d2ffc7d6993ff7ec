//! The bytes of a file from the start of a page on.

ghost use Rattle.std.specs.Bool.{OnFalse, OnTrue};
ghost use Rattle.std.specs.Prelude.{◌≡◌, ◌≤◌, ◌<◌, ◌+◌, ◌-◌, ◌++◌, ◌^◌, ◌/◌, length, take, IfOk, IfSome};
ghost use Rattle.std.specs.Vec.{vec_capacity};
ghost use Rattle.file_ops.specs.Gather.{most_asked};
ghost use Rattle.file_ops.specs.Base.{nothing_of, pages_size, place_after, is_whole, with_more};
ghost use Rattle.file_ops.specs.Overlaid.{bytes_from};

use std::alloc::Global;
use std::marker::Model;
use std::mem;
use xdr_codec::{Blob, Lent, Memory};

/// How many bytes a page has.
pub(crate) const PAGE: u64 = 4096;

/// The bytes of a file from the start of the first page that meets a range on, as far as they are known. They are at
/// most those of the pages that meet the range, and the memory of these is taken at once.
#[derive(Drop)]
pub struct Base {
    start: u64,
    limit: u64,
    /// The bytes, as long as they aren't shared.
    own: Vec<u8>,
    /// The bytes once they are shared, by an answer or with the record that they came in. All pages are there then.
    shared: Option<Blob>,
}

impl Model for Base {
    ghost use Rattle.std.specs.Prelude.{◌≤◌, ◌<◌, ◌+◌, ◌^◌, length};
    ghost use Rattle.std.specs.Vec.{vec_capacity};
    ghost use Rattle.xdr_codec.specs.Blobs.{shared_or};
    ghost use Rattle.file_ops.specs.Base.{Bytes};
    ghost use Rattle.file_ops.specs.Shared.{Holds};

    ghost Value = { Bytes };

    ghost view = { λ b. record { start = b.start; limit = b.limit; bytes = shared_or b.shared b.own.items } };

    ghost invariant = { λ b. (length (shared_or b.shared b.own.items) ≤ b.limit) × Holds b.shared b.limit (vec_capacity b.own) × (b.start + b.limit < 2 ^ 64) };
}

impl Base {
    /// No bytes of the pages that meet a range. Out of memory is told too if these end past all places.
    pub(crate) fn new(alloc: Global, offset: u64, count: u32) -> Result<Base, Memory>
        ensures { IfOk result (λ b. b ≡ nothing_of offset count) }
    {
        let inside = offset % PAGE;
        let start = offset - inside;
        let limit = pages_size(inside, count);
        if start.checked_add(limit).is_none() {
            return Err(Memory);
        }
        Ok(Base {
            start,
            limit,
            own: Vec::with_capacity(alloc, limit as usize)?,
            shared: None,
        })
    }

    /// Where the bytes begin in the file.
    pub(crate) fn start(&self) -> u64
        ensures { result ≡ self.now.start }
    {
        self.start
    }

    /// Where the bytes end in the file.
    pub(crate) fn end(&self) -> u64
        ensures { result ≡ place_after self.now }
    {
        self.start + self.bytes().len() as u64
    }

    /// Whether all pages are there.
    pub(crate) fn is_whole(&self) -> bool
        ensures { result ≡ is_whole self.now }
    {
        self.bytes().len() as u64 >= self.limit
    }

    /// How many pages there may be.
    pub(crate) fn page_count(&self) -> u64
        ensures count { result ≡ self.now.limit / 4096 }
        ensures small { result < 2 ^ 52 }
    {
        self.limit / PAGE
    }

    /// How many bytes a READ may ask for that may ask for so many: those that the pages lack, at most.
    pub(crate) fn most_asked(&self, rsize: u32) -> u32
        ensures { result ≡ most_asked rsize self.now }
    {
        (self.limit - self.bytes().len() as u64).min(u64::from(rsize)) as u32
    }

    /// Where such a READ ends.
    pub(crate) fn end_of(&self, rsize: u32) -> u64
        ensures { result ≡ place_after self.now + most_asked rsize self.now }
    {
        let most = (self.limit - self.bytes().len() as u64).min(u64::from(rsize));
        self.start + (self.bytes().len() as u64 + most)
    }

    /// The bytes.
    pub(crate) fn bytes(&self) -> &[u8]
        ensures { result.now ≡ self.now.bytes }
    {
        match &self.shared {
            Some(shared) => shared.bytes(),
            None => self.own.as_slice(),
        }
    }

    /// Puts more bytes after them, as many as there may be.
    pub(crate) fn put(&mut self, more: &[u8])
        ensures { self.new ≡ with_more more.now self.old }
    {
        if self.shared.is_some() {
            return;
        }
        extend(&mut self.own, self.limit, more);
    }

    /// The same of bytes that are lent. They aren't copied if they can be shared on and are all that there may be.
    pub(crate) fn put_lent(&mut self, alloc: Global, more: &Lent<'_>)
        ensures { self.new ≡ with_more more.now self.old }
    {
        if self.take_over(alloc, more) {
            return;
        }
        self.put(more.bytes());
    }

    /// Shares these bytes if they are all that there may be and can be shared on: whether it does.
    fn take_over(&mut self, alloc: Global, more: &Lent<'_>) -> bool
        ensures over { OnTrue result (self.new ≡ with_more more.now self.old) }
        ensures not { OnFalse result (self.new ≡ self.old) }
    {
        if self.end() != self.start || more.bytes().len() as u64 != self.limit {
            return false;
        }
        match more.share(alloc) {
            Some(shared) => {
                self.shared = Some(shared);
                true
            }
            None => false,
        }
    }

    /// So many bytes from an offset of the file on, which aren't copied. None if pages are missing, or there are fewer
    /// bytes or no memory.
    pub(crate) fn share(&mut self, alloc: Global, offset: u64, size: usize) -> Option<Blob>
        ensures bytes { IfSome result (λ b. b ≡ take size (bytes_from offset self.old)) }
        ensures same { self.new ≡ self.old }
    {
        self.give(alloc);
        self.part(alloc, offset, size)
    }

    /// Lets answers share the bytes, if all pages are there and there is memory.
    fn give(&mut self, alloc: Global)
        ensures { self.new ≡ self.old }
    {
        if self.shared.is_some() || !self.is_whole() {
            return;
        }
        match Blob::try_shared(alloc, mem::replace(&mut self.own, Vec::new(alloc))) {
            Ok(shared) => self.shared = Some(shared),
            Err(own) => self.own = own,
        }
    }

    /// So many of the shared bytes from an offset of the file on.
    fn part(&self, alloc: Global, offset: u64, size: usize) -> Option<Blob>
        ensures { IfSome result (λ b. b ≡ take size (bytes_from offset self.now)) }
    {
        match &self.shared {
            Some(shared) => {
                let from = offset.saturating_sub(self.start) as usize;
                shared.part(alloc, from, size)
            }
            None => None,
        }
    }
}

/// Puts more bytes after others, as many as there may be in all.
fn extend(bytes: &mut Vec<u8>, limit: u64, more: &[u8])
    requires fits { length bytes.old.items ≤ limit }
    requires room { limit ≤ vec_capacity bytes.old }
    ensures bytes { bytes.new.items ≡ bytes.old.items ++ take (limit - length bytes.old.items) more.now }
    ensures room { limit ≤ vec_capacity bytes.new }
{
    let room = limit as usize - bytes.len();
    let size = more.len().min(room);
    let Ok(()) = bytes.extend_from_slice(&more[..size]) else {
        unreachable!();
    };
}

/// How many bytes the pages have that meet a range, which begins so far inside of a page.
fn pages_size(inside: u64, count: u32) -> u64
    requires { inside < 4096 }
    ensures { result ≡ pages_size inside count }
{
    if count == 0 {
        return 0;
    }
    (inside + u64::from(count)).div_ceil(PAGE) * PAGE
}
