//! Bytes that are lent, and may be shared on.

ghost use Rattle.std.specs.Prelude.{◌≡◌, ◌+◌, ◌≤◌, length, IfSome};
ghost use Rattle.xdr_codec.specs.Blobs.{part_of};

use crate::blob::Blob;
use std::alloc::Global;
use std::marker::Model;
use std::rc::Rc;

/// Bytes that are lent. If they are a part of bytes that are shared, a blob can share them on, which copies nothing.
#[derive(Debug, Drop)]
pub struct Lent<'a> {
    bytes: &'a [u8],
    /// The shared bytes that they are a part of, if any.
    all: Option<&'a Rc<Vec<u8>>>,
    /// Where they begin there.
    from: usize,
}

impl<'a> Model for Lent<'a> {
    ghost use Rattle.std.specs.Prelude.{List, ℕ, option_map};
    ghost use Rattle.xdr_codec.specs.Blobs.{LieIn};

    ghost Value = { List ℕ };

    ghost view = { λ l. l.bytes.now };

    ghost invariant = { λ l. LieIn (option_map (λ all. all.now.value.items) l.all) l.from l.bytes.now };
}

impl<'a> Lent<'a> {
    /// These bytes, which can't be shared on.
    pub fn of(bytes: &'a [u8]) -> Lent<'a>
        ensures { result ≡ bytes.entry.now }
    {
        Lent {
            bytes,
            all: None,
            from: 0,
        }
    }

    /// All of these bytes, which can be shared on.
    pub fn all(all: &'a Rc<Vec<u8>>) -> Lent<'a>
        ensures { result ≡ all.entry.now.value.items }
    {
        Lent::within(all, 0, all.len())
    }

    /// So many of these bytes from a place on, which can be shared on.
    fn within(all: &'a Rc<Vec<u8>>, from: usize, len: usize) -> Lent<'a>
        requires { from + len ≤ length all.now.value.items }
        ensures { result ≡ part_of from len all.entry.now.value.items }
    {
        Lent {
            bytes: &all.as_slice()[from..from + len],
            all: Some(all),
            from,
        }
    }

    /// So many bytes from a place on, of so many of these from another place on, which can be shared on.
    fn part_in(all: &'a Rc<Vec<u8>>, place: usize, size: usize, from: usize, len: usize) -> Lent<'a>
        requires within { place + size ≤ length all.now.value.items }
        requires fits { from + len ≤ size }
        ensures { result ≡ part_of from len (part_of place size all.entry.now.value.items) }
    {
        Lent::within(all, place + from, len)
    }

    /// The bytes.
    pub fn bytes(&self) -> &'a [u8]
        ensures { result.now ≡ self.now }
    {
        self.bytes
    }

    /// The same bytes, which can be shared on if these can.
    pub fn again(&self) -> Lent<'a>
        ensures { result ≡ self.now }
    {
        Lent {
            bytes: self.bytes,
            all: self.all,
            from: self.from,
        }
    }

    /// So many of the bytes from a place on, which can be shared on if all can.
    pub fn part(&self, from: usize, len: usize) -> Lent<'a>
        requires { from + len ≤ length self.now }
        ensures { result ≡ part_of from len self.now }
    {
        let bytes = self.bytes;
        match self.all {
            Some(all) => Lent::part_in(all, self.from, bytes.len(), from, len),
            None => Lent::of(&bytes[from..from + len]),
        }
    }

    /// A blob that shares the bytes. None if they can't be shared on, or too many share them.
    pub fn share(&self, alloc: Global) -> Option<Blob>
        ensures { IfSome result (λ b. b ≡ self.now) }
    {
        match self.all {
            Some(all) => share_in(alloc, all, self.from, self.bytes),
            None => None,
        }
    }
}

/// A blob that shares these bytes, which stand in others. None if too many share them.
fn share_in(alloc: Global, all: &Rc<Vec<u8>>, from: usize, bytes: &[u8]) -> Option<Blob>
    requires within { from + length bytes.now ≤ length all.now.value.items }
    requires is { bytes.now ≡ part_of from (length bytes.now) all.now.value.items }
    ensures { IfSome result (λ b. b ≡ bytes.now) }
{
    match Blob::share(alloc, all, from, bytes.len()) {
        Ok(blob) => Some(blob),
        Err(_) => None,
    }
}
