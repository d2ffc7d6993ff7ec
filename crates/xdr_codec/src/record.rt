//! Records that go out, each with its mark before it.

ghost use Rattle.std.specs.Prelude.{◌≡◌, ◌<◌, ◌≤◌, ◌^◌, ◌+◌, ◌++◌, length, drop, IfOk};
ghost use Rattle.byteorder.specs.Endian.{big_bytes};
ghost use Rattle.xdr_codec.specs.Marks.{marked};

use crate::blob::{Blob, Memory};
use byteorder::{BigEndian, ByteOrder};
use std::alloc::Global;
use std::marker::Model;
use std::rc::Rc;

/// How many bytes a mark has.
pub(crate) const MARK: usize = 4;

/// The most bytes of a record: a mark has 31 bits for them.
const MOST_BYTES: usize = 0x7FFF_FFFF;

/// The highest bit of a mark: the fragment is the last of its record.
const LAST: u32 = 0x8000_0000;

/// A record that goes out. Before its bytes stands the mark with which it is one fragment of a stream of bytes (RFC 5531,
/// section 11). So it is sent on a stream, and sent again, without a copy. Its value is the bytes without the mark.
#[derive(Debug, Drop)]
pub struct Record {
    text: Rc<Vec<u8>>,
}

impl Model for Record {
    ghost use Rattle.std.specs.Prelude.{List, ℕ, drop};
    ghost use Rattle.xdr_codec.specs.Marks.{IsMarked};

    ghost Value = { List ℕ };

    ghost view = { λ r. drop 4 r.text.value.items };

    ghost invariant = { λ r. IsMarked r.text.value.items };
}

impl Record {
    /// A copy of the bytes, behind their mark. One of 2^31 bytes or more is a record for which there is no memory.
    pub fn copy(alloc: Global, bytes: &[u8]) -> Result<Record, Memory>
        ensures { IfOk result (λ r. r ≡ bytes.now) }
    {
        let mut text = Vec::new(alloc);
        text.extend_from_slice(&[0; MARK])?;
        text.extend_from_slice(bytes)?;
        Record::behind_room(alloc, text)
    }

    /// The bytes behind the first four, in whose place the mark is written. They aren't copied.
    #[tactic(auto, using(crate::proofs::Marked::marked_by))]
    pub(crate) fn behind_room(alloc: Global, text: Vec<u8>) -> Result<Record, Memory>
        requires { 4 ≤ length text.items }
        ensures { IfOk result (λ r. r ≡ drop 4 text.items) }
    {
        let mut text = text;
        let size = text.len() - MARK;
        if size > MOST_BYTES {
            return Err(Memory);
        }
        put_mark(text.as_mut_slice(), size as u32);
        Ok(Record {
            text: Rc::new(alloc, text)?,
        })
    }

    /// The bytes.
    pub fn bytes(&self) -> &[u8]
        ensures { result.now ≡ self.now }
    {
        &self.text.as_slice()[MARK..]
    }

    /// The mark and the bytes: the record as one fragment.
    pub fn marked(&self) -> &[u8]
        ensures text { result.now ≡ marked self.now }
        ensures fits { length self.now < 2 ^ 31 }
    {
        self.text.as_slice()
    }

    /// The bytes, which are shared and not copied.
    pub fn share(&self, alloc: Global) -> Result<Blob, Memory>
        ensures { IfOk result (λ b. b ≡ self.now) }
    {
        Blob::share(alloc, &self.text, MARK, self.text.len() - MARK)
    }
}

/// Writes the mark of a record of so many bytes over the first four bytes.
fn put_mark(text: &mut [u8], size: u32)
    requires room { 4 ≤ length text.old }
    requires fits { size < 2 ^ 31 }
    ensures { text.new ≡ big_bytes 4 (2 ^ 31 + size) ++ drop 4 text.old }
{
    BigEndian::write_u32(text, LAST + size);
}
