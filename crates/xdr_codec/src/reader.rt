//! Reads words and opaques from the front of bytes.

ghost use Rattle.std.specs.Prelude.{◌≡◌, [], drop};
ghost use Rattle.xdr_codec.specs.Bytes.{IsBytes};
ghost use Rattle.xdr_codec.specs.Reading.{Reads, u32_at, u64_at, flag_at, fixed_at, opaque_at, end_at};
ghost use Rattle.xdr_codec.specs.Spells.{Finds, SpellsU32, SpellsU64, SpellsFlag, SpellsFixed, SpellsOpaque};

use byteorder::{BigEndian, ByteOrder};
use std::marker::Model;

/// Why bytes could not be read. A reader of several fields answers the fault of the first field, in order of
/// spelling, that can't be read.
#[derive(Clone, Copy, Debug, PartialEq, Eq)]
pub enum XdrFault {
    /// Bytes are missing.
    Short,
    /// A length is above its bound.
    TooLong,
    /// A bool word is neither 0 nor 1.
    BadBool,
    /// Bytes remain after the last field.
    Trailing,
    /// A word has a value that its field doesn't take.
    BadValue,
}

/// A place in bytes that are read from the front. A refused read leaves it where it was.
#[derive(Drop)]
pub struct Reader<'a> {
    rest: &'a [u8],
}

impl<'a> Model for Reader<'a> {
    ghost use Rattle.std.specs.Prelude.{List, ℕ};

    ghost Value = { List ℕ };

    ghost view = { λ r. r.rest.now };
}

impl<'a> Reader<'a> {
    /// A reader at the first byte.
    pub fn new(bytes: &'a [u8]) -> Reader<'a>
        ensures { result ≡ bytes.entry.now }
    {
        Reader { rest: bytes }
    }

    /// Another reader at the same place.
    pub fn again(&self) -> Reader<'a>
        ensures { result ≡ self.now }
    {
        Reader { rest: self.rest }
    }

    /// What is left is bytes: a fact for proofs.
    pub fn holds_bytes(&self)
        ensures { IsBytes self.now }
    {
        are_bytes(self.rest);
    }

    /// An unsigned number of four bytes (RFC 4506, section 4.2). Short exactly if fewer remain.
    pub fn u32(&mut self) -> Result<u32, XdrFault>
        ensures exact { Reads (λ x. x) self.old result self.new (u32_at self.old) }
        ensures spelled { Finds (λ x. x) SpellsU32 self.old result self.new }
    {
        self.holds_bytes();
        self.word()
    }

    /// An unsigned number of eight bytes (RFC 4506, section 4.5). Short exactly if fewer remain.
    pub fn u64(&mut self) -> Result<u64, XdrFault>
        ensures exact { Reads (λ x. x) self.old result self.new (u64_at self.old) }
        ensures spelled { Finds (λ x. x) SpellsU64 self.old result self.new }
    {
        self.holds_bytes();
        self.double_word()
    }

    /// A bool (RFC 4506, section 4.4). Short as for a number, BadBool exactly if the word is neither 0 nor 1.
    pub fn flag(&mut self) -> Result<bool, XdrFault>
        ensures exact { Reads (λ x. x) self.old result self.new (flag_at self.old) }
        ensures spelled { Finds (λ x. x) SpellsFlag self.old result self.new }
    {
        self.holds_bytes();
        self.zero_or_one()
    }

    /// A fixed opaque of n bytes and its padding, which may have any value (RFC 4506, section 4.9).
    /// Short exactly if they aren't all there.
    pub fn fixed(&mut self, n: usize) -> Result<&'a [u8], XdrFault>
        ensures exact { Reads (λ x. x.now) self.old result self.new (fixed_at n self.old) }
        ensures spelled { Finds (λ x. x.now) (SpellsFixed n) self.old result self.new }
    {
        self.holds_bytes();
        self.padded(n)
    }

    /// An opaque or a string of at most max bytes: a length, the bytes and their padding (RFC 4506, section 4.10).
    /// TooLong exactly if the length word is there and above max; Short exactly if the length word isn't
    /// there, or is at most max and the rest is missing.
    pub fn opaque(&mut self, max: u32) -> Result<&'a [u8], XdrFault>
        ensures exact { Reads (λ x. x.now) self.old result self.new (opaque_at max self.old) }
        ensures spelled { Finds (λ x. x.now) (SpellsOpaque max) self.old result self.new }
    {
        self.holds_bytes();
        self.counted(max)
    }

    /// That nothing is left: Trailing exactly if bytes remain.
    pub fn end(&self) -> Result<(), XdrFault>
        ensures { result ≡ end_at self.now }
    {
        if self.rest.is_empty() {
            Ok(())
        } else {
            Err(XdrFault::Trailing)
        }
    }

    fn word(&mut self) -> Result<u32, XdrFault>
        ensures { Reads (λ x. x) self.old result self.new (u32_at self.old) }
    {
        if self.rest.len() < 4 {
            return Err(XdrFault::Short);
        }
        let (front, rest) = self.rest.split_at(4);
        self.rest = rest;
        Ok(BigEndian::read_u32(front))
    }

    fn double_word(&mut self) -> Result<u64, XdrFault>
        ensures { Reads (λ x. x) self.old result self.new (u64_at self.old) }
    {
        if self.rest.len() < 8 {
            return Err(XdrFault::Short);
        }
        let (front, rest) = self.rest.split_at(8);
        self.rest = rest;
        Ok(BigEndian::read_u64(front))
    }

    #[tactic(auto, unfolding(crate::specs::Reading::flag_at))]
    fn zero_or_one(&mut self) -> Result<bool, XdrFault>
        ensures { Reads (λ x. x) self.old result self.new (flag_at self.old) }
    {
        let mut at = self.again();
        let word = at.word()?;
        if word > 1 {
            return Err(XdrFault::BadBool);
        }
        *self = at;
        Ok(word == 1)
    }

    #[tactic(auto, unfolding(crate::specs::Reading::fixed_at))]
    fn padded(&mut self, n: usize) -> Result<&'a [u8], XdrFault>
        ensures { Reads (λ x. x.now) self.old result self.new (fixed_at n self.old) }
    {
        let rest = self.rest;
        if rest.len() < n {
            return Err(XdrFault::Short);
        }
        let (front, back) = rest.split_at(n);
        let padding = (4 - n % 4) % 4;
        if back.len() < padding {
            return Err(XdrFault::Short);
        }
        self.rest = &back[padding..];
        Ok(front)
    }

    #[tactic(auto, unfolding(crate::specs::Reading::opaque_at))]
    fn counted(&mut self, max: u32) -> Result<&'a [u8], XdrFault>
        ensures { Reads (λ x. x.now) self.old result self.new (opaque_at max self.old) }
    {
        let mut at = self.again();
        let len = at.word()?;
        if len > max {
            return Err(XdrFault::TooLong);
        }
        let bytes = at.padded(len as usize)?;
        *self = at;
        Ok(bytes)
    }
}

fn are_bytes(bytes: &[u8])
    ensures { IsBytes bytes.now }
{
    let _len = bytes.len();
}
