//! Appends words and opaques to bytes.

ghost use Rattle.std.specs.Prelude.{◌≡◌, ◌++◌, ◌<◌, ◌≤◌, ◌^◌, ℕ, [], length, take, IfOk, OnOk, OnErr};
ghost use Rattle.xdr_codec.specs.Spelling.{u32_bytes, u64_bytes, flag_bytes, fixed_bytes, opaque_bytes, BeginsWith};
ghost use Rattle.xdr_codec.specs.Spells.{SpellsU32, SpellsU64, SpellsFlag, SpellsFixed, SpellsOpaque, Wrote};

use crate::blob::{Blob, Memory};
use crate::record::{MARK, Record};
use byteorder::{BigEndian, ByteOrder};
use std::alloc::Global;
use std::marker::Model;

/// Bytes to which more are appended. In front of them there may be room for the mark of a record.
#[derive(Drop)]
pub struct Writer {
    front: usize,
    bytes: Vec<u8>,
}

impl Model for Writer {
    ghost use Rattle.std.specs.Prelude.{List, ℕ, ◌≤◌, drop, length};

    ghost Value = { List ℕ };

    ghost view = { λ w. drop w.front w.bytes.items };

    ghost invariant = { λ w. w.front ≤ length w.bytes.items };
}

impl Writer {
    /// A writer that holds nothing.
    pub fn new(alloc: Global) -> Writer
        ensures { result ≡ [] }
    {
        Writer {
            front: 0,
            bytes: Vec::new(alloc),
        }
    }

    /// A writer that holds nothing and has room for so many bytes: appending them takes no further memory.
    pub fn with_room(alloc: Global, room: usize) -> Result<Writer, Memory>
        ensures { IfOk result (λ w. w ≡ []) }
    {
        Ok(Writer {
            front: 0,
            bytes: Vec::with_capacity(alloc, room)?,
        })
    }

    /// A writer of a record: as `with_room`, and there is room for the record's mark before its bytes, so that
    /// `finish_record` copies nothing.
    pub fn record(alloc: Global, room: usize) -> Result<Writer, Memory>
        ensures { IfOk result (λ w. w ≡ []) }
    {
        let mut bytes = Vec::with_capacity(alloc, room.saturating_add(MARK))?;
        bytes.extend_from_slice(&[0; MARK])?;
        Ok(Writer { front: MARK, bytes })
    }

    /// Appends bytes as they are. When out of memory it is as it was.
    pub fn raw(&mut self, bytes: &[u8]) -> Result<(), Memory>
        ensures ok { OnOk result (self.new ≡ self.old ++ bytes.now) }
        ensures err { OnErr result (self.new ≡ self.old) }
    {
        self.bytes.extend_from_slice(bytes)?;
        Ok(())
    }

    /// Appends an unsigned number of four bytes (RFC 4506, section 4.2). When out of memory it is as it was.
    #[tactic(auto, using(crate::proofs::Begins::begins_then, crate::proofs::Written::wrote_u32), unfolding(crate::specs::Spelling::u32_bytes))]
    pub fn u32(&mut self, v: u32) -> Result<(), Memory>
        ensures ok { OnOk result (self.new ≡ self.old ++ u32_bytes v) }
        ensures err { OnErr result (self.new ≡ self.old) }
        ensures spelled { OnOk result (Wrote (SpellsU32 v) self.old self.new) }
    {
        let mut word = [0; 4];
        BigEndian::write_u32(&mut word, v);
        self.raw(&word)
    }

    /// Appends an unsigned number of eight bytes (RFC 4506, section 4.5). When out of memory it is as it was.
    #[tactic(auto, using(crate::proofs::Begins::begins_then, crate::proofs::Written::wrote_u64), unfolding(crate::specs::Spelling::u64_bytes))]
    pub fn u64(&mut self, v: u64) -> Result<(), Memory>
        ensures ok { OnOk result (self.new ≡ self.old ++ u64_bytes v) }
        ensures err { OnErr result (self.new ≡ self.old) }
        ensures spelled { OnOk result (Wrote (SpellsU64 v) self.old self.new) }
    {
        let mut word = [0; 8];
        BigEndian::write_u64(&mut word, v);
        self.raw(&word)
    }

    /// Appends a bool (RFC 4506, section 4.4). When out of memory it is as it was.
    #[tactic(auto, using(crate::proofs::Begins::begins_then, crate::proofs::Written::wrote_flag), unfolding(crate::specs::Spelling::flag_bytes))]
    pub fn flag(&mut self, v: bool) -> Result<(), Memory>
        ensures ok { OnOk result (self.new ≡ self.old ++ flag_bytes v) }
        ensures err { OnErr result (self.new ≡ self.old) }
        ensures spelled { OnOk result (Wrote (SpellsFlag v) self.old self.new) }
    {
        self.u32(u32::from(v))
    }

    /// Appends a fixed opaque: the bytes, and zeros as padding (RFC 4506, section 4.9). When out of memory it is as it
    /// was.
    #[tactic(auto, using(crate::proofs::Begins::cut_back))]
    pub fn fixed(&mut self, bytes: &[u8]) -> Result<(), Memory>
        ensures ok { OnOk result (self.new ≡ self.old ++ fixed_bytes bytes.now) }
        ensures err { OnErr result (self.new ≡ self.old) }
        ensures spelled { OnOk result (Wrote (SpellsFixed (length bytes.now) bytes.now) self.old self.new) }
    {
        let held = self.held();
        let written = self.padded(bytes);
        self.keep_or_cut(held, written)
    }

    /// Appends an opaque or a string: a length, the bytes, and zeros as padding (RFC 4506, section 4.10). There are
    /// fewer than 2^32 bytes. When out of memory it is as it was.
    #[tactic(auto, using(crate::proofs::Begins::cut_back))]
    pub fn opaque(&mut self, bytes: &[u8]) -> Result<(), Memory>
        requires { length bytes.now < 2 ^ 32 }
        ensures ok { OnOk result (self.new ≡ self.old ++ opaque_bytes bytes.now) }
        ensures err { OnErr result (self.new ≡ self.old) }
        ensures spelled { (max : ℕ) → length bytes.now ≤ max → OnOk result (Wrote (SpellsOpaque max bytes.now) self.old self.new) }
    {
        let held = self.held();
        let written = self.counted(bytes);
        self.keep_or_cut(held, written)
    }

    /// What was written.
    pub fn finish(self) -> Blob
        ensures { result ≡ self }
    {
        let mut bytes = self.bytes;
        let held = bytes.len() - self.front;
        bytes.rotate_left(self.front);
        bytes.truncate(held);
        Blob::of(bytes)
    }

    /// What was written, as a record that goes out. It is copied only if the writer wasn't made by `record`. One of 2^31
    /// bytes or more is a record for which there is no memory.
    pub fn finish_record(self, alloc: Global) -> Result<Record, Memory>
        ensures { IfOk result (λ r. r ≡ self) }
    {
        if self.front == MARK {
            Record::behind_room(alloc, self.bytes)
        } else {
            Record::copy(alloc, &self.bytes.as_slice()[self.front..])
        }
    }

    /// How many bytes were written.
    fn held(&self) -> usize
        ensures { result ≡ length self.now }
    {
        self.bytes.len() - self.front
    }

    /// All behind the first `held` bytes goes.
    fn cut(&mut self, held: usize)
        ensures { self.new ≡ take held self.old }
    {
        self.bytes.truncate(self.front.saturating_add(held));
    }

    /// What was written stays if it was written whole. Else all behind the first `held` bytes goes.
    fn keep_or_cut(&mut self, held: usize, written: Result<(), Memory>) -> Result<(), Memory>
        ensures same { result ≡ written }
        ensures ok { OnOk result (self.new ≡ self.old) }
        ensures err { OnErr result (self.new ≡ take held self.old) }
    {
        if written.is_err() {
            self.cut(held);
        }
        written
    }

    #[tactic(auto, using(crate::proofs::Begins::begins_then), unfolding(crate::specs::Spelling::fixed_bytes))]
    fn padded(&mut self, bytes: &[u8]) -> Result<(), Memory>
        ensures ok { OnOk result (self.new ≡ self.old ++ fixed_bytes bytes.now) }
        ensures err { OnErr result (BeginsWith self.old self.new) }
    {
        self.raw(bytes)?;
        let padding = (4 - bytes.len() % 4) % 4;
        self.raw(&[0, 0, 0][..padding])?;
        Ok(())
    }

    #[tactic(auto, using(crate::proofs::Begins::begins_then), unfolding(crate::specs::Spelling::opaque_bytes))]
    fn counted(&mut self, bytes: &[u8]) -> Result<(), Memory>
        requires { length bytes.now < 2 ^ 32 }
        ensures ok { OnOk result (self.new ≡ self.old ++ opaque_bytes bytes.now) }
        ensures err { OnErr result (BeginsWith self.old self.new) }
    {
        self.u32(bytes.len() as u32)?;
        self.padded(bytes)?;
        Ok(())
    }
}
