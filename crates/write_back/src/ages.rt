//! The writes that have pending bytes, by number.

ghost use Rattle.std.specs.Prelude.{◌≡◌, ◌+◌, ◌^◌, ◌<◌, [], ℕ, List, OnOk, OnErr};
ghost use Rattle.write_back.specs.Ages.{kept_by, only, parts_by, Enters, IsUnknown, Lessens, Raises, TellsFirst};

use crate::sent::Part;
use nfs_types::Handle;
use std::alloc::Global;
use std::collections::BTreeMap;
use std::marker::Model;
use xdr_codec::Memory;

/// The file of a write, and how many of its bytes are pending.
#[derive(Debug, Drop)]
pub struct Age {
    /// The file that was written.
    pub file: Handle,
    /// How many bytes are pending, those in flight twice if no newer byte is over them.
    pub bytes: u64,
}

/// The writes that have pending bytes, by number. A call takes time in the logarithm of their number.
#[derive(Drop)]
pub struct Ages {
    writes: BTreeMap<u64, Age>,
}

impl Model for Ages {
    ghost use Rattle.write_back.specs.Ages.{Writes, HaveBytes};

    ghost Value = { Writes };

    ghost view = { λ a. a.writes.entries };

    ghost invariant = { λ a. HaveBytes a.writes.entries };
}

impl Ages {
    /// No write.
    pub fn new(alloc: Global) -> Ages
        ensures { result ≡ [] }
    {
        Ages {
            writes: BTreeMap::new(alloc),
        }
    }

    /// A write of a file has so many bytes, at least one. When out of memory nothing is changed.
    pub fn enter(&mut self, number: u64, file: &Handle, bytes: u64) -> Result<(), Memory>
        requires some { 0 < bytes }
        requires unknown { IsUnknown number self.old }
        ensures ok { OnOk result (Enters number file.now bytes self.old self.new) }
        ensures err { OnErr result (self.new ≡ self.old) }
    {
        self.writes.insert(number, Age { file: *file, bytes })?;
        Ok(())
    }

    /// So many bytes of a write are pending no more. A write that has none left is forgotten.
    pub fn lessen(&mut self, number: u64, bytes: u64)
        ensures { Lessens (only number bytes) self.old self.new }
    {
        let Some(age) = self.writes.get_mut(&number) else {
            return;
        };
        if age.bytes > bytes {
            age.bytes -= bytes;
            return;
        }
        self.writes.remove(&number);
    }

    /// So many bytes more of a write that is known are pending.
    pub fn raise(&mut self, number: u64, bytes: u64)
        requires room { (file : List ℕ) → kept_by self.old file number + bytes < 2 ^ 64 }
        ensures { Raises (only number bytes) self.old self.new }
    {
        let Some(age) = self.writes.get_mut(&number) else {
            return;
        };
        age.bytes += bytes;
    }

    /// The file of the write with the least number. None exactly if there is no write.
    pub fn first(&self) -> Option<Handle>
        ensures { TellsFirst self.now result }
    {
        let (_, age) = self.writes.first_key_value()?;
        Some(age.file)
    }

    /// The bytes of these parts are pending no more.
    pub fn lessen_parts(&mut self, parts: &[Part])
        ensures { Lessens (λ n. parts_by n parts.now) self.old self.new }
    {
        for part in parts.iter() {
            self.lessen(part.number, part.size);
        }
    }

    /// The bytes of these parts are pending once more.
    pub fn raise_parts(&mut self, parts: &[Part])
        requires room { (file : List ℕ) (n : ℕ) → kept_by self.old file n + parts_by n parts.now < 2 ^ 64 }
        ensures { Raises (λ n. parts_by n parts.now) self.old self.new }
    {
        for part in parts.iter() {
            self.raise(part.number, part.size);
        }
    }
}
