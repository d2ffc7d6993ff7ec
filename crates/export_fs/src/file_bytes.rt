//! The bytes of a file.

ghost use Rattle.std.specs.Prelude.{◌≡◌, ◌<◌, ◌≤◌, ◌+◌, ◌++◌, ℕ, [], true, false, not, length, take, drop, vec_len, IfOk, OnOk, OnErr, if◌then◌else◌};
ghost use Rattle.std.specs.Str.{bytes_eq};
ghost use Rattle.world_model.specs.Bytes.{resized, filled, put_at, part, committed_part};
ghost use Rattle.world_model.specs.FileService.{steady_after};

use std::alloc::Global;
use std::marker::Model;
use xdr_codec::Memory;

/// The bytes of a file as they are, and those that a restart leaves, which are never more.
#[derive(Drop)]
pub(crate) struct FileBytes {
    bytes: Vec<u8>,
    stable: Vec<u8>,
}

impl Model for FileBytes {
    ghost use Rattle.std.specs.Prelude.{◌≤◌, length};
    ghost use Rattle.export_fs.specs.Held.{Content};

    ghost Value = { Content };

    ghost view = { λ f. record { bytes = f.bytes.items; stable = f.stable.items } };

    ghost invariant = { λ f. length f.stable.items ≤ length f.bytes.items };
}

impl FileBytes {
    /// A file without bytes. It takes no memory.
    pub(crate) fn new(alloc: Global) -> FileBytes
        ensures { result ≡ record { bytes = []; stable = [] } }
    {
        FileBytes {
            bytes: Vec::new(alloc),
            stable: Vec::new(alloc),
        }
    }

    /// A file with these bytes, all of them stable.
    pub(crate) fn copy(alloc: Global, bytes: &[u8]) -> Result<FileBytes, Memory>
        ensures { IfOk result (λ f. f ≡ record { bytes = bytes.now; stable = bytes.now }) }
    {
        Ok(FileBytes {
            bytes: Vec::from_slice(alloc, bytes)?,
            stable: Vec::from_slice(alloc, bytes)?,
        })
    }

    /// The bytes as they are.
    pub(crate) fn now(&self) -> &[u8]
        ensures { result.now ≡ self.now.bytes }
    {
        self.bytes.as_slice()
    }

    /// The bytes that a restart leaves.
    pub(crate) fn stable(&self) -> &[u8]
        ensures { result.now ≡ self.now.stable }
    {
        self.stable.as_slice()
    }

    /// Whether a restart changes none of them.
    pub(crate) fn is_steady(&self) -> bool
        ensures { result ≡ bytes_eq self.now.bytes self.now.stable }
    {
        self.bytes.as_slice() == self.stable.as_slice()
    }

    /// Fills the bytes with zeros up to a size, and if `firm` says so the stable ones too. When out of memory it
    /// is as it was.
    fn grow(&mut self, size: usize, firm: bool) -> Result<(), Memory>
        ensures ok { OnOk result (self.new ≡ record { bytes = filled size self.old.bytes; stable = if firm then filled size self.old.stable else self.old.stable }) }
        ensures err { OnErr result (self.new ≡ self.old) }
    {
        let len = self.bytes.len();
        fill(&mut self.bytes, size)?;
        if firm {
            if fill(&mut self.stable, size).is_err() {
                self.bytes.truncate(len);
                return Err(Memory);
            }
        }
        Ok(())
    }

    /// Cuts the bytes to a size, or fills them with zeros up to it, the stable ones too. When out of memory it is as
    /// it was.
    pub(crate) fn resize(&mut self, size: usize) -> Result<(), Memory>
        ensures ok { OnOk result (self.new ≡ record { bytes = resized size self.old.bytes; stable = resized size self.old.stable }) }
        ensures err { OnErr result (self.new ≡ self.old) }
    {
        self.grow(size, true)?;
        self.stable.truncate(size);
        self.bytes.truncate(size);
        Ok(())
    }

    /// Puts bytes at an offset, and if `how` isn't 0 into the stable ones too (RFC 1813, section 3.3.7). After want
    /// of memory, and if the end can't be counted, it is as it was.
    #[tactic(auto, using(crate::proofs::Puts::put_filled))]
    pub(crate) fn write(&mut self, offset: usize, how: u32, bytes: &[u8]) -> Result<(), Memory>
        ensures ok { OnOk result (self.new ≡ record { bytes = put_at offset bytes.now self.old.bytes; stable = steady_after how offset bytes.now self.old.stable }) }
        ensures err { OnErr result (self.new ≡ self.old) }
    {
        if bytes.is_empty() {
            return Ok(());
        }
        let Some(end) = offset.checked_add(bytes.len()) else {
            return Err(Memory);
        };
        self.grow(end, how != 0)?;
        paste(&mut self.bytes, offset, bytes);
        if how != 0 {
            paste(&mut self.stable, offset, bytes);
        }
        Ok(())
    }

    /// So many of the bytes from an offset become stable. When out of memory it is as it was.
    #[tactic(auto, using(crate::proofs::Puts::put_filled))]
    pub(crate) fn keep(&mut self, from: usize, count: usize) -> Result<(), Memory>
        ensures ok { OnOk result (self.new ≡ record self.old { stable = put_at from (part from count self.old.bytes) self.old.stable }) }
        ensures err { OnErr result (self.new ≡ self.old) }
    {
        let kept = part(self.bytes.as_slice(), from, count);
        if kept.is_empty() {
            return Ok(());
        }
        fill(&mut self.stable, from + kept.len())?;
        paste(&mut self.stable, from, kept);
        Ok(())
    }

    /// What a COMMIT makes stable (RFC 1813, section 3.3.21): a count of 0 means all to the end. When out of memory it
    /// is as it was.
    pub(crate) fn commit(&mut self, from: usize, count: usize) -> Result<(), Memory>
        ensures ok { OnOk result (self.new ≡ record self.old { stable = put_at from (committed_part from count self.old.bytes) self.old.stable }) }
        ensures err { OnErr result (self.new ≡ self.old) }
    {
        let most = if count == 0 { self.bytes.len() } else { count };
        self.keep(from, most)
    }

    /// A restart leaves the stable bytes. It takes no memory.
    pub(crate) fn restart(&mut self)
        ensures { self.new ≡ record { bytes = self.old.stable; stable = self.old.stable } }
    {
        self.bytes.truncate(self.stable.len());
        self.bytes
            .as_mut_slice()
            .copy_from_slice(self.stable.as_slice());
    }
}

/// So many of the bytes from an offset, as far as they are there.
pub(crate) fn part(bytes: &[u8], from: usize, count: usize) -> &[u8]
    ensures { result.now ≡ part from count bytes.entry.now }
{
    let (_, rest) = bytes.split_at(from.min(bytes.len()));
    let (front, _) = rest.split_at(count.min(rest.len()));
    front
}

/// Fills the bytes with zeros up to a size. When out of memory they are as they were.
fn fill(bytes: &mut Vec<u8>, size: usize) -> Result<(), Memory>
    ensures ok { OnOk result (bytes.new.items ≡ filled size bytes.old.items) }
    ensures err { OnErr result (bytes.new.items ≡ bytes.old.items) }
{
    if bytes.len() < size {
        bytes.resize(size, 0)?;
    }
    Ok(())
}

/// Puts others in place of the bytes from an offset, if they are long enough. It takes no memory.
#[tactic(auto, using(crate::proofs::Puts::put_within))]
fn paste(bytes: &mut Vec<u8>, offset: usize, others: &[u8])
    requires fits { offset + length others.now ≤ vec_len bytes.old }
    requires some { 0 < length others.now }
    ensures { bytes.new.items ≡ put_at offset others.now bytes.old.items }
{
    overwrite(bytes.as_mut_slice(), offset, others);
}

/// Overwrites the bytes from an offset with others.
fn overwrite(bytes: &mut [u8], offset: usize, others: &[u8])
    requires { offset + length others.now ≤ length bytes.old }
    ensures { bytes.new ≡ take offset bytes.old ++ others.now ++ drop (offset + length others.now) bytes.old }
{
    bytes[offset..offset + others.len()].copy_from_slice(others);
}
