//! What a read shows: what the server has, with what this client has pending over it.

ghost use Rattle.std.specs.Prelude.{◌≡◌, ◌≤◌, ◌<◌, ℕ, [], IfOk, IfSome, replicate, length, take, drop};
ghost use Rattle.std.specs.Vec.{vec_capacity};
ghost use Rattle.write_back.specs.Segments.{shown, last_end};
ghost use Rattle.write_back.specs.Files.{of_file};
ghost use Rattle.file_ops.specs.Overlaid.{listed, byte_or, was_pending, pending_then, AreEven, alike_or, byte_shown, size_to, size_shown, shown_over, bytes_from};

use crate::base::Base;
use crate::space::Space;
use nfs_types::Handle;
use std::alloc::Global;
use std::marker::Model;
use write_back::WriteBack;
use xdr_codec::{Blob, Memory};

/// What was pending of a range when a read began.
#[derive(Drop)]
pub struct WasPending {
    /// How many bytes the range has.
    count: u32,
    /// The pending bytes; none if the last one of the file ended before the range.
    bytes: Option<PendingBytes>,
    /// Where the last pending byte of the file ended.
    end: Option<u64>,
}

/// Pending bytes of a range, in two lists that are alike where a byte was pending.
#[derive(Drop)]
pub struct PendingBytes {
    /// The pending bytes over zeros.
    pub lows: Blob,
    /// The pending bytes over bytes of 255.
    pub highs: Blob,
}

impl Model for WasPending {
    ghost use Rattle.file_ops.specs.Overlaid.{PendingThen, pending_then, AreEven};

    ghost Value = { PendingThen };

    ghost view = { λ w. pending_then w.count w.bytes w.end };

    ghost invariant = { λ w. AreEven w.bytes };
}

impl WasPending {
    /// What is pending of a range now.
    pub(crate) fn of(
        alloc: Global,
        back: &WriteBack,
        file: &Handle,
        offset: u64,
        count: u32,
    ) -> Result<WasPending, Memory>
        ensures { IfOk result (λ w. w ≡ was_pending file.now offset count back.now) }
    {
        let end = back.end(file);
        let bytes = pending_bytes(alloc, back, file, offset, count)?;
        Ok(WasPending { count, bytes, end })
    }

    /// How many of the server's bytes a read shows as they are. None if something was pending from its offset on, or is now,
    /// or zeros are shown after them.
    pub(crate) fn bare(
        &self,
        back: &WriteBack,
        file: &Handle,
        offset: u64,
        count: u32,
        base: &[u8],
    ) -> Option<usize>
        ensures { IfSome result (λ size. shown_over file.now offset count base.now self.now back.now ≡ take size base.now) }
    {
        back.is_sound();
        let end = back.end(file);
        if self.bytes.is_some() || size_to(offset, end) != 0 {
            return None;
        }
        let size = size_shown(offset, count, base, self.end, end);
        if size <= base.len() { Some(size) } else { None }
    }

    /// So many bytes with what was pending over what the server has, in room that was taken for them.
    fn laid(&self, room: Vec<u8>, base: &[u8], size: usize) -> Vec<u8>
        requires empty { room.items ≡ [] }
        requires fits { size ≤ vec_capacity room }
        ensures { result.items ≡ listed (byte_shown base.now self.now) size }
    {
        let mut bytes = padded(room, base, size);
        self.lay_over(bytes.as_mut_slice());
        bytes
    }

    /// Lays what was pending over bytes.
    fn lay_over(&self, bytes: &mut [u8])
        ensures size { length bytes.new ≡ length bytes.old }
        ensures bytes { (at : ℕ) → at < length bytes.old → byte_or bytes.new at 0 ≡ byte_shown bytes.old self.now at }
    {
        if let Some(pending) = &self.bytes {
            lay_alike(pending.lows.bytes(), pending.highs.bytes(), bytes);
        }
    }

    /// What a read shows of the server's bytes from its offset on, with what was pending and is pending now over them. The
    /// space for so many bytes is used up.
    pub(crate) fn shown_over(
        &self,
        alloc: Global,
        back: &WriteBack,
        file: &Handle,
        offset: u64,
        space: &mut Space,
        base: &[u8],
    ) -> Blob
        ensures bytes { result ≡ shown_over file.now offset space.old base.now self.now back.now }
        ensures space { space.new ≡ 0 }
    {
        let size = size_shown(offset, space.size(), base, self.end, back.end(file));
        let mut shown = self.laid(space.give(alloc), base, size);
        back.overlay(file, offset, &mut shown);
        Blob::of(shown)
    }
}

/// The pending bytes of a range. None only if the last one of the file ends before the range.
fn pending_bytes(
    alloc: Global,
    back: &WriteBack,
    file: &Handle,
    offset: u64,
    count: u32,
) -> Result<Option<PendingBytes>, Memory>
    ensures even { IfOk result AreEven }
    ensures bytes { IfOk result (λ b. pending_then count b (last_end (of_file file.now back.now).segments) ≡ was_pending file.now offset count back.now) }
{
    back.is_sound();
    if size_to(offset, back.end(file)) == 0 {
        return Ok(None);
    }
    let lows = pending_over(alloc, back, file, offset, count, 0)?;
    let highs = pending_over(alloc, back, file, offset, count, 255)?;
    Ok(Some(PendingBytes { lows, highs }))
}

/// So many bytes of the server's, with zeros after the last of them, in room that was taken for them.
fn padded(room: Vec<u8>, base: &[u8], size: usize) -> Vec<u8>
    requires empty { room.items ≡ [] }
    requires fits { size ≤ vec_capacity room }
    ensures { result.items ≡ listed (λ at. byte_or base.now at 0) size }
{
    let mut bytes = room;
    let (front, _) = base.split_at(base.len().min(size));
    let Ok(()) = bytes.extend_from_slice(front) else {
        unreachable!();
    };
    let Ok(()) = bytes.resize(size, 0) else {
        unreachable!();
    };
    bytes
}

/// Lays the bytes that two lists have alike over others.
fn lay_alike(lows: &[u8], highs: &[u8], bytes: &mut [u8])
    requires { length lows.now ≡ length highs.now }
    ensures size { length bytes.new ≡ length bytes.old }
    ensures bytes { (at : ℕ) → at < length bytes.old → byte_or bytes.new at 0 ≡ alike_or (byte_or lows.now at 0) (byte_or highs.now at 255) (byte_or bytes.old at 0) }
{
    let count = bytes.len().min(lows.len()).min(highs.len());
    for at in 0..count {
        bytes[at] = alike_or(lows[at], highs[at], bytes[at]);
    }
}

/// A byte if it is like another, or else a third one.
fn alike_or(low: u8, high: u8, other: u8) -> u8
    ensures { result ≡ alike_or low high other }
{
    if low == high { low } else { other }
}

/// What is pending of a range, over bytes that are all alike.
fn pending_over(
    alloc: Global,
    back: &WriteBack,
    file: &Handle,
    offset: u64,
    count: u32,
    byte: u8,
) -> Result<Blob, Memory>
    ensures { IfOk result (λ b. b ≡ shown (of_file file.now back.now).segments offset (replicate count byte)) }
{
    let mut bytes = alike(alloc, count, byte)?;
    back.overlay(file, offset, &mut bytes);
    Ok(Blob::of(bytes))
}

/// So many bytes that are all alike.
fn alike(alloc: Global, count: u32, byte: u8) -> Result<Vec<u8>, Memory>
    ensures { IfOk result (λ v. v.items ≡ replicate count byte) }
{
    let mut bytes = Vec::new(alloc);
    bytes.resize(count as usize, byte)?;
    Ok(bytes)
}

/// How many bytes a read shows.
fn size_shown(
    offset: u64,
    count: u32,
    base: &[u8],
    end_then: Option<u64>,
    end_now: Option<u64>,
) -> usize
    ensures size { result ≡ size_shown offset count base.now end_then end_now }
    ensures most { result ≤ count }
{
    let pending = size_to(offset, end_then).max(size_to(offset, end_now));
    u64::from(count).min(pending.max(base.len() as u64)) as usize
}

/// How many bytes there are from a place on to an end.
fn size_to(offset: u64, end: Option<u64>) -> u64
    ensures { result ≡ size_to offset end }
{
    match end {
        Some(end) => end.saturating_sub(offset),
        None => 0,
    }
}

/// The bytes from an offset of the file on.
pub(crate) fn bytes_from(base: &Base, offset: u64) -> &[u8]
    ensures { result.now ≡ bytes_from offset base.now }
{
    let bytes = base.bytes();
    let skip = offset.saturating_sub(base.start()).min(bytes.len() as u64) as usize;
    &bytes[skip..]
}
