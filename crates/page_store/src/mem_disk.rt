//! A disk in memory that records its calls.

ghost use Rattle.std.specs.Prelude.{◌≡◌, ◌<◌, ◌+◌, ◌-◌, ◌^◌, ◌∷◌, List, [], min, length, IfOk, OnOk, OnErr, reverse};
ghost use Rattle.std.specs.Bool.{OnTrue, OnFalse};
ghost use Rattle.outside.specs.Views.{is_to_fail, next_call};
ghost use Rattle.page_store.specs.declared.mem_disk.DiskCall.{DiskCall};
ghost use Rattle.page_store.specs.Disk.{Only};
ghost use Rattle.page_store.specs.MemDisk.{IsWritten, written, seen_after, seen_by, torn_after, torn_by, left_by};

use crate::Disk;
use outside::{Failed, LinkFault};
use std::alloc::Global;
use std::marker::Model;
use xdr_codec::Memory;

/// No memory reaches so far.
const FAR: u64 = 1 << 62;

/// What changed a disk, or made it lasting.
#[derive(Debug, Drop)]
pub enum DiskCall {
    /// These bytes were written from a place on.
    Wrote { at: u64, bytes: Vec<u8> },
    /// What was written was synced.
    Synced,
    /// A crash left these bytes.
    Crashed { bytes: Vec<u8> },
}

/// A disk in memory. The calls that are to fail are given; no other call fails, but memory may run out in a write or a sync.
/// It records its writes and syncs.
#[derive(Drop)]
pub struct MemDisk {
    alloc: Global,
    bytes: Vec<u8>,
    calls: Vec<DiskCall>,
    fails: Vec<u32>,
    made: u32,
    faults: u64,
}

impl Model for MemDisk {
    ghost use Rattle.std.specs.Prelude.{◌≡◌, List, reverse};
    ghost use Rattle.page_store.specs.declared.mem_disk.DiskCall.{DiskCall};
    ghost use Rattle.page_store.specs.MemDisk.{seen_by, MemView};

    ghost Value = { MemView };

    ghost view = { λ d. record { calls = reverse d.calls.items; fails = d.fails.items; made = d.made; faults = d.faults } };

    ghost invariant = { λ d. d.bytes.items ≡ seen_by (reverse d.calls.items) };
}

impl MemDisk {
    /// No bytes. Its calls of these numbers fail; calls are counted from 1, reads among them.
    pub fn new(alloc: Global, fails: &[u32]) -> Result<MemDisk, Memory>
        ensures { IfOk result (λ d. d ≡ record { calls = []; fails = fails.now; made = 0; faults = 0 }) }
    {
        Ok(MemDisk {
            alloc,
            bytes: Vec::new(alloc),
            calls: Vec::new(alloc),
            fails: fails.to_vec(alloc)?,
            made: 0,
            faults: 0,
        })
    }

    /// What it holds.
    pub fn bytes(&self) -> &[u8]
        ensures { result.now ≡ seen_by self.now.calls }
    {
        self.bytes.as_slice()
    }

    /// What was written and synced, in order.
    pub fn calls(&self) -> &[DiskCall]
        ensures { reverse result.now ≡ self.now.calls }
    {
        self.calls.as_slice()
    }

    /// A crash: of each write since the last sync the first half is left. Nothing is pending after it, and no later call
    /// fails. When out of memory nothing is changed.
    pub fn crash(&mut self) -> Result<(), Memory>
        ensures left { OnOk result (left_by self.old.calls (seen_by self.new.calls)) }
        ensures only { OnOk result (Only (seen_by self.new.calls) (left_by self.new.calls)) }
        ensures fails { OnOk result (self.new.fails ≡ []) }
        ensures err { OnErr result (self.new ≡ self.old) }
    {
        let left = torn_bytes(self.alloc, self.calls.as_slice())?;
        let bytes = left.as_slice().to_vec(self.alloc)?;
        note(&mut self.calls, DiskCall::Crashed { bytes })?;
        self.bytes = left;
        self.fails.truncate(0);
        Ok(())
    }
}

/// What is left where of each write since the last sync the first half is.
fn torn_bytes(alloc: Global, calls: &[DiskCall]) -> Result<Vec<u8>, Memory>
    ensures { IfOk result (λ v. v.items ≡ torn_by (reverse calls.now)) }
{
    let mut whole = Vec::new(alloc);
    let mut torn = Vec::new(alloc);
    for call in calls {
        tear(alloc, &mut whole, &mut torn, call)?;
    }
    Ok(torn)
}

/// Does a call again, on what a read gives, and on what is left if the writes since the last sync are cut short.
fn tear(
    alloc: Global,
    whole: &mut Vec<u8>,
    torn: &mut Vec<u8>,
    call: &DiskCall,
) -> Result<(), Memory>
    ensures whole { OnOk result (whole.new.items ≡ seen_after call.now whole.old.items) }
    ensures torn { OnOk result (torn.new.items ≡ torn_after call.now whole.old.items torn.old.items) }
{
    match call {
        DiskCall::Wrote { at, bytes } => {
            let half = &bytes.as_slice()[..bytes.len() / 2];
            lay(torn, *at, half)?;
            lay(whole, *at, bytes.as_slice())
        }
        DiskCall::Synced => {
            *torn = whole.as_slice().to_vec(alloc)?;
            Ok(())
        }
        DiskCall::Crashed { bytes } => {
            *torn = bytes.as_slice().to_vec(alloc)?;
            *whole = bytes.as_slice().to_vec(alloc)?;
            Ok(())
        }
    }
}

/// Puts bytes over others from a place on, and zeros into a gap before them. When out of memory nothing is changed.
fn lay(bytes: &mut Vec<u8>, at: u64, piece: &[u8]) -> Result<(), Memory>
    ensures ok { OnOk result (bytes.new.items ≡ written at piece.now bytes.old.items) }
    ensures err { OnErr result (bytes.new.items ≡ bytes.old.items) }
{
    if at >= FAR || piece.len() as u64 >= FAR {
        return Err(Memory);
    }
    lay_within(bytes, at as usize, piece)
}

/// The same if the place isn't beyond all memory.
fn lay_within(bytes: &mut Vec<u8>, at: usize, piece: &[u8]) -> Result<(), Memory>
    requires { at + length piece.now < 2 ^ 63 }
    ensures ok { OnOk result (bytes.new.items ≡ written at piece.now bytes.old.items) }
    ensures err { OnErr result (bytes.new.items ≡ bytes.old.items) }
{
    let end = at + piece.len();
    if bytes.len() < end {
        bytes.resize(end, 0)?;
    }
    bytes[at..end].copy_from_slice(piece);
    Ok(())
}

/// Counts a call: whether it is one that fails.
fn count_call(fails: &[u32], made: &mut u32, faults: &mut u64) -> bool
    ensures listed { result ≡ is_to_fail fails.now made.old }
    ensures made { made.new ≡ next_call made.old }
    ensures no { OnFalse result (faults.new ≡ faults.old) }
    ensures yes { OnTrue result (faults.new ≡ min (faults.old + 1) (2 ^ 64 - 1)) }
{
    *made = made.saturating_add(1);
    if fails.contains(made) {
        *faults = faults.saturating_add(1);
        true
    } else {
        false
    }
}

/// Records a call. When out of memory nothing is changed.
fn note(calls: &mut Vec<DiskCall>, call: DiskCall) -> Result<(), Memory>
    ensures ok { OnOk result (reverse calls.new.items ≡ call ∷ reverse calls.old.items) }
    ensures err { OnErr result (calls.new.items ≡ calls.old.items) }
{
    calls.push(call)?;
    Ok(())
}

/// Takes the last call back.
fn take_back(calls: &mut Vec<DiskCall>)
    ensures { (call : DiskCall) (past : List DiskCall) → reverse calls.old.items ≡ call ∷ past → reverse calls.new.items ≡ past }
{
    calls.pop();
}

/// Writes and records it. When out of memory nothing is changed.
fn write_noted(
    alloc: Global,
    bytes: &mut Vec<u8>,
    calls: &mut Vec<DiskCall>,
    at: u64,
    piece: &[u8],
) -> Result<(), Memory>
    ensures ok { OnOk result (IsWritten at piece.now bytes.old.items bytes.new.items (reverse calls.old.items) (reverse calls.new.items)) }
    ensures err { OnErr result ((bytes.new.items ≡ bytes.old.items) × (reverse calls.new.items ≡ reverse calls.old.items)) }
{
    let copy = piece.to_vec(alloc)?;
    note(calls, DiskCall::Wrote { at, bytes: copy })?;
    match lay(bytes, at, piece) {
        Ok(()) => Ok(()),
        Err(fault) => {
            take_back(calls);
            Err(fault)
        }
    }
}

impl Disk for MemDisk {
    ghost use Rattle.std.specs.Prelude.{◌≡◌, ◌≤◌, ◌↔◌, ℕ, List, length, IfOk, OnOk, Err, IsTrue, is_err};
    ghost use Rattle.outside.specs.Causes.{HasCause, HasCauseFailed};
    ghost use Rattle.outside.specs.Views.{is_to_fail};
    ghost use Rattle.outside.specs.declared.link.LinkFault.TheVariants as links;
    ghost use Rattle.page_store.specs.Disk.{Gives, Holds, Torn, Follows, Only, Elapses};
    ghost use Rattle.page_store.specs.MemDisk.{seen_by, left_by, left_from, sees_one, since_now, now_only};

    ghost tells = { λ d. Unit {0} };

    ghost seen = { λ d. seen_by d.calls };

    ghost may_leave = { λ d c. left_by d.calls c };

    ghost moment = { λ d. length d.calls };

    ghost left_since = { λ d t c. left_from t d.calls c };

    ghost faults = { λ d. d.faults };

    ghost shows_one = { λ d tells. sees_one d.calls };

    ghost counts_now = { λ d tells t c le now. since_now t d.calls c now };

    ghost only_now = { λ d tells c left. now_only d.calls c left };

    /// It fails exactly if the list says so.
    fn read(&mut self, at: u64, buf: &mut [u8]) -> Result<usize, Failed>
        ensures len { length buf.new ≡ length buf.old }
        ensures gives { Unit {0} → IfOk result (Gives (seen_by self.old.calls) at buf.old buf.new) }
        ensures within { IfOk result (λ n. n ≤ length buf.new) }
        ensures seen { Unit {0} → seen_by self.new.calls ≡ seen_by self.old.calls }
        ensures crash { Unit {0} → (c : List ℕ) → left_by self.new.calls c → left_by self.old.calls c }
        ensures time { Unit {0} → Elapses (length self.old.calls) (length self.new.calls) (λ t c. left_from t self.old.calls c)
            (λ t c. left_from t self.new.calls c) (λ c. left_by self.new.calls c) }
        ensures goes_on { Unit {0} → Unit {0} }
        ensures cause { HasCauseFailed self.old.faults self.new.faults result }
        ensures listed { is_err result ≡ is_to_fail self.old.fails self.old.made }
    {
        if count_call(&self.fails, &mut self.made, &mut self.faults) {
            return Err(Failed);
        }
        let at = (at as usize).min(self.bytes.len());
        let count = buf.len().min(self.bytes.len() - at);
        buf[..count].copy_from_slice(&self.bytes[at..at + count]);
        Ok(count)
    }

    /// The disk fails exactly if the list says so. When out of memory nothing is written.
    fn write(&mut self, at: u64, bytes: &[u8]) -> Result<(), LinkFault>
        ensures written { Unit {0} → OnOk result (Holds at bytes.now (seen_by self.old.calls) (seen_by self.new.calls)) }
        ensures crash { Unit {0} → Follows (Torn at (length bytes.now)) (λ c. left_by self.old.calls c) (λ c. left_by self.new.calls c) }
        ensures time { Unit {0} → Elapses (length self.old.calls) (length self.new.calls) (λ t c. left_from t self.old.calls c)
            (λ t c. left_from t self.new.calls c) (λ c. left_by self.new.calls c) }
        ensures goes_on { Unit {0} → Unit {0} }
        ensures cause { HasCause self.old.faults self.new.faults result }
        ensures listed { (result ≡ Err links.Failed) ↔ IsTrue (is_to_fail self.old.fails self.old.made) }
    {
        if count_call(&self.fails, &mut self.made, &mut self.faults) {
            return Err(LinkFault::Failed);
        }
        match write_noted(self.alloc, &mut self.bytes, &mut self.calls, at, bytes) {
            Ok(()) => {}
            Err(_) => return Err(LinkFault::Memory),
        }
        Ok(())
    }

    /// The disk fails exactly if the list says so.
    fn sync(&mut self) -> Result<(), LinkFault>
        ensures durable { Unit {0} → OnOk result (Only (seen_by self.old.calls) (λ c. left_by self.new.calls c)) }
        ensures seen { Unit {0} → seen_by self.new.calls ≡ seen_by self.old.calls }
        ensures crash { Unit {0} → (c : List ℕ) → left_by self.new.calls c → left_by self.old.calls c }
        ensures time { Unit {0} → Elapses (length self.old.calls) (length self.new.calls) (λ t c. left_from t self.old.calls c)
            (λ t c. left_from t self.new.calls c) (λ c. left_by self.new.calls c) }
        ensures goes_on { Unit {0} → Unit {0} }
        ensures cause { HasCause self.old.faults self.new.faults result }
        ensures listed { (result ≡ Err links.Failed) ↔ IsTrue (is_to_fail self.old.fails self.old.made) }
    {
        if count_call(&self.fails, &mut self.made, &mut self.faults) {
            return Err(LinkFault::Failed);
        }
        match note(&mut self.calls, DiskCall::Synced) {
            Ok(()) => {}
            Err(_) => return Err(LinkFault::Memory),
        }
        Ok(())
    }
}
