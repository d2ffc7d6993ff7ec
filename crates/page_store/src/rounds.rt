//! The three steps of a round over a disk: all gates are closed, the bodies are written, the gates are opened.

ghost use Rattle.std.specs.Prelude.{◌≡◌, ◌<◌, ◌≤◌, ◌+◌, ◌*◌, ℕ, List, Option, Some, slice_get, length, OnOk};
ghost use Rattle.outside.specs.Causes.{HasCause};
ghost use Rattle.page_store.specs.Disk.{Every, Holds, LeavesOnly, Only};
ghost use Rattle.page_store.specs.Slots.{IsSound, IsFrom, IsBeside, IsBut, IsOpen, IsShut, IsAlike};
ghost use Rattle.page_store.specs.Pages.{StoredPage};
ghost use Rattle.page_store.specs.Rounds.{Round, IsIn, IsFilled, IsUnderWay, IsOpening, IsOutside, IsEnded, HasBodies, KeepsOrFills};

use crate::Disk;
use crate::record::Stored;
use crate::slots::{CLOSED, GATE, OPEN, SLOT, reads_open};
use outside::LinkFault;

/// Closes the gates of the slots in the round, and syncs. A gate that is closed isn't written.
pub(crate) fn close_gates<D: Disk>(
    disk: &mut D,
    round: &[Option<Option<Stored>>],
) -> Result<(), LinkFault>
    requires { length round.now ≤ 65536 }
    ensures safe { D.tells disk.old → (n : ℕ) → length round.now ≤ n → IsSound n (D.may_leave disk.old) → IsSound n (D.may_leave disk.new) }
    ensures leaves { D.tells disk.old → (n : ℕ) → length round.now ≤ n → IsSound n (D.may_leave disk.old)
        → Every (D.may_leave disk.new) (IsFrom n (D.may_leave disk.old)) }
    ensures outside { D.tells disk.old → (n : ℕ) → length round.now ≤ n → IsSound n (D.may_leave disk.old)
        → Every (D.may_leave disk.new) (IsOutside n round.now (D.may_leave disk.old)) }
    ensures any_moment { D.tells disk.old → (n : ℕ) → length round.now ≤ n → IsSound n (D.may_leave disk.old)
        → LeavesOnly D.moment D.left_since disk.old disk.new (IsFrom n (D.may_leave disk.old)) }
    ensures shut { D.tells disk.old → (n : ℕ) → length round.now ≤ n → IsSound n (D.may_leave disk.old)
        → OnOk result ((k : ℕ) → IsIn round.now k → IsShut (D.may_leave disk.new) k) }
    ensures goes_on { D.tells disk.old → D.tells disk.new }
    ensures cause { HasCause (D.faults disk.old) (D.faults disk.new) result }
{
    for slot in 0..round.len() as u32 {
        match shut_one(disk, slot, &round[slot as usize]) {
            Ok(()) => {}
            Err(fault) => return Err(fault),
        }
    }
    disk.sync()
}

/// Closes the gate of a slot if it is in the round. It doesn't sync.
fn shut_one<D: Disk>(
    disk: &mut D,
    slot: u32,
    entry: &Option<Option<Stored>>,
) -> Result<(), LinkFault>
    ensures safe { D.tells disk.old → (n : ℕ) → slot < n → IsSound n (D.may_leave disk.old) → IsSound n (D.may_leave disk.new) }
    ensures leaves { D.tells disk.old → (n : ℕ) → slot < n → IsSound n (D.may_leave disk.old)
        → Every (D.may_leave disk.new) (IsFrom n (D.may_leave disk.old)) }
    ensures outside { D.tells disk.old → (n : ℕ) → slot < n → IsSound n (D.may_leave disk.old)
        → (round : Round) → slice_get round slot ≡ Some entry.now → Every (D.may_leave disk.new) (IsOutside n round (D.may_leave disk.old)) }
    ensures any_moment { D.tells disk.old → (n : ℕ) → slot < n → IsSound n (D.may_leave disk.old)
        → LeavesOnly D.moment D.left_since disk.old disk.new (IsFrom n (D.may_leave disk.old)) }
    ensures reads { D.tells disk.old → OnOk result ((k : ℕ) → IsOpen (D.seen disk.new) k
        → IsOpen (D.seen disk.old) k × ((page : Option StoredPage) → entry.now ≡ Some page → k ≡ slot → ⊥)) }
    ensures goes_on { D.tells disk.old → D.tells disk.new }
    ensures cause { HasCause (D.faults disk.old) (D.faults disk.new) result }
{
    match entry {
        Some(_) => shut_gate(disk, slot),
        None => Ok(()),
    }
}

/// Writes the gate of a slot, closed, if it reads as open. It doesn't sync.
fn shut_gate<D: Disk>(disk: &mut D, slot: u32) -> Result<(), LinkFault>
    ensures safe { D.tells disk.old → (n : ℕ) → slot < n → IsSound n (D.may_leave disk.old) → IsSound n (D.may_leave disk.new) }
    ensures leaves { D.tells disk.old → (n : ℕ) → slot < n → IsSound n (D.may_leave disk.old)
        → Every (D.may_leave disk.new) (IsFrom n (D.may_leave disk.old)) }
    ensures beside { D.tells disk.old → (n : ℕ) → slot < n → IsSound n (D.may_leave disk.old)
        → Every (D.may_leave disk.new) (IsBeside n slot (D.may_leave disk.old)) }
    ensures any_moment { D.tells disk.old → (n : ℕ) → slot < n → IsSound n (D.may_leave disk.old)
        → LeavesOnly D.moment D.left_since disk.old disk.new (IsFrom n (D.may_leave disk.old)) }
    ensures reads { D.tells disk.old → OnOk result ((k : ℕ) → IsOpen (D.seen disk.new) k → IsOpen (D.seen disk.old) k × (k ≡ slot → ⊥)) }
    ensures goes_on { D.tells disk.old → D.tells disk.new }
    ensures cause { HasCause (D.faults disk.old) (D.faults disk.new) result }
{
    match reads_open(disk, SLOT * slot as u64) {
        Ok(true) => lay_gate(disk, slot, &CLOSED),
        Ok(false) => Ok(()),
        Err(_) => Err(LinkFault::Failed),
    }
}

/// Writes the gate of a slot. It doesn't sync.
fn lay_gate<D: Disk>(disk: &mut D, slot: u32, gate: &[u8]) -> Result<(), LinkFault>
    requires gate { length gate.now ≡ 4 }
    ensures safe { D.tells disk.old → (n : ℕ) → slot < n → IsAlike (D.may_leave disk.old) slot → IsSound n (D.may_leave disk.old)
        → IsSound n (D.may_leave disk.new) }
    ensures alike { D.tells disk.old → (n : ℕ) → slot < n → IsSound n (D.may_leave disk.old)
        → Every (D.may_leave disk.new) (IsBut n slot (D.may_leave disk.old)) }
    ensures beside { D.tells disk.old → (n : ℕ) → slot < n → IsSound n (D.may_leave disk.old)
        → Every (D.may_leave disk.new) (IsBeside n slot (D.may_leave disk.old)) }
    ensures any_moment { D.tells disk.old → (n : ℕ) → slot < n → IsSound n (D.may_leave disk.old)
        → LeavesOnly D.moment D.left_since disk.old disk.new (IsBut n slot (D.may_leave disk.old)) }
    ensures written { D.tells disk.old → OnOk result (Holds (4224 * slot) gate.now (D.seen disk.old) (D.seen disk.new)) }
    ensures goes_on { D.tells disk.old → D.tells disk.new }
    ensures cause { HasCause (D.faults disk.old) (D.faults disk.new) result }
{
    disk.write(SLOT * slot as u64, gate)
}

/// Writes the body of a slot that is closed. It doesn't sync.
pub(crate) fn lay_body<D: Disk>(disk: &mut D, slot: u32, body: &[u8]) -> Result<(), LinkFault>
    requires body { length body.now ≡ 4220 }
    ensures safe { D.tells disk.old → (n : ℕ) → slot < n → IsShut (D.may_leave disk.old) slot → IsSound n (D.may_leave disk.old)
        → IsSound n (D.may_leave disk.new) }
    ensures leaves { D.tells disk.old → (n : ℕ) → slot < n → IsShut (D.may_leave disk.old) slot → IsSound n (D.may_leave disk.old)
        → Every (D.may_leave disk.new) (IsFrom n (D.may_leave disk.old)) }
    ensures beside { D.tells disk.old → (n : ℕ) → slot < n → IsSound n (D.may_leave disk.old)
        → Every (D.may_leave disk.new) (IsBeside n slot (D.may_leave disk.old)) }
    ensures any_moment { D.tells disk.old → (n : ℕ) → slot < n → IsShut (D.may_leave disk.old) slot → IsSound n (D.may_leave disk.old)
        → LeavesOnly D.moment D.left_since disk.old disk.new (IsFrom n (D.may_leave disk.old)) }
    ensures shut { D.tells disk.old → (n : ℕ) → slot < n → IsShut (D.may_leave disk.old) slot → IsSound n (D.may_leave disk.old)
        → (k : ℕ) → k < n → IsShut (D.may_leave disk.old) k → IsShut (D.may_leave disk.new) k }
    ensures body { D.tells disk.old → OnOk result (Holds (4224 * slot + 4) body.now (D.seen disk.old) (D.seen disk.new)) }
    ensures goes_on { D.tells disk.old → D.tells disk.new }
    ensures cause { HasCause (D.faults disk.old) (D.faults disk.new) result }
{
    disk.write(SLOT * slot as u64 + GATE, body)
}

/// Syncs, opens the gate of each slot that was filled, and syncs again.
pub(crate) fn open_gates<D: Disk>(
    disk: &mut D,
    round: &[Option<Option<Stored>>],
) -> Result<(), LinkFault>
    requires { length round.now ≤ 65536 }
    ensures safe { D.tells disk.old → (n : ℕ) → length round.now ≤ n → IsSound n (D.may_leave disk.old) → IsSound n (D.may_leave disk.new) }
    ensures leaves { D.tells disk.old → (n : ℕ) → length round.now ≤ n → IsSound n (D.may_leave disk.old)
        → IsUnderWay (D.seen disk.old) (D.may_leave disk.old) round.now
        → Every (D.may_leave disk.new) (KeepsOrFills n round.now (D.may_leave disk.old)) }
    ensures outside { D.tells disk.old → (n : ℕ) → length round.now ≤ n → IsSound n (D.may_leave disk.old)
        → Every (D.may_leave disk.new) (IsOutside n round.now (D.may_leave disk.old)) }
    ensures any_moment { D.tells disk.old → (n : ℕ) → length round.now ≤ n → IsSound n (D.may_leave disk.old)
        → IsUnderWay (D.seen disk.old) (D.may_leave disk.old) round.now
        → LeavesOnly D.moment D.left_since disk.old disk.new (KeepsOrFills n round.now (D.may_leave disk.old)) }
    ensures ended { D.tells disk.old → (n : ℕ) → length round.now ≤ n → IsSound n (D.may_leave disk.old)
        → IsUnderWay (D.seen disk.old) (D.may_leave disk.old) round.now
        → OnOk result (IsEnded round.now (D.seen disk.new) (D.may_leave disk.new)) }
    ensures goes_on { D.tells disk.old → D.tells disk.new }
    ensures cause { HasCause (D.faults disk.old) (D.faults disk.new) result }
{
    match disk.sync() {
        Ok(()) => open_synced(disk, round),
        Err(fault) => Err(fault),
    }
}

/// Opens the gate of each slot that was filled, over a disk whose only image is what a read gives, and syncs.
fn open_synced<D: Disk>(disk: &mut D, round: &[Option<Option<Stored>>]) -> Result<(), LinkFault>
    requires { length round.now ≤ 65536 }
    ensures opening { D.tells disk.old → (n : ℕ) → length round.now ≤ n → 4224 * n ≤ length (D.seen disk.old)
        → Only (D.seen disk.old) (D.may_leave disk.old) → Every (D.may_leave disk.new) (IsOpening n round.now (D.seen disk.old)) }
    ensures any_moment { D.tells disk.old → (n : ℕ) → length round.now ≤ n → 4224 * n ≤ length (D.seen disk.old)
        → Only (D.seen disk.old) (D.may_leave disk.old)
        → LeavesOnly D.moment D.left_since disk.old disk.new (IsOpening n round.now (D.seen disk.old)) }
    ensures ended { D.tells disk.old → (n : ℕ) → length round.now ≤ n → 4224 * n ≤ length (D.seen disk.old)
        → Only (D.seen disk.old) (D.may_leave disk.old) → HasBodies round.now (D.seen disk.old)
        → OnOk result (IsEnded round.now (D.seen disk.new) (D.may_leave disk.new)) }
    ensures goes_on { D.tells disk.old → D.tells disk.new }
    ensures cause { HasCause (D.faults disk.old) (D.faults disk.new) result }
{
    match lay_open(disk, round) {
        Ok(()) => disk.sync(),
        Err(fault) => Err(fault),
    }
}

/// Opens the gate of each slot that was filled, over a disk whose only image is what a read gives. It doesn't sync.
fn lay_open<D: Disk>(disk: &mut D, round: &[Option<Option<Stored>>]) -> Result<(), LinkFault>
    requires { length round.now ≤ 65536 }
    ensures opening { D.tells disk.old → (n : ℕ) → length round.now ≤ n → 4224 * n ≤ length (D.seen disk.old)
        → Only (D.seen disk.old) (D.may_leave disk.old) → Every (D.may_leave disk.new) (IsOpening n round.now (D.seen disk.old)) }
    ensures any_moment { D.tells disk.old → (n : ℕ) → length round.now ≤ n → 4224 * n ≤ length (D.seen disk.old)
        → Only (D.seen disk.old) (D.may_leave disk.old)
        → LeavesOnly D.moment D.left_since disk.old disk.new (IsOpening n round.now (D.seen disk.old)) }
    ensures opened { D.tells disk.old → OnOk result ((k : ℕ) (page : StoredPage) → IsFilled round.now k page → IsOpen (D.seen disk.new) k) }
    ensures goes_on { D.tells disk.old → D.tells disk.new }
    ensures cause { HasCause (D.faults disk.old) (D.faults disk.new) result }
{
    for slot in 0..round.len() as u32 {
        match open_one(disk, slot, &round[slot as usize]) {
            Ok(()) => {}
            Err(fault) => return Err(fault),
        }
    }
    Ok(())
}

/// Opens the gate of a slot if it was filled. It doesn't sync.
fn open_one<D: Disk>(
    disk: &mut D,
    slot: u32,
    entry: &Option<Option<Stored>>,
) -> Result<(), LinkFault>
    ensures opening { D.tells disk.old → (n : ℕ) → slot < n → (round : Round) → slice_get round slot ≡ Some entry.now → (image : List ℕ)
        → Every (D.may_leave disk.old) (IsOpening n round image) → Every (D.may_leave disk.new) (IsOpening n round image) }
    ensures any_moment { D.tells disk.old → (n : ℕ) → slot < n → (round : Round) → slice_get round slot ≡ Some entry.now → (image : List ℕ)
        → Every (D.may_leave disk.old) (IsOpening n round image) → LeavesOnly D.moment D.left_since disk.old disk.new (IsOpening n round image) }
    ensures stay { D.tells disk.old → OnOk result ((k : ℕ) → IsOpen (D.seen disk.old) k → IsOpen (D.seen disk.new) k) }
    ensures opened { D.tells disk.old → OnOk result ((page : StoredPage) → entry.now ≡ Some (Some page) → IsOpen (D.seen disk.new) slot) }
    ensures goes_on { D.tells disk.old → D.tells disk.new }
    ensures cause { HasCause (D.faults disk.old) (D.faults disk.new) result }
{
    match entry {
        Some(page) => open_filled(disk, slot, page),
        None => Ok(()),
    }
}

/// Opens the gate of a slot in the round if it was filled. It doesn't sync.
fn open_filled<D: Disk>(disk: &mut D, slot: u32, page: &Option<Stored>) -> Result<(), LinkFault>
    ensures opening { D.tells disk.old → (n : ℕ) → slot < n → (round : Round) → slice_get round slot ≡ Some (Some page.now) → (image : List ℕ)
        → Every (D.may_leave disk.old) (IsOpening n round image) → Every (D.may_leave disk.new) (IsOpening n round image) }
    ensures any_moment { D.tells disk.old → (n : ℕ) → slot < n → (round : Round) → slice_get round slot ≡ Some (Some page.now) → (image : List ℕ)
        → Every (D.may_leave disk.old) (IsOpening n round image) → LeavesOnly D.moment D.left_since disk.old disk.new (IsOpening n round image) }
    ensures stay { D.tells disk.old → OnOk result ((k : ℕ) → IsOpen (D.seen disk.old) k → IsOpen (D.seen disk.new) k) }
    ensures opened { D.tells disk.old → OnOk result ((stored : StoredPage) → page.now ≡ Some stored → IsOpen (D.seen disk.new) slot) }
    ensures goes_on { D.tells disk.old → D.tells disk.new }
    ensures cause { HasCause (D.faults disk.old) (D.faults disk.new) result }
{
    match page {
        Some(_) => disk.write(SLOT * slot as u64, &OPEN),
        None => Ok(()),
    }
}
