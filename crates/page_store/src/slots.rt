//! Bodies in slots, each behind a gate: open over a whole body, closed while the body is written.

ghost use Rattle.std.specs.Prelude.{◌≡◌, ◌<◌, ◌≤◌, ◌*◌, ◌+◌, ◌^◌, ◌↔◌, ℕ, List, [], ◌∷◌, true, length, IfOk, OnOk};
ghost use Rattle.outside.specs.Causes.{HasCause, HasCauseFailed};
ghost use Rattle.page_store.specs.Disk.{Only, Every, LeavesOnly, Elapses, byte_at};
ghost use Rattle.page_store.specs.Slots.{HasBody, IsSound, IsFrom, IsFromOr, IsBeside, IsOpen, IsShut, HasWhole, HasGate, IsAlike, IsBut};

use crate::Disk;
use outside::{Failed, LinkFault};

/// The bytes of a slot.
pub(crate) const SLOT: u64 = 4224;

/// The bytes of a gate, in front of the body.
pub(crate) const GATE: u64 = 4;

/// The bytes of a body.
pub(crate) const BODY: usize = 4220;

/// An open gate.
pub(crate) const OPEN: [u8; 4] = [0, 0, 0, 1];

/// A closed gate, as it is written. Any other bytes than those of an open one are a closed one.
pub(crate) const CLOSED: [u8; 4] = [0, 0, 0, 0];

/// Puts a body into a slot. A crash at any moment leaves in each open slot a body that stood there before, or there this
/// one. At `Ok` it stands there.
pub(crate) fn put_body<D: Disk>(disk: &mut D, slot: u32, body: &[u8]) -> Result<(), LinkFault>
    requires body { length body.now ≡ 4220 }
    ensures safe { D.tells disk.old → (n : ℕ) → slot < n → IsSound n (D.may_leave disk.old) → IsSound n (D.may_leave disk.new) }
    ensures leaves { D.tells disk.old → (n : ℕ) → slot < n → IsSound n (D.may_leave disk.old)
        → Every (D.may_leave disk.new) (IsFromOr n slot body.now (D.may_leave disk.old)) }
    ensures beside { D.tells disk.old → (n : ℕ) → slot < n → IsSound n (D.may_leave disk.old)
        → Every (D.may_leave disk.new) (IsBeside n slot (D.may_leave disk.old)) }
    ensures any_moment { D.tells disk.old → (n : ℕ) → slot < n → IsSound n (D.may_leave disk.old)
        → LeavesOnly D.moment D.left_since disk.old disk.new (IsFromOr n slot body.now (D.may_leave disk.old)) }
    ensures stored { D.tells disk.old → (n : ℕ) → slot < n → IsSound n (D.may_leave disk.old)
        → OnOk result (IsOpen (D.seen disk.new) slot × HasBody (D.seen disk.new) slot body.now × Only (D.seen disk.new) (D.may_leave disk.new)) }
    ensures goes_on { D.tells disk.old → D.tells disk.new }
    ensures cause { HasCause (D.faults disk.old) (D.faults disk.new) result }
{
    match close_gate(disk, slot) {
        Ok(()) => {}
        Err(fault) => return Err(fault),
    }
    match write_body(disk, slot, body) {
        Ok(()) => {}
        Err(fault) => return Err(fault),
    }
    open_gate(disk, slot)
}

/// Closes the gate of a slot. A closed one isn't written again: a crash could leave it open over an old body.
fn close_gate<D: Disk>(disk: &mut D, slot: u32) -> Result<(), LinkFault>
    ensures safe { D.tells disk.old → (n : ℕ) → slot < n → IsSound n (D.may_leave disk.old) → IsSound n (D.may_leave disk.new) }
    ensures leaves { D.tells disk.old → (n : ℕ) → slot < n → IsSound n (D.may_leave disk.old) → Every (D.may_leave disk.new) (IsFrom n (D.may_leave disk.old)) }
    ensures beside { D.tells disk.old → (n : ℕ) → slot < n → IsSound n (D.may_leave disk.old)
        → Every (D.may_leave disk.new) (IsBeside n slot (D.may_leave disk.old)) }
    ensures any_moment { D.tells disk.old → (n : ℕ) → slot < n → IsSound n (D.may_leave disk.old)
        → LeavesOnly D.moment D.left_since disk.old disk.new (IsFrom n (D.may_leave disk.old)) }
    ensures shut { D.tells disk.old → (n : ℕ) → slot < n → IsSound n (D.may_leave disk.old) → OnOk result (IsShut (D.may_leave disk.new) slot) }
    ensures goes_on { D.tells disk.old → D.tells disk.new }
    ensures cause { HasCause (D.faults disk.old) (D.faults disk.new) result }
{
    let at = SLOT * slot as u64;
    match reads_open(disk, at) {
        Ok(true) => write_gate(disk, slot, &CLOSED),
        Ok(false) => disk.sync(),
        Err(_) => Err(LinkFault::Failed),
    }
}

/// Whether the gate at a place reads as open.
pub(crate) fn reads_open<D: Disk>(disk: &mut D, at: u64) -> Result<bool, Failed>
    requires { at + 4 < 2 ^ 64 }
    ensures gate { D.tells disk.old
        → IfOk result (λ yes. (yes ≡ true) ↔ ((i : ℕ) → i < 4 → byte_at (D.seen disk.old) (at + i) ≡ byte_at (0 ∷ 0 ∷ 0 ∷ 1 ∷ []) i)) }
    ensures seen { D.tells disk.old → D.seen disk.new ≡ D.seen disk.old }
    ensures crash { D.tells disk.old → (c : List ℕ) → D.may_leave disk.new c → D.may_leave disk.old c }
    ensures time { D.tells disk.old → Elapses (D.moment disk.old) (D.moment disk.new) (D.left_since disk.old) (D.left_since disk.new) (D.may_leave disk.new) }
    ensures goes_on { D.tells disk.old → D.tells disk.new }
    ensures cause { HasCauseFailed (D.faults disk.old) (D.faults disk.new) result }
{
    let mut gate = [0; 4];
    match disk.read(at, &mut gate) {
        Ok(_) => Ok(gate == OPEN),
        Err(fault) => Err(fault),
    }
}

/// Writes the gate of a slot.
fn write_gate<D: Disk>(disk: &mut D, slot: u32, gate: &[u8]) -> Result<(), LinkFault>
    requires gate { length gate.now ≡ 4 }
    ensures safe { D.tells disk.old → (n : ℕ) → slot < n → IsAlike (D.may_leave disk.old) slot → IsSound n (D.may_leave disk.old)
        → IsSound n (D.may_leave disk.new) }
    ensures alike { D.tells disk.old → (n : ℕ) → slot < n → IsSound n (D.may_leave disk.old)
        → Every (D.may_leave disk.new) (IsBut n slot (D.may_leave disk.old)) }
    ensures beside { D.tells disk.old → (n : ℕ) → slot < n → IsSound n (D.may_leave disk.old)
        → Every (D.may_leave disk.new) (IsBeside n slot (D.may_leave disk.old)) }
    ensures any_moment { D.tells disk.old → (n : ℕ) → slot < n → IsSound n (D.may_leave disk.old)
        → LeavesOnly D.moment D.left_since disk.old disk.new (IsBut n slot (D.may_leave disk.old)) }
    ensures written { D.tells disk.old → OnOk result (HasGate (D.seen disk.new) slot gate.now × Only (D.seen disk.new) (D.may_leave disk.new)) }
    ensures goes_on { D.tells disk.old → D.tells disk.new }
    ensures cause { HasCause (D.faults disk.old) (D.faults disk.new) result }
{
    match disk.write(SLOT * slot as u64, gate) {
        Ok(()) => {}
        Err(fault) => return Err(fault),
    }
    disk.sync()
}

/// Writes the body of a slot that is closed.
fn write_body<D: Disk>(disk: &mut D, slot: u32, body: &[u8]) -> Result<(), LinkFault>
    requires body { length body.now ≡ 4220 }
    ensures safe { D.tells disk.old → (n : ℕ) → slot < n → IsShut (D.may_leave disk.old) slot → IsSound n (D.may_leave disk.old)
        → IsSound n (D.may_leave disk.new) }
    ensures leaves { D.tells disk.old → (n : ℕ) → slot < n → IsShut (D.may_leave disk.old) slot → IsSound n (D.may_leave disk.old)
        → Every (D.may_leave disk.new) (IsFrom n (D.may_leave disk.old)) }
    ensures beside { D.tells disk.old → (n : ℕ) → slot < n → IsSound n (D.may_leave disk.old)
        → Every (D.may_leave disk.new) (IsBeside n slot (D.may_leave disk.old)) }
    ensures any_moment { D.tells disk.old → (n : ℕ) → slot < n → IsShut (D.may_leave disk.old) slot → IsSound n (D.may_leave disk.old)
        → LeavesOnly D.moment D.left_since disk.old disk.new (IsFrom n (D.may_leave disk.old)) }
    ensures body { D.tells disk.old → OnOk result (HasWhole (D.may_leave disk.new) slot body.now) }
    ensures goes_on { D.tells disk.old → D.tells disk.new }
    ensures cause { HasCause (D.faults disk.old) (D.faults disk.new) result }
{
    match disk.write(SLOT * slot as u64 + GATE, body) {
        Ok(()) => {}
        Err(fault) => return Err(fault),
    }
    disk.sync()
}

/// Opens the gate over a body that is there.
fn open_gate<D: Disk>(disk: &mut D, slot: u32) -> Result<(), LinkFault>
    ensures safe { D.tells disk.old → (n : ℕ) → slot < n → (body : List ℕ) → HasWhole (D.may_leave disk.old) slot body → IsSound n (D.may_leave disk.old)
        → IsSound n (D.may_leave disk.new) }
    ensures leaves { D.tells disk.old → (n : ℕ) → slot < n → (body : List ℕ) → HasWhole (D.may_leave disk.old) slot body → IsSound n (D.may_leave disk.old)
        → Every (D.may_leave disk.new) (IsFromOr n slot body (D.may_leave disk.old)) }
    ensures beside { D.tells disk.old → (n : ℕ) → slot < n → IsSound n (D.may_leave disk.old)
        → Every (D.may_leave disk.new) (IsBeside n slot (D.may_leave disk.old)) }
    ensures any_moment { D.tells disk.old → (n : ℕ) → slot < n → (body : List ℕ) → HasWhole (D.may_leave disk.old) slot body → IsSound n (D.may_leave disk.old)
        → LeavesOnly D.moment D.left_since disk.old disk.new (IsFromOr n slot body (D.may_leave disk.old)) }
    ensures stands { D.tells disk.old → (n : ℕ) → slot < n → (body : List ℕ) → HasWhole (D.may_leave disk.old) slot body → IsSound n (D.may_leave disk.old)
        → OnOk result (IsOpen (D.seen disk.new) slot × HasBody (D.seen disk.new) slot body × Only (D.seen disk.new) (D.may_leave disk.new)) }
    ensures goes_on { D.tells disk.old → D.tells disk.new }
    ensures cause { HasCause (D.faults disk.old) (D.faults disk.new) result }
{
    write_gate(disk, slot, &OPEN)
}
