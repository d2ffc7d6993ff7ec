//! Pages on their way to the slots of a disk.

ghost use Rattle.std.specs.Prelude.{◌≡◌, ◌<◌, ◌≤◌, ℕ, Some, set, length, OnOk};
ghost use Rattle.page_store.specs.Disk.{Every, LeavesOnly};
ghost use Rattle.page_store.specs.Faults.{HasStoreCause};
ghost use Rattle.page_store.specs.Pages.{KeepsOnly, StoredPage, page_of};
ghost use Rattle.page_store.specs.Rounds.{Round, IsIn, IsUnderWay, IsOutside, IsEnded, KeepsAll, KeepsOrFills};
ghost use Rattle.page_store.specs.Slots.{IsBeside, IsShut, IsSound};
ghost use Rattle.page_store.specs.Store.{IsStored};

use crate::fault::store_fault;
use crate::record::Stored;
use crate::rounds::{close_gates, lay_body, open_gates};
use crate::slots::put_body;
use crate::{Disk, StoreFault};

/// Puts the body of a page into a slot.
pub(crate) fn put_page<D: Disk>(disk: &mut D, slot: u32, body: &[u8]) -> Result<(), StoreFault>
    requires body { length body.now ≡ 4220 }
    ensures safe { D.tells disk.old → (n : ℕ) → slot < n → IsSound n (D.may_leave disk.old) → IsSound n (D.may_leave disk.new) }
    ensures leaves { D.tells disk.old → (n : ℕ) → slot < n → IsSound n (D.may_leave disk.old) → (page : StoredPage) → page_of body.now ≡ Some page
        → Every (D.may_leave disk.new) (KeepsOnly n slot page (D.may_leave disk.old)) }
    ensures beside { D.tells disk.old → (n : ℕ) → slot < n → IsSound n (D.may_leave disk.old)
        → Every (D.may_leave disk.new) (IsBeside n slot (D.may_leave disk.old)) }
    ensures any_moment { D.tells disk.old → (n : ℕ) → slot < n → IsSound n (D.may_leave disk.old) → (page : StoredPage) → page_of body.now ≡ Some page
        → LeavesOnly D.moment D.left_since disk.old disk.new (KeepsOnly n slot page (D.may_leave disk.old)) }
    ensures stored { D.tells disk.old → (n : ℕ) → slot < n → IsSound n (D.may_leave disk.old) → (page : StoredPage) → page_of body.now ≡ Some page
        → OnOk result (IsStored slot page (D.seen disk.new) (D.may_leave disk.new)) }
    ensures goes_on { D.tells disk.old → D.tells disk.new }
    ensures cause { HasStoreCause (D.faults disk.old) (D.faults disk.new) result }
{
    match put_body(disk, slot, body) {
        Ok(()) => Ok(()),
        Err(fault) => Err(store_fault(fault)),
    }
}

/// Closes the gates of the slots in a round.
pub(crate) fn shut_round<D: Disk>(
    disk: &mut D,
    round: &[Option<Option<Stored>>],
) -> Result<(), StoreFault>
    requires { length round.now ≤ 65536 }
    ensures safe { D.tells disk.old → (n : ℕ) → length round.now ≤ n → IsSound n (D.may_leave disk.old) → IsSound n (D.may_leave disk.new) }
    ensures leaves { D.tells disk.old → (n : ℕ) → length round.now ≤ n → IsSound n (D.may_leave disk.old)
        → Every (D.may_leave disk.new) (KeepsAll n (D.may_leave disk.old)) }
    ensures outside { D.tells disk.old → (n : ℕ) → length round.now ≤ n → IsSound n (D.may_leave disk.old)
        → Every (D.may_leave disk.new) (IsOutside n round.now (D.may_leave disk.old)) }
    ensures any_moment { D.tells disk.old → (n : ℕ) → length round.now ≤ n → IsSound n (D.may_leave disk.old)
        → LeavesOnly D.moment D.left_since disk.old disk.new (KeepsAll n (D.may_leave disk.old)) }
    ensures shut { D.tells disk.old → (n : ℕ) → length round.now ≤ n → IsSound n (D.may_leave disk.old)
        → OnOk result ((k : ℕ) → IsIn round.now k → IsShut (D.may_leave disk.new) k) }
    ensures goes_on { D.tells disk.old → D.tells disk.new }
    ensures cause { HasStoreCause (D.faults disk.old) (D.faults disk.new) result }
{
    match close_gates(disk, round) {
        Ok(()) => Ok(()),
        Err(fault) => Err(store_fault(fault)),
    }
}

/// Writes the body of a page into a slot that is closed.
pub(crate) fn fill_page<D: Disk>(disk: &mut D, slot: u32, body: &[u8]) -> Result<(), StoreFault>
    requires { length body.now ≡ 4220 }
    ensures safe { D.tells disk.old → (n : ℕ) → slot < n → IsShut (D.may_leave disk.old) slot → IsSound n (D.may_leave disk.old)
        → IsSound n (D.may_leave disk.new) }
    ensures leaves { D.tells disk.old → (n : ℕ) → slot < n → IsShut (D.may_leave disk.old) slot → IsSound n (D.may_leave disk.old)
        → Every (D.may_leave disk.new) (KeepsAll n (D.may_leave disk.old)) }
    ensures beside { D.tells disk.old → (n : ℕ) → slot < n → IsSound n (D.may_leave disk.old)
        → Every (D.may_leave disk.new) (IsBeside n slot (D.may_leave disk.old)) }
    ensures any_moment { D.tells disk.old → (n : ℕ) → slot < n → IsShut (D.may_leave disk.old) slot → IsSound n (D.may_leave disk.old)
        → LeavesOnly D.moment D.left_since disk.old disk.new (KeepsAll n (D.may_leave disk.old)) }
    ensures filled { D.tells disk.old → (n : ℕ) → slot < n → IsShut (D.may_leave disk.old) slot → IsSound n (D.may_leave disk.old)
        → (round : Round) → length round ≤ n → IsIn round slot → (page : StoredPage) → page_of body.now ≡ Some page
        → IsUnderWay (D.seen disk.old) (D.may_leave disk.old) round
        → OnOk result (IsUnderWay (D.seen disk.new) (D.may_leave disk.new) (set round slot (Some (Some page)))) }
    ensures goes_on { D.tells disk.old → D.tells disk.new }
    ensures cause { HasStoreCause (D.faults disk.old) (D.faults disk.new) result }
{
    match lay_body(disk, slot, body) {
        Ok(()) => Ok(()),
        Err(fault) => Err(store_fault(fault)),
    }
}

/// Opens the gates of the slots in a round that were filled.
pub(crate) fn end_round<D: Disk>(
    disk: &mut D,
    round: &[Option<Option<Stored>>],
) -> Result<(), StoreFault>
    requires { length round.now ≤ 65536 }
    ensures safe { D.tells disk.old → (n : ℕ) → length round.now ≤ n → IsSound n (D.may_leave disk.old) → IsSound n (D.may_leave disk.new) }
    ensures leaves { D.tells disk.old → (n : ℕ) → length round.now ≤ n → IsSound n (D.may_leave disk.old)
        → IsUnderWay (D.seen disk.old) (D.may_leave disk.old) round.now
        → Every (D.may_leave disk.new) (KeepsOrFills n round.now (D.may_leave disk.old)) }
    ensures outside { D.tells disk.old → (n : ℕ) → length round.now ≤ n → IsSound n (D.may_leave disk.old)
        → Every (D.may_leave disk.new) (IsOutside n round.now (D.may_leave disk.old)) }
    ensures any_moment { D.tells disk.old → (n : ℕ) → length round.now ≤ n → IsSound n (D.may_leave disk.old)
        → IsUnderWay (D.seen disk.old) (D.may_leave disk.old) round.now
        → LeavesOnly D.moment D.left_since disk.old disk.new (KeepsOrFills n round.now (D.may_leave disk.old)) }
    ensures ended { D.tells disk.old → (n : ℕ) → length round.now ≤ n → IsSound n (D.may_leave disk.old)
        → IsUnderWay (D.seen disk.old) (D.may_leave disk.old) round.now
        → OnOk result (IsEnded round.now (D.seen disk.new) (D.may_leave disk.new)) }
    ensures goes_on { D.tells disk.old → D.tells disk.new }
    ensures cause { HasStoreCause (D.faults disk.old) (D.faults disk.new) result }
{
    match open_gates(disk, round) {
        Ok(()) => Ok(()),
        Err(fault) => Err(store_fault(fault)),
    }
}
