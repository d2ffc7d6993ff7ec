//! The label of a store: what it is for. It stands in the place behind the slots, as a page.

ghost use Rattle.std.specs.Prelude.{◌≡◌, ◌<◌, ◌≤◌, ℕ, Some, None, length, IfOk, OnOk};
ghost use Rattle.page_store.specs.Disk.{Every, LeavesOnly};
ghost use Rattle.page_store.specs.Faults.{HasStoreCause};
ghost use Rattle.page_store.specs.Labels.{IsLabel, IsLabelled, IsRelabelled, Relabels};
ghost use Rattle.page_store.specs.Pages.{StoredPage, page_of};
ghost use Rattle.page_store.specs.Slots.{IsSound};
ghost use Rattle.page_store.specs.Store.{StaysAs};

use crate::opening::read_slot;
use crate::put::{put_page, shut_round};
use crate::record::Stored;
use crate::round_pages::whole_round;
use crate::{Disk, StoreFault};
use std::alloc::Global;

/// The label behind so many slots, if there is one.
pub(crate) fn read_label<D: Disk>(
    alloc: Global,
    disk: &mut D,
    slots: u32,
) -> Result<Option<Stored>, StoreFault>
    ensures labelled { D.tells disk.old → IfOk result (λ label. IsLabelled (D.seen disk.old) slots label) }
    ensures stays { D.tells disk.old → StaysAs D.seen D.may_leave D.moment D.left_since disk.old disk.new }
    ensures goes_on { D.tells disk.old → D.tells disk.new }
    ensures cause { HasStoreCause (D.faults disk.old) (D.faults disk.new) result }
{
    match read_slot(alloc, disk, slots) {
        Ok(page) => Ok(as_label(page, slots)),
        Err(fault) => Err(fault),
    }
}

/// A page that is a label of so many slots.
fn as_label(page: Option<Stored>, slots: u32) -> Option<Stored>
    ensures some { (label : StoredPage) → result ≡ Some label → (page ≡ Some label) × IsLabel slots label }
    ensures none { result ≡ None → (label : StoredPage) → page ≡ Some label → IsLabel slots label → ⊥ }
{
    match page {
        Some(stored) => {
            if stored.is_label(slots) {
                Some(stored)
            } else {
                None
            }
        }
        None => None,
    }
}

/// Closes the gates of all slots, and puts the body of a label into the place behind them.
pub(crate) fn put_label<D: Disk>(
    alloc: Global,
    disk: &mut D,
    slots: u32,
    body: &[u8],
) -> Result<(), StoreFault>
    requires body { length body.now ≡ 4220 }
    requires most { slots ≤ 65536 }
    ensures safe { D.tells disk.old → (n : ℕ) → slots < n → IsSound n (D.may_leave disk.old) → IsSound n (D.may_leave disk.new) }
    ensures leaves { D.tells disk.old → (n : ℕ) → slots < n → IsSound n (D.may_leave disk.old) → (label : StoredPage) → page_of body.now ≡ Some label
        → Every (D.may_leave disk.new) (Relabels slots label (D.may_leave disk.old)) }
    ensures any_moment { D.tells disk.old → (n : ℕ) → slots < n → IsSound n (D.may_leave disk.old) → (label : StoredPage) → page_of body.now ≡ Some label
        → LeavesOnly D.moment D.left_since disk.old disk.new (Relabels slots label (D.may_leave disk.old)) }
    ensures labelled { D.tells disk.old → (n : ℕ) → slots < n → IsSound n (D.may_leave disk.old) → (label : StoredPage) → page_of body.now ≡ Some label
        → OnOk result (IsRelabelled slots label (D.seen disk.new) (D.may_leave disk.new)) }
    ensures goes_on { D.tells disk.old → D.tells disk.new }
    ensures cause { HasStoreCause (D.faults disk.old) (D.faults disk.new) result }
{
    let Ok(round) = whole_round(alloc, slots as usize) else {
        return Err(StoreFault::Memory);
    };
    match shut_round(disk, round.as_slice()) {
        Ok(()) => {}
        Err(fault) => return Err(fault),
    }
    put_page(disk, slots, body)
}
