//! Reading the slots of a disk.

ghost use Rattle.std.specs.Prelude.{◌≡◌, ◌<◌, ◌≤◌, ℕ, List, length, IfOk, IfErr, OnOk};
ghost use Rattle.page_store.specs.Disk.{Only};
ghost use Rattle.page_store.specs.Pages.{page_of};
ghost use Rattle.page_store.specs.declared.fault.StoreFault.TheVariants as faults;
ghost use Rattle.page_store.specs.Faults.{HasStoreCause};
ghost use Rattle.page_store.specs.Labels.{IsLabelled};
ghost use Rattle.page_store.specs.Store.{AreShown, IsShown, StaysAs};

use crate::fault::store_fault;
use crate::label::read_label;
use crate::record::{Stored, read_page};
use crate::slots::{BODY, GATE, SLOT, reads_open};
use crate::{Disk, StoreFault};
use std::alloc::Global;

/// Syncs, and reads the pages of so many slots and the label behind them.
pub(crate) fn read_all<D: Disk>(
    alloc: Global,
    disk: &mut D,
    count: u32,
) -> Result<(Vec<Option<Stored>>, Option<Stored>), StoreFault>
    ensures shown { D.tells disk.old → IfOk result (λ all. AreShown (D.seen disk.new) count all.0.items) }
    ensures labelled { D.tells disk.old → IfOk result (λ all. IsLabelled (D.seen disk.new) count all.1) }
    ensures only { D.tells disk.old → OnOk result (Only (D.seen disk.new) (D.may_leave disk.new)) }
    ensures stays { D.tells disk.old → StaysAs D.seen D.may_leave D.moment D.left_since disk.old disk.new }
    ensures length { IfOk result (λ all. length all.0.items ≡ count) }
    ensures goes_on { D.tells disk.old → D.tells disk.new }
    ensures cause { HasStoreCause (D.faults disk.old) (D.faults disk.new) result }
{
    let slots = match sync_and_read(alloc, disk, count) {
        Ok(slots) => slots,
        Err(fault) => return Err(fault),
    };
    match read_label(alloc, disk, count) {
        Ok(label) => Ok((slots, label)),
        Err(fault) => Err(fault),
    }
}

/// Syncs, and reads the pages of so many slots.
fn sync_and_read<D: Disk>(
    alloc: Global,
    disk: &mut D,
    count: u32,
) -> Result<Vec<Option<Stored>>, StoreFault>
    ensures shown { D.tells disk.old → IfOk result (λ v. AreShown (D.seen disk.new) count v.items) }
    ensures only { D.tells disk.old → OnOk result (Only (D.seen disk.new) (D.may_leave disk.new)) }
    ensures stays { D.tells disk.old → StaysAs D.seen D.may_leave D.moment D.left_since disk.old disk.new }
    ensures length { IfOk result (λ v. length v.items ≡ count) }
    ensures goes_on { D.tells disk.old → D.tells disk.new }
    ensures cause { HasStoreCause (D.faults disk.old) (D.faults disk.new) result }
{
    match disk.sync() {
        Ok(()) => {}
        Err(fault) => return Err(store_fault(fault)),
    }
    read_slots(alloc, disk, count)
}

/// The pages of so many slots.
fn read_slots<D: Disk>(
    alloc: Global,
    disk: &mut D,
    count: u32,
) -> Result<Vec<Option<Stored>>, StoreFault>
    ensures shown { D.tells disk.old → IfOk result (λ v. AreShown (D.seen disk.old) count v.items) }
    ensures stays { D.tells disk.old → StaysAs D.seen D.may_leave D.moment D.left_since disk.old disk.new }
    ensures length { IfOk result (λ v. length v.items ≡ count) }
    ensures goes_on { D.tells disk.old → D.tells disk.new }
    ensures cause { HasStoreCause (D.faults disk.old) (D.faults disk.new) result }
{
    let mut slots = Vec::new(alloc);
    for slot in 0..count {
        match read_slot(alloc, disk, slot) {
            Ok(page) => {
                let Ok(()) = slots.push(page) else {
                    return Err(StoreFault::Memory);
                };
            }
            Err(fault) => return Err(fault),
        }
    }
    Ok(slots)
}

/// The page of a slot, if it is open.
pub(crate) fn read_slot<D: Disk>(
    alloc: Global,
    disk: &mut D,
    slot: u32,
) -> Result<Option<Stored>, StoreFault>
    ensures shown { D.tells disk.old → IfOk result (λ page. IsShown (D.seen disk.old) slot page) }
    ensures stays { D.tells disk.old → StaysAs D.seen D.may_leave D.moment D.left_since disk.old disk.new }
    ensures goes_on { D.tells disk.old → D.tells disk.new }
    ensures cause { HasStoreCause (D.faults disk.old) (D.faults disk.new) result }
{
    let at = SLOT * slot as u64;
    match reads_open(disk, at) {
        Ok(true) => {}
        Ok(false) => return Ok(None),
        Err(_) => return Err(StoreFault::Fault),
    }
    let mut body = [0; BODY];
    match disk.read(at + GATE, &mut body) {
        Ok(_) => stored_in(alloc, &body),
        Err(_) => Err(StoreFault::Fault),
    }
}

/// A copy of the page in a body; None if it breaks a rule.
fn stored_in(alloc: Global, body: &[u8]) -> Result<Option<Stored>, StoreFault>
    ensures page { IfOk result (λ page. page ≡ page_of body.now) }
    ensures fault { IfErr result (λ fault. fault ≡ faults.Memory) }
{
    let Some(page) = read_page(body) else {
        return Ok(None);
    };
    match Stored::copy(alloc, &page.file, &page.stamp, page.index, page.bytes) {
        Ok(stored) => Ok(Some(stored)),
        Err(_) => Err(StoreFault::Memory),
    }
}
