//! Closing all slots of a disk.

ghost use Rattle.std.specs.Prelude.{◌≡◌, ◌*◌, length, IfOk, OnOk};
ghost use Rattle.outside.specs.Causes.{HasCause};
ghost use Rattle.page_store.specs.Disk.{Every};
ghost use Rattle.page_store.specs.Faults.{HasStoreCause};
ghost use Rattle.page_store.specs.Store.{HasZeros};

use crate::fault::store_fault;
use crate::slots::SLOT;
use crate::{Disk, StoreFault};
use outside::LinkFault;
use std::alloc::Global;
use xdr_codec::Memory;

/// The bytes of one write.
const PIECE: u64 = 65_600;

/// So many writes cover 1,024 slots and the label behind them.
const PIECES: u32 = 66;

/// Writes zeros over 1,024 slots and the label in few writes, and syncs.
pub(crate) fn write_zeros<D: Disk>(alloc: Global, disk: &mut D) -> Result<(), StoreFault>
    ensures empty { D.tells disk.old → OnOk result (Every (D.may_leave disk.new) (HasZeros 4329600)) }
    ensures goes_on { D.tells disk.old → D.tells disk.new }
    ensures cause { HasStoreCause (D.faults disk.old) (D.faults disk.new) result }
{
    let Ok(zeros) = zeros(alloc, PIECE as usize) else {
        return Err(StoreFault::Memory);
    };
    match write_pieces(disk, zeros.as_slice()) {
        Ok(()) => Ok(()),
        Err(fault) => Err(store_fault(fault)),
    }
}

/// Writes zeros over so many places, and syncs.
pub(crate) fn write_sized<D: Disk>(
    alloc: Global,
    disk: &mut D,
    count: u32,
) -> Result<(), StoreFault>
    ensures empty { D.tells disk.old → OnOk result (Every (D.may_leave disk.new) (HasZeros (4224 * count))) }
    ensures goes_on { D.tells disk.old → D.tells disk.new }
    ensures cause { HasStoreCause (D.faults disk.old) (D.faults disk.new) result }
{
    let Ok(zeros) = zeros(alloc, SLOT as usize) else {
        return Err(StoreFault::Memory);
    };
    match write_slots(disk, count, zeros.as_slice()) {
        Ok(()) => Ok(()),
        Err(fault) => Err(store_fault(fault)),
    }
}

/// So many zeros.
#[tactic(auto, using(crate::proofs::Zeros::zeros_replicate))]
fn zeros(alloc: Global, count: usize) -> Result<Vec<u8>, Memory>
    ensures length { IfOk result (λ v. length v.items ≡ count) }
    ensures zeros { IfOk result (λ v. HasZeros count v.items) }
{
    Ok(vec![in alloc; 0; count]?)
}

/// Writes the piece over 1,024 slots and the label, time after time, and syncs.
fn write_pieces<D: Disk>(disk: &mut D, zeros: &[u8]) -> Result<(), LinkFault>
    requires length { length zeros.now ≡ 65600 }
    requires zeros { HasZeros 65600 zeros.now }
    ensures empty { D.tells disk.old → OnOk result (Every (D.may_leave disk.new) (HasZeros 4329600)) }
    ensures goes_on { D.tells disk.old → D.tells disk.new }
    ensures cause { HasCause (D.faults disk.old) (D.faults disk.new) result }
{
    for piece in 0..PIECES {
        match disk.write(PIECE * piece as u64, zeros) {
            Ok(()) => {}
            Err(fault) => return Err(fault),
        }
    }
    disk.sync()
}

/// Writes the zeros of a slot over so many places, one after the other, and syncs.
fn write_slots<D: Disk>(disk: &mut D, count: u32, zeros: &[u8]) -> Result<(), LinkFault>
    requires length { length zeros.now ≡ 4224 }
    requires zeros { HasZeros 4224 zeros.now }
    ensures empty { D.tells disk.old → OnOk result (Every (D.may_leave disk.new) (HasZeros (4224 * count))) }
    ensures goes_on { D.tells disk.old → D.tells disk.new }
    ensures cause { HasCause (D.faults disk.old) (D.faults disk.new) result }
{
    for slot in 0..count {
        match disk.write(SLOT * slot as u64, zeros) {
            Ok(()) => {}
            Err(fault) => return Err(fault),
        }
    }
    disk.sync()
}
