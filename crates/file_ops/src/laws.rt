//! What holds of every step of an operation on files. Facts for proofs: these functions do nothing.
//!
//! A step that no reply made possible and that waits, though there is room for a call, changes neither the operation nor the
//! shelf. And each step leaves what the next one needs:
//! - the next number of a write is above those of all pending bytes;
//! - nothing is in flight under the next xid or a later one.

ghost use Rattle.file_ops.specs.Laws.{PutResumesReady, PutTakesReady, TruncateTakesReady, ReadWaitsStill, SyncStartsReady, SyncResumesReady, SyncTakesReady, CloseStartsReady, CloseResumesReady, CloseTakesReady, WriteStartsReady, WriteResumesReady, WriteTakesReady, SyncWaitsStill, WriteWaitsStill, CloseWaitsStill, PutWaitsStill, OpenWaitsStill, TruncateWaitsStill};

/// A sync that waits.
pub fn sync_waits_still()
    ensures { SyncWaitsStill }
{}

/// A write or a fill that waits.
pub fn write_waits_still()
    ensures { WriteWaitsStill }
{}

/// A close that waits.
pub fn close_waits_still()
    ensures { CloseWaitsStill }
{}

/// A put that waits.
pub fn put_waits_still()
    ensures { PutWaitsStill }
{}

/// An open that waits.
pub fn open_waits_still()
    ensures { OpenWaitsStill }
{}

/// A truncate that waits.
pub fn truncate_waits_still()
    ensures { TruncateWaitsStill }
{}

/// A read that waits.
pub fn read_waits_still()
    ensures { ReadWaitsStill }
{}

/// What the steps of a sync leave.
pub fn sync_stays_ready()
    ensures start { SyncStartsReady }
    ensures resume { SyncResumesReady }
    ensures took { SyncTakesReady }
{}

/// What the steps of a close leave.
pub fn close_stays_ready()
    ensures start { CloseStartsReady }
    ensures resume { CloseResumesReady }
    ensures took { CloseTakesReady }
{}

/// What the steps of a write or a fill leave.
pub fn write_stays_ready()
    ensures start { WriteStartsReady }
    ensures resume { WriteResumesReady }
    ensures took { WriteTakesReady }
{}

/// What the steps of a put leave.
pub fn put_stays_ready()
    ensures resume { PutResumesReady }
    ensures took { PutTakesReady }
{}

/// What the reply to a truncate's call leaves.
pub fn truncate_stays_ready()
    ensures { TruncateTakesReady }
{}
