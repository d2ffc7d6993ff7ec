//! What holds of every step of an operation on names. Facts for proofs: these functions do nothing.
//!
//! A step that no reply made possible and that waits, though there is room for a call, changes neither the operation nor the
//! shelf.

ghost use Rattle.name_ops.specs.Laws.{WalkWaitsStill, VisitWaitsStill, CopyWaitsStill, PairWaitsStill, StatWaitsStill, RemoveWaitsStill};

/// A walk that waits.
pub fn walk_waits_still()
    ensures { WalkWaitsStill }
{}

/// An operation of one walk and one call that waits.
pub fn visit_waits_still()
    ensures { VisitWaitsStill }
{}

/// One whose call carries a copy, for which there may be no memory.
pub fn copy_waits_still()
    ensures { CopyWaitsStill }
{}

/// An operation of two walks and one call that waits.
pub fn pair_waits_still()
    ensures { PairWaitsStill }
{}

/// A stat that waits.
pub fn stat_waits_still()
    ensures { StatWaitsStill }
{}

/// A removal of a name that waits.
pub fn remove_waits_still()
    ensures { RemoveWaitsStill }
{}
