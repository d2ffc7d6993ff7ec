//! What files are asked for, from their beginnings to their ends. Theorems: each function does nothing, and its contract is one.

ghost use Rattle.copy_plan.specs.Trees.{FilesAreAsked};
ghost use Rattle.copy_plan.specs.Whole.{AsksInOrder};

/// A file that is begun, written piece by piece and ended is asked for the operations that copy it. They are of one lane, one after the
/// other.
pub fn asks_in_order()
    ensures { AsksInOrder }
{}

/// For each file that a tree gives whole, a lane is asked for the operations that copy it. They come one behind the other, whatever else the
/// tree gives.
pub fn files_are_asked()
    ensures { FilesAreAsked }
{}
