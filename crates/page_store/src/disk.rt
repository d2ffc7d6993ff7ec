//! A disk: what it holds, and what a crash may leave of it.

ghost use Rattle.std.specs.Prelude.{◌≡◌, ◌≤◌, ℕ, List, length, IfOk, OnOk};
ghost use Rattle.outside.specs.Causes.{HasCause, HasCauseFailed};
ghost use Rattle.page_store.specs.Disk.{Gives, Holds, Torn, Follows, Only, Elapses};

use outside::{Failed, LinkFault};

/// Bytes that outlast the program. Between two syncs a crash may leave any bytes where something was written, and any past
/// the old end; all others stay. Bytes past the end count as zeros.
///
/// What a disk tells is for proofs alone. One that tells nothing keeps this contract too: each clause on what it holds is
/// about disks that tell it.
pub trait Disk {
    /// Whether it tells what it holds.
    ghost tells: { Self → Type 0 };

    /// The bytes that a read gives.
    ghost seen: { Self → List ℕ };

    /// What a crash at this moment may leave: the images.
    ghost may_leave: { Self → List ℕ → Type 0 };

    /// The moment, as a number that never falls.
    ghost moment: { Self → ℕ };

    /// What a crash at some moment from that one on might have left, during a call or between two.
    ghost left_since: { Self → ℕ → List ℕ → Type 0 };

    /// How often the disk has failed. It never falls.
    ghost faults: { Self → ℕ };

    /// Reads the bytes from a place on into the front of the buffer, as many as fit and are there, and returns how many.
    fn read(&mut self, at: u64, buf: &mut [u8]) -> Result<usize, Failed>
        ensures len { length buf.new ≡ length buf.old }
        ensures gives { tells self.old → IfOk result (Gives (seen self.old) at buf.old buf.new) }
        ensures within { IfOk result (λ n. n ≤ length buf.new) }
        ensures seen { tells self.old → seen self.new ≡ seen self.old }
        ensures crash { tells self.old → (c : List ℕ) → may_leave self.new c → may_leave self.old c }
        ensures time { tells self.old → Elapses (moment self.old) (moment self.new) (left_since self.old) (left_since self.new) (may_leave self.new) }
        ensures goes_on { tells self.old → tells self.new }
        ensures cause { HasCauseFailed (faults self.old) (faults self.new) result };

    /// Writes bytes from a place on. After an error any part of them may have been written.
    fn write(&mut self, at: u64, bytes: &[u8]) -> Result<(), LinkFault>
        ensures written { tells self.old → OnOk result (Holds at bytes.now (seen self.old) (seen self.new)) }
        ensures crash { tells self.old → Follows (Torn at (length bytes.now)) (may_leave self.old) (may_leave self.new) }
        ensures time { tells self.old → Elapses (moment self.old) (moment self.new) (left_since self.old) (left_since self.new) (may_leave self.new) }
        ensures goes_on { tells self.old → tells self.new }
        ensures cause { HasCause (faults self.old) (faults self.new) result };

    /// Waits until all that was written is on stable storage. After it, a crash leaves what a read gives.
    fn sync(&mut self) -> Result<(), LinkFault>
        ensures durable { tells self.old → OnOk result (Only (seen self.old) (may_leave self.new)) }
        ensures seen { tells self.old → seen self.new ≡ seen self.old }
        ensures crash { tells self.old → (c : List ℕ) → may_leave self.new c → may_leave self.old c }
        ensures time { tells self.old → Elapses (moment self.old) (moment self.new) (left_since self.old) (left_since self.new) (may_leave self.new) }
        ensures goes_on { tells self.old → tells self.new }
        ensures cause { HasCause (faults self.old) (faults self.new) result };

    /// What a read gives is one of the images.
    ghost shows_one: { (d : Self) → tells d → may_leave d (seen d) };

    /// This moment is one of those since an earlier one.
    ghost counts_now: { (d : Self) → tells d → (t : ℕ) (c : List ℕ) → t ≤ moment d → may_leave d c → left_since d t c };

    /// Since this moment there is no other.
    ghost only_now: { (d : Self) → tells d → (c : List ℕ) → left_since d (moment d) c → may_leave d c };
}
