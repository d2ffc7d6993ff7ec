//! What a COMMIT's verifier tells of the bytes that the server had.

ghost use Rattle.std.specs.Prelude.{◌≡◌, ◌≤◌, ◌↔◌};
ghost use Rattle.write_back.specs.Changes.{lost};
ghost use Rattle.write_back.specs.Files.{of_file, all_pending, OnFile};
ghost use Rattle.commit_verf.specs.Decisions.{decided, verdict_of, IsAllUnder, IsDecided};
ghost use Rattle.commit_verf.specs.declared.commit.Verdict.TheVariants.{AllStable};

use nfs_types::{Handle, Verf};
use write_back::WriteBack;

/// What a COMMIT's verifier tells (RFC 1813, section 4.8).
#[derive(Clone, Copy, Debug, PartialEq, Eq)]
pub enum Verdict {
    /// All bytes that the server had are stable.
    AllStable,
    /// So many segments may be lost, and are to be sent again.
    SendAgain(u64),
}

/// What the verifier of a COMMIT tells of those bytes of a file that the server has, of writes with a number up to
/// `upto`. Those that it has under the same verifier are stable, and pending no more. All others are to be sent again, as
/// stable (RFC 1813, section 4.8). AllStable exactly if there are no others.
pub fn decide(wb: &mut WriteBack, file: &Handle, upto: u64, verf: Verf) -> Verdict
    ensures verdict { result ≡ verdict_of (lost verf upto (of_file file.now wb.old).segments) }
    ensures stable { (result ≡ AllStable) ↔ IsAllUnder upto verf (of_file file.now wb.old) }
    ensures segments { OnFile wb.old wb.new file.now (decided upto verf (of_file file.now wb.old)) }
    ensures places { IsDecided upto verf (of_file file.now wb.old) (of_file file.now wb.new) }
    ensures total { all_pending wb.new ≤ all_pending wb.old }
{
    wb.is_sound();
    wb.settle(file, verf, upto);
    let again = wb.mark_again(file, upto);
    told(again)
}

fn told(again: u64) -> Verdict
    ensures { result ≡ verdict_of again }
{
    if again == 0 {
        Verdict::AllStable
    } else {
        Verdict::SendAgain(again)
    }
}
