//! What a server answers where a name was to go: by REMOVE or RMDIR.

ghost use Rattle.std.specs.Prelude.{◌≡◌, ◌++◌, OnOk, OnErr};
ghost use Rattle.xdr_codec.specs.Spelling.{BeginsWith};
ghost use Rattle.xdr_codec.specs.Spells.{◌⨾◌, SpellsU32, Wrote};
ghost use Rattle.nfs_types.specs.Spells.{SpellsWcc};
ghost use Rattle.xdr_codec.specs.Whole.{Gives};
ghost use Rattle.nfs_dir_calls.specs.Changed.{arms_of_changed, changed_at, changed_bytes};

use nfs_types::{Status, Wcc, read_wcc, write_wcc};
use xdr_codec::{Memory, Reader, Writer, XdrFault};

/// Whether a directory was changed, and the directory before and after.
#[derive(Clone, Copy, Debug)]
pub enum Changed {
    Done { wcc: Wcc },
    Failed { status: Status, wcc: Wcc },
}

/// Reads the results.
#[tactic(auto, unfolding(crate::specs::Changed::changed_at))]
pub fn read_changed(results: &[u8]) -> Result<Changed, XdrFault>
    ensures { Gives arms_of_changed result (changed_at results.now) }
{
    let mut r = Reader::new(results);
    let status = r.u32()?;
    let wcc = read_wcc(&mut r)?;
    r.end()?;
    Ok(if status == 0 {
        Changed::Done { wcc }
    } else {
        Changed::Failed {
            status: Status(status),
            wcc,
        }
    })
}

/// Appends the results at status 0.
#[tactic(auto, using(xdr_codec::proofs::Begins::begins_then, std::proofs::Common::append_assoc), unfolding(crate::specs::Changed::changed_bytes))]
pub fn write_changed(w: &mut Writer, wcc: &Wcc) -> Result<(), Memory>
    ensures ok { OnOk result (w.new ≡ w.old ++ changed_bytes wcc.now) }
    ensures err { OnErr result (BeginsWith w.old w.new) }
    ensures spelled { OnOk result (Wrote (SpellsU32 0 ⨾ SpellsWcc wcc.now) w.old w.new) }
{
    w.u32(0)?;
    write_wcc(w, wcc)?;
    Ok(())
}
