//! What a server answers where an object was to be made: by CREATE, MKDIR, SYMLINK or MKNOD.

ghost use Rattle.std.specs.Prelude.{◌≡◌, ◌++◌, OnOk, OnErr};
ghost use Rattle.xdr_codec.specs.Spelling.{BeginsWith};
ghost use Rattle.xdr_codec.specs.Spells.{◌⨾◌, SpellsU32, Wrote};
ghost use Rattle.nfs_types.specs.Spells.{SpellsOptAttr, SpellsWcc};
ghost use Rattle.nfs_dir_calls.specs.OptHandles.{SpellsOptHandle};
ghost use Rattle.xdr_codec.specs.Whole.{Gives};
ghost use Rattle.nfs_dir_calls.specs.NewObjects.{arms_of_object, new_object_at, new_object_bytes};

use crate::opt_handle::{read_opt_handle, write_opt_handle};
use nfs_types::{Attr, Handle, Status, Wcc, read_opt_attr, read_wcc, write_opt_attr, write_wcc};
use xdr_codec::{Memory, Reader, Writer, XdrFault};

/// Whether an object was made.
#[derive(Clone, Copy, Debug)]
pub enum NewObject {
    /// What was made, and the directory before and after.
    Done {
        found: Option<Handle>,
        attr: Option<Attr>,
        wcc: Wcc,
    },
    /// The directory before and after.
    Failed {
        status: Status,
        wcc: Wcc,
    },
}

/// Reads the results.
#[tactic(auto, unfolding(crate::specs::NewObjects::new_object_at))]
pub fn read_new_object(results: &[u8]) -> Result<NewObject, XdrFault>
    ensures { Gives arms_of_object result (new_object_at results.now) }
{
    let mut r = Reader::new(results);
    let status = r.u32()?;
    if status != 0 {
        let wcc = read_wcc(&mut r)?;
        r.end()?;
        return Ok(NewObject::Failed {
            status: Status(status),
            wcc,
        });
    }
    let found = read_opt_handle(&mut r)?;
    let attr = read_opt_attr(&mut r)?;
    let wcc = read_wcc(&mut r)?;
    r.end()?;
    Ok(NewObject::Done { found, attr, wcc })
}

/// Appends the results at status 0.
#[tactic(auto, using(xdr_codec::proofs::Begins::after_a, xdr_codec::proofs::Begins::after_b, xdr_codec::proofs::Begins::after_c, xdr_codec::proofs::Begins::grown_d), unfolding(crate::specs::NewObjects::new_object_bytes))]
pub fn write_new_object(
    w: &mut Writer,
    found: &Option<Handle>,
    attr: &Option<Attr>,
    wcc: &Wcc,
) -> Result<(), Memory>
    ensures ok { OnOk result (w.new ≡ w.old ++ new_object_bytes found.now attr.now wcc.now) }
    ensures err { OnErr result (BeginsWith w.old w.new) }
    ensures spelled { OnOk result (Wrote (SpellsU32 0 ⨾ SpellsOptHandle found.now ⨾ SpellsOptAttr attr.now ⨾ SpellsWcc wcc.now) w.old w.new) }
{
    w.u32(0)?;
    write_opt_handle(w, found)?;
    write_opt_attr(w, attr)?;
    write_wcc(w, wcc)?;
    Ok(())
}
