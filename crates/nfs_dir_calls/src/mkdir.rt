//! MKDIR: makes a directory (RFC 1813, section 3.3.9).

ghost use Rattle.std.specs.Prelude.{◌≡◌, ◌++◌, OnOk, OnErr};
ghost use Rattle.xdr_codec.specs.Spelling.{BeginsWith};
ghost use Rattle.xdr_codec.specs.Spells.{◌⨾◌, Wrote};
ghost use Rattle.nfs_types.specs.Spells.{SpellsSetAttr};
ghost use Rattle.xdr_codec.specs.Whole.{Gives};
ghost use Rattle.nfs_types.specs.Fields.{set_attr_bytes};
ghost use Rattle.nfs_dir_calls.specs.Places.{place_bytes, SpellsPlace};
ghost use Rattle.nfs_dir_calls.specs.Kept.{kept_of};
ghost use Rattle.nfs_dir_calls.specs.MkDir.{mkdir_call_at, mkdir_at};

use crate::call::DirCall;
use crate::new_object::{NewObject, read_new_object};
use crate::place::{read_place, write_place};
use crate::reply::DirReply;
use nfs_types::{Handle, Name, SetAttr, read_set_attr, write_set_attr};
use xdr_codec::{Memory, Reader, Writer, XdrFault};

/// Reads the arguments.
#[tactic(auto, unfolding(crate::specs::MkDir::mkdir_call_at))]
pub fn read_call(args: &[u8]) -> Result<DirCall, XdrFault>
    ensures { result ≡ mkdir_call_at args.now }
{
    let mut r = Reader::new(args);
    let place = read_place(&mut r)?;
    let set = read_set_attr(&mut r)?;
    r.end()?;
    Ok(DirCall::MkDir {
        dir: place.dir,
        name: place.name,
        set,
    })
}

/// Appends the arguments.
#[tactic(auto, using(xdr_codec::proofs::Begins::begins_then, std::proofs::Common::append_assoc))]
pub fn write_call(w: &mut Writer, dir: &Handle, name: &Name, set: &SetAttr) -> Result<(), Memory>
    ensures ok { OnOk result (w.new ≡ w.old ++ (place_bytes dir.now name.now ++ set_attr_bytes set.now)) }
    ensures err { OnErr result (BeginsWith w.old w.new) }
    ensures spelled { OnOk result (Wrote (SpellsPlace dir.now name.now ⨾ SpellsSetAttr set.now) w.old w.new) }
{
    write_place(w, dir, name)?;
    write_set_attr(w, set)?;
    Ok(())
}

/// Reads the results.
#[tactic(auto, unfolding(crate::specs::MkDir::mkdir_at))]
pub fn read_reply<'a>(results: &'a [u8]) -> Result<DirReply<'a>, XdrFault>
    ensures { Gives kept_of result (mkdir_at results.entry.now) }
{
    Ok(match read_new_object(results)? {
        NewObject::Done { found, attr, wcc } => DirReply::MkDir { found, attr, wcc },
        NewObject::Failed { status, wcc } => DirReply::MkDirFail { status, wcc },
    })
}
