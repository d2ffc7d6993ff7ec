//! SYMLINK: makes a symbolic link (RFC 1813, section 3.3.10).

ghost use Rattle.std.specs.Prelude.{◌≡◌, ◌≤◌, ◌++◌, length, OnOk, OnErr};
ghost use Rattle.xdr_codec.specs.Spelling.{opaque_bytes, BeginsWith};
ghost use Rattle.xdr_codec.specs.Spells.{◌⨾◌, SpellsOpaque, Wrote};
ghost use Rattle.nfs_types.specs.Spells.{SpellsSetAttr};
ghost use Rattle.xdr_codec.specs.Whole.{Gives, GivesOwned};
ghost use Rattle.nfs_types.specs.Fields.{set_attr_bytes};
ghost use Rattle.nfs_dir_calls.specs.Places.{place_bytes, SpellsPlace};
ghost use Rattle.nfs_dir_calls.specs.Kept.{kept_of};
ghost use Rattle.nfs_dir_calls.specs.SymLink.{symlink_call_at, symlink_at};

use crate::call::DirCall;
use crate::new_object::{NewObject, read_new_object};
use crate::place::{read_place, write_place};
use crate::reply::DirReply;
use nfs_types::{Handle, Name, SetAttr, read_set_attr, write_set_attr};
use std::alloc::Global;
use xdr_codec::{Blob, CodecFault, Memory, Reader, Writer, XdrFault};

/// Reads the arguments. The link's text is copied once all of them are read.
#[tactic(auto, unfolding(crate::specs::SymLink::symlink_call_at))]
pub fn read_call(alloc: Global, args: &[u8]) -> Result<DirCall, CodecFault>
    ensures { GivesOwned result (symlink_call_at args.now) }
{
    let mut r = Reader::new(args);
    let place = read_place(&mut r)?;
    let set = read_set_attr(&mut r)?;
    let target = r.opaque(1024)?;
    r.end()?;
    Ok(DirCall::SymLink {
        dir: place.dir,
        name: place.name,
        set,
        target: Blob::copy(alloc, target)?,
    })
}

/// Appends the arguments.
#[tactic(auto, using(xdr_codec::proofs::Begins::after_a, xdr_codec::proofs::Begins::begins_b, xdr_codec::proofs::Begins::grown_c))]
pub fn write_call(
    w: &mut Writer,
    dir: &Handle,
    name: &Name,
    set: &SetAttr,
    target: &Blob,
) -> Result<(), Memory>
    requires { length target.now ≤ 1024 }
    ensures ok { OnOk result (w.new ≡ w.old ++ (place_bytes dir.now name.now ++ set_attr_bytes set.now ++ opaque_bytes target.now)) }
    ensures err { OnErr result (BeginsWith w.old w.new) }
    ensures spelled { OnOk result (Wrote (SpellsPlace dir.now name.now ⨾ SpellsSetAttr set.now ⨾ SpellsOpaque 1024 target.now) w.old w.new) }
{
    write_place(w, dir, name)?;
    write_set_attr(w, set)?;
    w.opaque(target.bytes())?;
    Ok(())
}

/// Reads the results.
#[tactic(auto, unfolding(crate::specs::SymLink::symlink_at))]
pub fn read_reply<'a>(results: &'a [u8]) -> Result<DirReply<'a>, XdrFault>
    ensures { Gives kept_of result (symlink_at results.entry.now) }
{
    Ok(match read_new_object(results)? {
        NewObject::Done { found, attr, wcc } => DirReply::SymLink { found, attr, wcc },
        NewObject::Failed { status, wcc } => DirReply::SymLinkFail { status, wcc },
    })
}
