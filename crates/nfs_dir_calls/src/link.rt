//! LINK: gives a file a further name (RFC 1813, section 3.3.15).

ghost use Rattle.std.specs.Prelude.{◌≡◌, ◌++◌, OnOk, OnErr};
ghost use Rattle.xdr_codec.specs.Spelling.{BeginsWith};
ghost use Rattle.xdr_codec.specs.Spells.{◌⨾◌, SpellsU32, Wrote};
ghost use Rattle.nfs_types.specs.Spells.{SpellsHandle, SpellsOptAttr, SpellsWcc};
ghost use Rattle.xdr_codec.specs.Whole.{Gives};
ghost use Rattle.nfs_types.specs.Fields.{handle_bytes};
ghost use Rattle.nfs_dir_calls.specs.Places.{place_bytes, SpellsPlace};
ghost use Rattle.nfs_dir_calls.specs.Kept.{kept_of};
ghost use Rattle.nfs_dir_calls.specs.Link.{link_call_at, link_at, link_bytes};

use crate::call::DirCall;
use crate::place::{read_place, write_place};
use crate::reply::DirReply;
use nfs_types::{
    Attr, Handle, Name, Status, Wcc, read_handle, read_opt_attr, read_wcc, write_handle,
    write_opt_attr, write_wcc,
};
use xdr_codec::{Memory, Reader, Writer, XdrFault};

/// Reads the arguments.
#[tactic(auto, unfolding(crate::specs::Link::link_call_at))]
pub fn read_call(args: &[u8]) -> Result<DirCall, XdrFault>
    ensures { result ≡ link_call_at args.now }
{
    let mut r = Reader::new(args);
    let file = read_handle(&mut r)?;
    let place = read_place(&mut r)?;
    r.end()?;
    Ok(DirCall::Link {
        file,
        dir: place.dir,
        name: place.name,
    })
}

/// Appends the arguments.
#[tactic(auto, using(xdr_codec::proofs::Begins::begins_then, std::proofs::Common::append_assoc))]
pub fn write_call(w: &mut Writer, file: &Handle, dir: &Handle, name: &Name) -> Result<(), Memory>
    ensures ok { OnOk result (w.new ≡ w.old ++ (handle_bytes file.now ++ place_bytes dir.now name.now)) }
    ensures err { OnErr result (BeginsWith w.old w.new) }
    ensures spelled { OnOk result (Wrote (SpellsHandle file.now ⨾ SpellsPlace dir.now name.now) w.old w.new) }
{
    write_handle(w, file)?;
    write_place(w, dir, name)?;
    Ok(())
}

/// Reads the results.
#[tactic(auto, unfolding(crate::specs::Link::link_at))]
pub fn read_reply<'a>(results: &'a [u8]) -> Result<DirReply<'a>, XdrFault>
    ensures { Gives kept_of result (link_at results.entry.now) }
{
    let mut r = Reader::new(results);
    let status = r.u32()?;
    let attr = read_opt_attr(&mut r)?;
    let wcc = read_wcc(&mut r)?;
    r.end()?;
    Ok(if status == 0 {
        DirReply::Link { attr, wcc }
    } else {
        DirReply::LinkFail {
            status: Status(status),
            attr,
            wcc,
        }
    })
}

/// Appends the results at any status.
#[tactic(auto, using(xdr_codec::proofs::Begins::after_a, xdr_codec::proofs::Begins::after_b, xdr_codec::proofs::Begins::grown_c), unfolding(crate::specs::Link::link_bytes))]
pub fn write_reply(
    w: &mut Writer,
    status: Status,
    attr: &Option<Attr>,
    wcc: &Wcc,
) -> Result<(), Memory>
    ensures ok { OnOk result (w.new ≡ w.old ++ link_bytes status attr.now wcc.now) }
    ensures err { OnErr result (BeginsWith w.old w.new) }
    ensures spelled { OnOk result (Wrote (SpellsU32 status.0 ⨾ SpellsOptAttr attr.now ⨾ SpellsWcc wcc.now) w.old w.new) }
{
    w.u32(status.0)?;
    write_opt_attr(w, attr)?;
    write_wcc(w, wcc)?;
    Ok(())
}
