//! READLINK: the text of a symbolic link (RFC 1813, section 3.3.5).

ghost use Rattle.std.specs.Prelude.{◌≡◌, ◌≤◌, ◌++◌, length, OnOk, OnErr};
ghost use Rattle.xdr_codec.specs.Spelling.{BeginsWith};
ghost use Rattle.xdr_codec.specs.Spells.{◌⨾◌, SpellsU32, SpellsOpaque, Wrote};
ghost use Rattle.nfs_types.specs.Spells.{SpellsOptAttr};
ghost use Rattle.xdr_codec.specs.Whole.{Gives};
ghost use Rattle.nfs_dir_calls.specs.Kept.{kept_of};
ghost use Rattle.nfs_dir_calls.specs.ReadLink.{readlink_call_at, readlink_at, readlink_bytes};

use crate::call::DirCall;
use crate::reply::DirReply;
use nfs_types::{Attr, Status, read_handle, read_opt_attr, write_opt_attr};
use xdr_codec::{Memory, Reader, Writer, XdrFault};

/// Reads the arguments.
#[tactic(auto, unfolding(crate::specs::ReadLink::readlink_call_at))]
pub fn read_call(args: &[u8]) -> Result<DirCall, XdrFault>
    ensures { result ≡ readlink_call_at args.now }
{
    let mut r = Reader::new(args);
    let file = read_handle(&mut r)?;
    r.end()?;
    Ok(DirCall::ReadLink { file })
}

/// Reads the results.
#[tactic(auto, unfolding(crate::specs::ReadLink::readlink_at))]
pub fn read_reply<'a>(results: &'a [u8]) -> Result<DirReply<'a>, XdrFault>
    ensures { Gives kept_of result (readlink_at results.entry.now) }
{
    let mut r = Reader::new(results);
    let status = r.u32()?;
    if status != 0 {
        let attr = read_opt_attr(&mut r)?;
        r.end()?;
        return Ok(DirReply::ReadLinkFail {
            status: Status(status),
            attr,
        });
    }
    let attr = read_opt_attr(&mut r)?;
    let text = r.opaque(1024)?;
    r.end()?;
    Ok(DirReply::ReadLink { attr, text })
}

/// Appends the results at status 0.
#[tactic(auto, using(xdr_codec::proofs::Begins::after_a, xdr_codec::proofs::Begins::begins_b, xdr_codec::proofs::Begins::grown_c), unfolding(crate::specs::ReadLink::readlink_bytes))]
pub fn write_reply(w: &mut Writer, attr: &Option<Attr>, text: &[u8]) -> Result<(), Memory>
    requires { length text.now ≤ 1024 }
    ensures ok { OnOk result (w.new ≡ w.old ++ readlink_bytes attr.now text.now) }
    ensures err { OnErr result (BeginsWith w.old w.new) }
    ensures spelled { OnOk result (Wrote (SpellsU32 0 ⨾ SpellsOptAttr attr.now ⨾ SpellsOpaque 1024 text.now) w.old w.new) }
{
    w.u32(0)?;
    write_opt_attr(w, attr)?;
    w.opaque(text)?;
    Ok(())
}
