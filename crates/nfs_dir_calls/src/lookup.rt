//! LOOKUP: what has a name in a directory (RFC 1813, section 3.3.3).

ghost use Rattle.std.specs.Prelude.{◌≡◌, ◌++◌, OnOk, OnErr};
ghost use Rattle.xdr_codec.specs.Spelling.{BeginsWith};
ghost use Rattle.xdr_codec.specs.Spells.{◌⨾◌, SpellsU32, Wrote};
ghost use Rattle.nfs_types.specs.Spells.{SpellsHandle, SpellsOptAttr};
ghost use Rattle.xdr_codec.specs.Whole.{Gives};
ghost use Rattle.nfs_dir_calls.specs.Kept.{kept_of};
ghost use Rattle.nfs_dir_calls.specs.Lookup.{lookup_call_at, lookup_at, lookup_bytes};

use crate::call::DirCall;
use crate::place::read_place;
use crate::reply::DirReply;
use nfs_types::{Attr, Handle, Status, read_handle, read_opt_attr, write_handle, write_opt_attr};
use xdr_codec::{Memory, Reader, Writer, XdrFault};

/// Reads the arguments.
#[tactic(auto, unfolding(crate::specs::Lookup::lookup_call_at))]
pub fn read_call(args: &[u8]) -> Result<DirCall, XdrFault>
    ensures { result ≡ lookup_call_at args.now }
{
    let mut r = Reader::new(args);
    let place = read_place(&mut r)?;
    r.end()?;
    Ok(DirCall::Lookup {
        dir: place.dir,
        name: place.name,
    })
}

/// Reads the results.
#[tactic(auto, unfolding(crate::specs::Lookup::lookup_at))]
pub fn read_reply<'a>(results: &'a [u8]) -> Result<DirReply<'a>, XdrFault>
    ensures { Gives kept_of result (lookup_at results.entry.now) }
{
    let mut r = Reader::new(results);
    let status = r.u32()?;
    if status != 0 {
        let dir = read_opt_attr(&mut r)?;
        r.end()?;
        return Ok(DirReply::LookupFail {
            status: Status(status),
            dir,
        });
    }
    let found = read_handle(&mut r)?;
    let attr = read_opt_attr(&mut r)?;
    let dir = read_opt_attr(&mut r)?;
    r.end()?;
    Ok(DirReply::Lookup { found, attr, dir })
}

/// Appends the results at status 0.
#[tactic(auto, using(xdr_codec::proofs::Begins::after_a, xdr_codec::proofs::Begins::after_b, xdr_codec::proofs::Begins::after_c, xdr_codec::proofs::Begins::grown_d), unfolding(crate::specs::Lookup::lookup_bytes))]
pub fn write_reply(
    w: &mut Writer,
    found: &Handle,
    attr: &Option<Attr>,
    dir: &Option<Attr>,
) -> Result<(), Memory>
    ensures ok { OnOk result (w.new ≡ w.old ++ lookup_bytes found.now attr.now dir.now) }
    ensures err { OnErr result (BeginsWith w.old w.new) }
    ensures spelled { OnOk result (Wrote (SpellsU32 0 ⨾ SpellsHandle found.now ⨾ SpellsOptAttr attr.now ⨾ SpellsOptAttr dir.now) w.old w.new) }
{
    w.u32(0)?;
    write_handle(w, found)?;
    write_opt_attr(w, attr)?;
    write_opt_attr(w, dir)?;
    Ok(())
}
