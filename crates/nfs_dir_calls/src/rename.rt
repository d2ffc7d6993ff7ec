//! RENAME: gives what has one name another (RFC 1813, section 3.3.14).

ghost use Rattle.std.specs.Prelude.{◌≡◌, ◌++◌, OnOk, OnErr};
ghost use Rattle.xdr_codec.specs.Spelling.{BeginsWith};
ghost use Rattle.xdr_codec.specs.Spells.{◌⨾◌, SpellsU32, Wrote};
ghost use Rattle.nfs_types.specs.Spells.{SpellsWcc};
ghost use Rattle.xdr_codec.specs.Whole.{Gives};
ghost use Rattle.nfs_dir_calls.specs.Places.{place_bytes, SpellsPlace};
ghost use Rattle.nfs_dir_calls.specs.Kept.{kept_of};
ghost use Rattle.nfs_dir_calls.specs.Rename.{rename_call_at, rename_at, rename_bytes};

use crate::call::DirCall;
use crate::place::{read_place, write_place};
use crate::reply::DirReply;
use nfs_types::{Handle, Name, Status, Wcc, read_wcc, write_wcc};
use xdr_codec::{Memory, Reader, Writer, XdrFault};

/// Reads the arguments.
#[tactic(auto, unfolding(crate::specs::Rename::rename_call_at))]
pub fn read_call(args: &[u8]) -> Result<DirCall, XdrFault>
    ensures { result ≡ rename_call_at args.now }
{
    let mut r = Reader::new(args);
    let source = read_place(&mut r)?;
    let target = read_place(&mut r)?;
    r.end()?;
    Ok(DirCall::Rename {
        from_dir: source.dir,
        from: source.name,
        to_dir: target.dir,
        to: target.name,
    })
}

/// Appends the arguments.
#[tactic(auto, using(xdr_codec::proofs::Begins::begins_then, std::proofs::Common::append_assoc))]
pub fn write_call(
    w: &mut Writer,
    from_dir: &Handle,
    from: &Name,
    to_dir: &Handle,
    to: &Name,
) -> Result<(), Memory>
    ensures ok { OnOk result (w.new ≡ w.old ++ (place_bytes from_dir.now from.now ++ place_bytes to_dir.now to.now)) }
    ensures err { OnErr result (BeginsWith w.old w.new) }
    ensures spelled { OnOk result (Wrote (SpellsPlace from_dir.now from.now ⨾ SpellsPlace to_dir.now to.now) w.old w.new) }
{
    write_place(w, from_dir, from)?;
    write_place(w, to_dir, to)?;
    Ok(())
}

/// Reads the results.
#[tactic(auto, unfolding(crate::specs::Rename::rename_at))]
pub fn read_reply<'a>(results: &'a [u8]) -> Result<DirReply<'a>, XdrFault>
    ensures { Gives kept_of result (rename_at results.entry.now) }
{
    let mut r = Reader::new(results);
    let status = r.u32()?;
    let from = read_wcc(&mut r)?;
    let to = read_wcc(&mut r)?;
    r.end()?;
    Ok(if status == 0 {
        DirReply::Rename { from, to }
    } else {
        DirReply::RenameFail {
            status: Status(status),
            from,
            to,
        }
    })
}

/// Appends the results at any status.
#[tactic(auto, using(xdr_codec::proofs::Begins::after_a, xdr_codec::proofs::Begins::after_b, xdr_codec::proofs::Begins::grown_c), unfolding(crate::specs::Rename::rename_bytes))]
pub fn write_reply(w: &mut Writer, status: Status, from: &Wcc, to: &Wcc) -> Result<(), Memory>
    ensures ok { OnOk result (w.new ≡ w.old ++ rename_bytes status from.now to.now) }
    ensures err { OnErr result (BeginsWith w.old w.new) }
    ensures spelled { OnOk result (Wrote (SpellsU32 status.0 ⨾ SpellsWcc from.now ⨾ SpellsWcc to.now) w.old w.new) }
{
    w.u32(status.0)?;
    write_wcc(w, from)?;
    write_wcc(w, to)?;
    Ok(())
}
