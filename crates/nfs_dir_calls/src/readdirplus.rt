//! READDIRPLUS: lists the names of a directory, with attributes and file handles (RFC 1813, section 3.3.17).

ghost use Rattle.std.specs.Prelude.{◌≡◌, ◌++◌, OnOk, OnErr};
ghost use Rattle.xdr_codec.specs.Spelling.{u32_bytes, u64_bytes, BeginsWith};
ghost use Rattle.xdr_codec.specs.Spells.{◌⨾◌, SpellsU32, SpellsU64, SpellsFlag, SpellsList, Wrote};
ghost use Rattle.nfs_types.specs.Spells.{SpellsHandle, SpellsOptAttr, SpellsVerf};
ghost use Rattle.nfs_dir_calls.specs.PlusPages.{SpellsPlusRow};
ghost use Rattle.xdr_codec.specs.Whole.{Gives};
ghost use Rattle.nfs_types.specs.Fields.{handle_bytes, verf_bytes};
ghost use Rattle.nfs_dir_calls.specs.Kept.{kept_of};
ghost use Rattle.nfs_dir_calls.specs.ReadDirPlus.{readdirplus_call_at, readdirplus_at, readdirplus_bytes};

use crate::call::DirCall;
use crate::plus_page::{PlusPage, read_plus_page};
use crate::reply::DirReply;
use nfs_types::{
    Attr, Handle, Status, Verf, read_handle, read_opt_attr, read_verf, write_handle,
    write_opt_attr, write_verf,
};
use xdr_codec::{Memory, Reader, Writer, XdrFault};

/// Reads the arguments.
#[tactic(auto, unfolding(crate::specs::ReadDirPlus::readdirplus_call_at))]
pub fn read_call(args: &[u8]) -> Result<DirCall, XdrFault>
    ensures { result ≡ readdirplus_call_at args.now }
{
    let mut r = Reader::new(args);
    let dir = read_handle(&mut r)?;
    let cookie = r.u64()?;
    let verf = read_verf(&mut r)?;
    let dircount = r.u32()?;
    let maxcount = r.u32()?;
    r.end()?;
    Ok(DirCall::ReadDirPlus {
        dir,
        cookie,
        verf,
        dircount,
        maxcount,
    })
}

/// Appends the arguments.
#[tactic(auto, using(xdr_codec::proofs::Begins::begins_a, xdr_codec::proofs::Begins::after_b, xdr_codec::proofs::Begins::begins_c, xdr_codec::proofs::Begins::begins_d, xdr_codec::proofs::Begins::grown_e))]
pub fn write_call(
    w: &mut Writer,
    dir: &Handle,
    cookie: u64,
    verf: &Verf,
    dircount: u32,
    maxcount: u32,
) -> Result<(), Memory>
    ensures ok { OnOk result (w.new ≡ w.old ++ (handle_bytes dir.now ++ u64_bytes cookie ++ verf_bytes verf.now ++ u32_bytes dircount ++ u32_bytes maxcount)) }
    ensures err { OnErr result (BeginsWith w.old w.new) }
    ensures spelled { OnOk result (Wrote (SpellsHandle dir.now ⨾ SpellsU64 cookie ⨾ SpellsVerf verf.now ⨾ SpellsU32 dircount ⨾ SpellsU32 maxcount) w.old w.new) }
{
    write_handle(w, dir)?;
    w.u64(cookie)?;
    write_verf(w, verf)?;
    w.u32(dircount)?;
    w.u32(maxcount)?;
    Ok(())
}

/// Reads the results. A page's entries are checked, and stay where they are.
#[tactic(auto, unfolding(crate::specs::ReadDirPlus::readdirplus_at))]
pub fn read_reply<'a>(results: &'a [u8]) -> Result<DirReply<'a>, XdrFault>
    ensures { Gives kept_of result (readdirplus_at results.entry.now) }
{
    let mut r = Reader::new(results);
    let status = r.u32()?;
    if status != 0 {
        let attr = read_opt_attr(&mut r)?;
        r.end()?;
        return Ok(DirReply::ReadDirPlusFail {
            status: Status(status),
            attr,
        });
    }
    let attr = read_opt_attr(&mut r)?;
    let verf = read_verf(&mut r)?;
    let page = read_plus_page(&mut r)?;
    let eof = r.flag()?;
    r.end()?;
    Ok(DirReply::ReadDirPlus {
        attr,
        verf,
        page,
        eof,
    })
}

/// Appends the results at status 0.
#[tactic(auto, using(xdr_codec::proofs::Begins::after_a, xdr_codec::proofs::Begins::after_b, xdr_codec::proofs::Begins::after_c, xdr_codec::proofs::Begins::begins_d, xdr_codec::proofs::Begins::grown_e), unfolding(crate::specs::ReadDirPlus::readdirplus_bytes))]
pub fn write_reply(
    w: &mut Writer,
    attr: &Option<Attr>,
    verf: &Verf,
    page: &PlusPage<'_>,
    eof: bool,
) -> Result<(), Memory>
    ensures ok { OnOk result (w.new ≡ w.old ++ readdirplus_bytes attr.now verf.now page.now eof) }
    ensures err { OnErr result (BeginsWith w.old w.new) }
    ensures spelled { OnOk result (Wrote (SpellsU32 0 ⨾ SpellsOptAttr attr.now ⨾ SpellsVerf verf.now ⨾ SpellsList SpellsPlusRow page.now ⨾ SpellsFlag eof) w.old w.new) }
{
    w.u32(0)?;
    write_opt_attr(w, attr)?;
    write_verf(w, verf)?;
    page.write(w)?;
    w.flag(eof)?;
    Ok(())
}
