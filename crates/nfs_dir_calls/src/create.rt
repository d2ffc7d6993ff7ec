//! CREATE: makes a regular file (RFC 1813, section 3.3.8).

ghost use Rattle.std.specs.Prelude.{◌≡◌, ◌++◌, OnOk, OnErr};
ghost use Rattle.xdr_codec.specs.Reading.{Reads};
ghost use Rattle.xdr_codec.specs.Spelling.{BeginsWith};
ghost use Rattle.xdr_codec.specs.Spells.{◌⨾◌, Wrote};
ghost use Rattle.xdr_codec.specs.Whole.{Gives};
ghost use Rattle.nfs_dir_calls.specs.Places.{place_bytes, SpellsPlace};
ghost use Rattle.nfs_dir_calls.specs.Makings.{making_at, making_bytes, SpellsMaking};
ghost use Rattle.nfs_dir_calls.specs.Kept.{kept_of};
ghost use Rattle.nfs_dir_calls.specs.Create.{create_call_at, create_at};

use crate::call::DirCall;
use crate::new_object::{NewObject, read_new_object};
use crate::place::{read_place, write_place};
use crate::reply::DirReply;
use nfs_types::{
    Handle, Name, SetAttr, Verf, read_set_attr, read_verf, write_set_attr, write_verf,
};
use xdr_codec::{Memory, Reader, Writer, XdrFault};

/// How a file is made (RFC 1813, section 3.3.8, createhow3).
#[derive(Clone, Copy, Debug, PartialEq, Eq)]
pub enum Making {
    /// UNCHECKED, 0: also if the name is there; then what is given is set.
    Unchecked(SetAttr),
    /// GUARDED, 1: only if the name isn't there.
    Guarded(SetAttr),
    /// EXCLUSIVE, 2: only if the name isn't there, or was made under the same verifier.
    Exclusive(Verf),
}

/// Reads a way to make a file.
#[tactic(auto, unfolding(crate::specs::Makings::making_at, crate::specs::Makings::making_of))]
fn read_making(r: &mut Reader<'_>) -> Result<Making, XdrFault>
    ensures { Reads (λ x. x) r.old result r.new (making_at r.old) }
{
    let mut at = r.again();
    let making = match at.u32()? {
        0 => Making::Unchecked(read_set_attr(&mut at)?),
        1 => Making::Guarded(read_set_attr(&mut at)?),
        2 => Making::Exclusive(read_verf(&mut at)?),
        _ => return Err(XdrFault::BadValue),
    };
    *r = at;
    Ok(making)
}

/// Appends a way to make a file.
#[tactic(auto, using(xdr_codec::proofs::Begins::begins_then, std::proofs::Common::append_assoc), unfolding(crate::specs::Makings::making_bytes))]
fn write_making(w: &mut Writer, making: &Making) -> Result<(), Memory>
    ensures ok { OnOk result (w.new ≡ w.old ++ making_bytes making.now) }
    ensures err { OnErr result (BeginsWith w.old w.new) }
    ensures spelled { OnOk result (Wrote (SpellsMaking making.now) w.old w.new) }
{
    match making {
        Making::Unchecked(set) => {
            w.u32(0)?;
            write_set_attr(w, set)?;
        }
        Making::Guarded(set) => {
            w.u32(1)?;
            write_set_attr(w, set)?;
        }
        Making::Exclusive(verf) => {
            w.u32(2)?;
            write_verf(w, verf)?;
        }
    }
    Ok(())
}

/// Reads the arguments.
#[tactic(auto, unfolding(crate::specs::Create::create_call_at))]
pub fn read_call(args: &[u8]) -> Result<DirCall, XdrFault>
    ensures { result ≡ create_call_at args.now }
{
    let mut r = Reader::new(args);
    let place = read_place(&mut r)?;
    let making = read_making(&mut r)?;
    r.end()?;
    Ok(DirCall::Create {
        dir: place.dir,
        name: place.name,
        making,
    })
}

/// Appends the arguments.
#[tactic(auto, using(xdr_codec::proofs::Begins::begins_then, std::proofs::Common::append_assoc))]
pub fn write_call(w: &mut Writer, dir: &Handle, name: &Name, making: &Making) -> Result<(), Memory>
    ensures ok { OnOk result (w.new ≡ w.old ++ (place_bytes dir.now name.now ++ making_bytes making.now)) }
    ensures err { OnErr result (BeginsWith w.old w.new) }
    ensures spelled { OnOk result (Wrote (SpellsPlace dir.now name.now ⨾ SpellsMaking making.now) w.old w.new) }
{
    write_place(w, dir, name)?;
    write_making(w, making)?;
    Ok(())
}

/// Reads the results.
#[tactic(auto, unfolding(crate::specs::Create::create_at))]
pub fn read_reply<'a>(results: &'a [u8]) -> Result<DirReply<'a>, XdrFault>
    ensures { Gives kept_of result (create_at results.entry.now) }
{
    Ok(match read_new_object(results)? {
        NewObject::Done { found, attr, wcc } => DirReply::Create { found, attr, wcc },
        NewObject::Failed { status, wcc } => DirReply::CreateFail { status, wcc },
    })
}
