//! The attributes to set.

ghost use Rattle.std.specs.Prelude.{◌≡◌, ◌++◌, ℕ, List, Ok, Option, OnOk, OnErr};
ghost use Rattle.xdr_codec.specs.Reading.{Reads};
ghost use Rattle.xdr_codec.specs.Spelling.{BeginsWith};
ghost use Rattle.xdr_codec.specs.Spells.{Finds, SpellsOpt, SpellsU32, SpellsU64, Wrote};
ghost use Rattle.nfs_types.specs.Fields.{opt_u32_at, opt_u32_bytes, opt_u64_at, opt_u64_bytes, set_time_at, set_time_bytes, set_attr_at, set_attr_bytes};
ghost use Rattle.nfs_types.specs.Spells.{SpellsSetAttr, SpellsSetTime};

use crate::time::{Time, read_time, spells_time, write_time};
use xdr_codec::{Memory, Reader, Writer, XdrFault, fits_u32, fits_u64};

/// How a time is to be set (RFC 1813, section 2.5, set_atime and set_mtime).
#[derive(Clone, Copy, Debug, PartialEq, Eq)]
pub enum SetTime {
    /// Not at all.
    Keep,
    /// To the server's time.
    Server,
    /// To this time.
    Client(Time),
}

/// The attributes to set; None keeps what is there (RFC 1813, section 2.5, sattr3).
#[derive(Clone, Copy, Debug, PartialEq, Eq)]
pub struct SetAttr {
    /// The permission bits.
    pub mode: Option<u32>,
    /// The owner's number.
    pub uid: Option<u32>,
    /// The group's number.
    pub gid: Option<u32>,
    /// The length in bytes.
    pub size: Option<u64>,
    /// When it was last read.
    pub atime: SetTime,
    /// When its bytes last changed.
    pub mtime: SetTime,
}

/// Reads the attributes to set. The errors:
/// - BadBool: a word that says whether a number follows is neither 0 nor 1.
/// - BadValue: the word of a time is above 2.
/// - Short: bytes are missing.
pub fn read_set_attr(r: &mut Reader<'_>) -> Result<SetAttr, XdrFault>
    ensures exact { Reads (λ x. x) r.old result r.new (set_attr_at r.old) }
    ensures spelled { Finds (λ x. x) SpellsSetAttr r.old result r.new }
{
    r.holds_bytes();
    set_attr_of(r)
}

#[tactic(auto, unfolding(crate::specs::Fields::set_attr_at))]
fn set_attr_of(r: &mut Reader<'_>) -> Result<SetAttr, XdrFault>
    ensures { Reads (λ x. x) r.old result r.new (set_attr_at r.old) }
{
    let mut at = r.again();
    let mode = opt_u32_of(&mut at)?;
    let uid = opt_u32_of(&mut at)?;
    let gid = opt_u32_of(&mut at)?;
    let size = opt_u64_of(&mut at)?;
    let atime = set_time_of(&mut at)?;
    let mtime = set_time_of(&mut at)?;
    *r = at;
    Ok(SetAttr {
        mode,
        uid,
        gid,
        size,
        atime,
        mtime,
    })
}

/// Writes the attributes to set. When out of memory the writer begins with what it held.
pub fn write_set_attr(w: &mut Writer, v: &SetAttr) -> Result<(), Memory>
    ensures ok { OnOk result (w.new ≡ w.old ++ set_attr_bytes v.now) }
    ensures err { OnErr result (BeginsWith w.old w.new) }
    ensures spelled { OnOk result (Wrote (SpellsSetAttr v.now) w.old w.new) }
{
    spells_set_attr(v);
    set_attr_into(w, v)
}

/// What is written of it is a spelling of it, and is read back as it is. A fact for proofs: it does nothing.
pub fn set_attr_read_back(v: &SetAttr)
    ensures spelled { SpellsSetAttr v.now (set_attr_bytes v.now) }
    ensures again { (rest : List ℕ) → set_attr_at (set_attr_bytes v.now ++ rest) ≡ Ok (v.now, rest) }
{
    spells_set_attr(v);
}

#[tactic(auto, using(crate::proofs::Written::set_attr_written))]
fn spells_set_attr(v: &SetAttr)
    ensures { SpellsSetAttr v.now (set_attr_bytes v.now) }
{
    spells_opt_u32(v.mode);
    spells_opt_u32(v.uid);
    spells_opt_u32(v.gid);
    spells_opt_u64(v.size);
    spells_set_time(&v.atime);
    spells_set_time(&v.mtime);
}

#[tactic(auto, using(crate::proofs::Written::none_u32_written, crate::proofs::Written::some_u32_written))]
fn spells_opt_u32(v: Option<u32>)
    ensures { SpellsOpt SpellsU32 v (opt_u32_bytes v) }
{
    match v {
        None => {}
        Some(number) => fits_u32(number),
    }
}

#[tactic(auto, using(crate::proofs::Written::none_u64_written, crate::proofs::Written::some_u64_written))]
fn spells_opt_u64(v: Option<u64>)
    ensures { SpellsOpt SpellsU64 v (opt_u64_bytes v) }
{
    match v {
        None => {}
        Some(number) => fits_u64(number),
    }
}

#[tactic(auto, using(crate::proofs::Written::keep_written, crate::proofs::Written::server_written, crate::proofs::Written::client_written))]
fn spells_set_time(v: &SetTime)
    ensures { SpellsSetTime v.now (set_time_bytes v.now) }
{
    match v {
        SetTime::Keep => {}
        SetTime::Server => {}
        SetTime::Client(time) => spells_time(time),
    }
}

#[tactic(auto, using(xdr_codec::proofs::Begins::after_a, xdr_codec::proofs::Begins::after_b, xdr_codec::proofs::Begins::after_c, xdr_codec::proofs::Begins::after_d, xdr_codec::proofs::Begins::after_e, xdr_codec::proofs::Begins::grown_f), unfolding(crate::specs::Fields::set_attr_bytes))]
fn set_attr_into(w: &mut Writer, v: &SetAttr) -> Result<(), Memory>
    ensures ok { OnOk result (w.new ≡ w.old ++ set_attr_bytes v.now) }
    ensures err { OnErr result (BeginsWith w.old w.new) }
{
    write_opt_u32(w, v.mode)?;
    write_opt_u32(w, v.uid)?;
    write_opt_u32(w, v.gid)?;
    write_opt_u64(w, v.size)?;
    write_set_time(w, &v.atime)?;
    write_set_time(w, &v.mtime)?;
    Ok(())
}

#[tactic(auto, unfolding(crate::specs::Fields::opt_u32_at))]
fn opt_u32_of(r: &mut Reader<'_>) -> Result<Option<u32>, XdrFault>
    ensures { Reads (λ x. x) r.old result r.new (opt_u32_at r.old) }
{
    let mut at = r.again();
    let number = if at.flag()? { Some(at.u32()?) } else { None };
    *r = at;
    Ok(number)
}

#[tactic(auto, using(xdr_codec::proofs::Begins::begins_then, std::proofs::Common::append_assoc), unfolding(crate::specs::Fields::opt_u32_bytes))]
fn write_opt_u32(w: &mut Writer, v: Option<u32>) -> Result<(), Memory>
    ensures ok { OnOk result (w.new ≡ w.old ++ opt_u32_bytes v) }
    ensures err { OnErr result (BeginsWith w.old w.new) }
{
    if let Some(number) = v {
        w.flag(true)?;
        w.u32(number)?;
    } else {
        w.flag(false)?;
    }
    Ok(())
}

#[tactic(auto, unfolding(crate::specs::Fields::opt_u64_at))]
fn opt_u64_of(r: &mut Reader<'_>) -> Result<Option<u64>, XdrFault>
    ensures { Reads (λ x. x) r.old result r.new (opt_u64_at r.old) }
{
    let mut at = r.again();
    let number = if at.flag()? { Some(at.u64()?) } else { None };
    *r = at;
    Ok(number)
}

#[tactic(auto, using(xdr_codec::proofs::Begins::begins_then, std::proofs::Common::append_assoc), unfolding(crate::specs::Fields::opt_u64_bytes))]
fn write_opt_u64(w: &mut Writer, v: Option<u64>) -> Result<(), Memory>
    ensures ok { OnOk result (w.new ≡ w.old ++ opt_u64_bytes v) }
    ensures err { OnErr result (BeginsWith w.old w.new) }
{
    if let Some(number) = v {
        w.flag(true)?;
        w.u64(number)?;
    } else {
        w.flag(false)?;
    }
    Ok(())
}

#[tactic(auto, unfolding(crate::specs::Fields::set_time_at, crate::specs::Fields::set_time_of))]
fn set_time_of(r: &mut Reader<'_>) -> Result<SetTime, XdrFault>
    ensures { Reads (λ x. x) r.old result r.new (set_time_at r.old) }
{
    let mut at = r.again();
    let set = match at.u32()? {
        0 => SetTime::Keep,
        1 => SetTime::Server,
        2 => SetTime::Client(read_time(&mut at)?),
        _ => return Err(XdrFault::BadValue),
    };
    *r = at;
    Ok(set)
}

#[tactic(auto, using(xdr_codec::proofs::Begins::begins_then, std::proofs::Common::append_assoc), unfolding(crate::specs::Fields::set_time_bytes))]
fn write_set_time(w: &mut Writer, v: &SetTime) -> Result<(), Memory>
    ensures ok { OnOk result (w.new ≡ w.old ++ set_time_bytes v.now) }
    ensures err { OnErr result (BeginsWith w.old w.new) }
{
    match v {
        SetTime::Keep => w.u32(0)?,
        SetTime::Server => w.u32(1)?,
        SetTime::Client(time) => {
            w.u32(2)?;
            write_time(w, time)?;
        }
    }
    Ok(())
}
