//! The attributes of a file before and after a change.

ghost use Rattle.std.specs.Prelude.{◌≡◌, ◌++◌, ℕ, List, Ok, Option, OnOk, OnErr};
ghost use Rattle.xdr_codec.specs.Reading.{Reads};
ghost use Rattle.xdr_codec.specs.Spelling.{BeginsWith};
ghost use Rattle.xdr_codec.specs.Spells.{Finds, SpellsOpt, Wrote};
ghost use Rattle.nfs_types.specs.Fields.{stamp_at, stamp_bytes, opt_stamp_at, opt_stamp_bytes, wcc_at, wcc_bytes};
ghost use Rattle.nfs_types.specs.Spells.{SpellsStamp, SpellsWcc};

use crate::attr::{Attr, read_opt_attr, spells_opt_attr, write_opt_attr};
use crate::time::{Time, read_time, spells_time, write_time};
use xdr_codec::{Memory, Reader, Writer, XdrFault, fits_u64};

/// What tells whether a file changed (RFC 1813, section 2.5, wcc_attr).
#[derive(Clone, Copy, Debug, PartialEq, Eq)]
pub struct Stamp {
    /// The length in bytes.
    pub size: u64,
    /// When the bytes last changed.
    pub mtime: Time,
    /// When the attributes last changed.
    pub ctime: Time,
}

/// The attributes before and after a change, as far as the server gives them (RFC 1813, section 2.5, wcc_data).
#[derive(Clone, Copy, Debug, PartialEq, Eq)]
pub struct Wcc {
    /// Before the change.
    pub before: Option<Stamp>,
    /// After the change.
    pub after: Option<Attr>,
}

/// Reads a length and two times. Short if fewer than 24 bytes remain.
pub fn read_stamp(r: &mut Reader<'_>) -> Result<Stamp, XdrFault>
    ensures exact { Reads (λ x. x) r.old result r.new (stamp_at r.old) }
    ensures spelled { Finds (λ x. x) SpellsStamp r.old result r.new }
{
    r.holds_bytes();
    stamp_of(r)
}

#[tactic(auto, unfolding(crate::specs::Fields::stamp_at))]
fn stamp_of(r: &mut Reader<'_>) -> Result<Stamp, XdrFault>
    ensures { Reads (λ x. x) r.old result r.new (stamp_at r.old) }
{
    let mut at = r.again();
    let size = at.u64()?;
    let mtime = read_time(&mut at)?;
    let ctime = read_time(&mut at)?;
    *r = at;
    Ok(Stamp { size, mtime, ctime })
}

/// Writes a length and two times. When out of memory the writer begins with what it held.
pub fn write_stamp(w: &mut Writer, v: &Stamp) -> Result<(), Memory>
    ensures ok { OnOk result (w.new ≡ w.old ++ stamp_bytes v.now) }
    ensures err { OnErr result (BeginsWith w.old w.new) }
    ensures spelled { OnOk result (Wrote (SpellsStamp v.now) w.old w.new) }
{
    spells_stamp(v);
    stamp_into(w, v)
}

/// What is written of it is a spelling of it, and is read back as it is. A fact for proofs: it does nothing.
pub fn stamp_read_back(v: &Stamp)
    ensures spelled { SpellsStamp v.now (stamp_bytes v.now) }
    ensures again { (rest : List ℕ) → stamp_at (stamp_bytes v.now ++ rest) ≡ Ok (v.now, rest) }
{
    spells_stamp(v);
}

#[tactic(auto, using(crate::proofs::Written::stamp_written))]
fn spells_stamp(v: &Stamp)
    ensures { SpellsStamp v.now (stamp_bytes v.now) }
{
    fits_u64(v.size);
    spells_time(&v.mtime);
    spells_time(&v.ctime);
}

#[tactic(auto, using(xdr_codec::proofs::Begins::begins_a, xdr_codec::proofs::Begins::after_a, xdr_codec::proofs::Begins::after_b, xdr_codec::proofs::Begins::grown_c), unfolding(crate::specs::Fields::stamp_bytes))]
fn stamp_into(w: &mut Writer, v: &Stamp) -> Result<(), Memory>
    ensures ok { OnOk result (w.new ≡ w.old ++ stamp_bytes v.now) }
    ensures err { OnErr result (BeginsWith w.old w.new) }
{
    w.u64(v.size)?;
    write_time(w, &v.mtime)?;
    write_time(w, &v.ctime)?;
    Ok(())
}

/// Reads what was before and after a change. BadBool if a word that says whether something follows is neither 0
/// nor 1, Short if bytes are missing.
pub fn read_wcc(r: &mut Reader<'_>) -> Result<Wcc, XdrFault>
    ensures exact { Reads (λ x. x) r.old result r.new (wcc_at r.old) }
    ensures spelled { Finds (λ x. x) SpellsWcc r.old result r.new }
{
    r.holds_bytes();
    wcc_of(r)
}

#[tactic(auto, unfolding(crate::specs::Fields::wcc_at))]
fn wcc_of(r: &mut Reader<'_>) -> Result<Wcc, XdrFault>
    ensures { Reads (λ x. x) r.old result r.new (wcc_at r.old) }
{
    let mut at = r.again();
    let before = opt_stamp_of(&mut at)?;
    let after = read_opt_attr(&mut at)?;
    *r = at;
    Ok(Wcc { before, after })
}

/// Writes what was before and after a change. When out of memory the writer begins with what it held.
pub fn write_wcc(w: &mut Writer, v: &Wcc) -> Result<(), Memory>
    ensures ok { OnOk result (w.new ≡ w.old ++ wcc_bytes v.now) }
    ensures err { OnErr result (BeginsWith w.old w.new) }
    ensures spelled { OnOk result (Wrote (SpellsWcc v.now) w.old w.new) }
{
    spells_wcc(v);
    wcc_into(w, v)
}

/// What is written of it is a spelling of it, and is read back as it is. A fact for proofs: it does nothing.
pub fn wcc_read_back(v: &Wcc)
    ensures spelled { SpellsWcc v.now (wcc_bytes v.now) }
    ensures again { (rest : List ℕ) → wcc_at (wcc_bytes v.now ++ rest) ≡ Ok (v.now, rest) }
{
    spells_wcc(v);
}

#[tactic(auto, using(crate::proofs::Written::wcc_written))]
fn spells_wcc(v: &Wcc)
    ensures { SpellsWcc v.now (wcc_bytes v.now) }
{
    spells_opt_stamp(&v.before);
    spells_opt_attr(&v.after);
}

#[tactic(auto, using(crate::proofs::Written::none_stamp_written, crate::proofs::Written::some_stamp_written))]
fn spells_opt_stamp(v: &Option<Stamp>)
    ensures { SpellsOpt SpellsStamp v.now (opt_stamp_bytes v.now) }
{
    match v {
        None => {}
        Some(stamp) => spells_stamp(stamp),
    }
}

#[tactic(auto, using(xdr_codec::proofs::Begins::begins_then, std::proofs::Common::append_assoc), unfolding(crate::specs::Fields::wcc_bytes))]
fn wcc_into(w: &mut Writer, v: &Wcc) -> Result<(), Memory>
    ensures ok { OnOk result (w.new ≡ w.old ++ wcc_bytes v.now) }
    ensures err { OnErr result (BeginsWith w.old w.new) }
{
    write_opt_stamp(w, &v.before)?;
    write_opt_attr(w, &v.after)?;
    Ok(())
}

#[tactic(auto, unfolding(crate::specs::Fields::opt_stamp_at))]
fn opt_stamp_of(r: &mut Reader<'_>) -> Result<Option<Stamp>, XdrFault>
    ensures { Reads (λ x. x) r.old result r.new (opt_stamp_at r.old) }
{
    let mut at = r.again();
    let stamp = if at.flag()? {
        Some(read_stamp(&mut at)?)
    } else {
        None
    };
    *r = at;
    Ok(stamp)
}

#[tactic(auto, using(xdr_codec::proofs::Begins::begins_then, std::proofs::Common::append_assoc), unfolding(crate::specs::Fields::opt_stamp_bytes))]
fn write_opt_stamp(w: &mut Writer, v: &Option<Stamp>) -> Result<(), Memory>
    ensures ok { OnOk result (w.new ≡ w.old ++ opt_stamp_bytes v.now) }
    ensures err { OnErr result (BeginsWith w.old w.new) }
{
    if let Some(stamp) = v {
        w.flag(true)?;
        write_stamp(w, stamp)?;
    } else {
        w.flag(false)?;
    }
    Ok(())
}
