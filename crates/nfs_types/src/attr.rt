//! The attributes of a file.

ghost use Rattle.std.specs.Prelude.{◌≡◌, ◌++◌, ℕ, List, Ok, Option, OnOk, OnErr};
ghost use Rattle.xdr_codec.specs.Reading.{Reads};
ghost use Rattle.xdr_codec.specs.Spelling.{BeginsWith};
ghost use Rattle.xdr_codec.specs.Spells.{Finds, Wrote};
ghost use Rattle.nfs_types.specs.Fields.{attr_at, attr_bytes, owner_bytes, place_bytes, opt_attr_at, opt_attr_bytes};
ghost use Rattle.nfs_types.specs.Spells.{SpellsAttr, SpellsOptAttr};

use crate::time::{Time, read_time, spells_time, write_time};
use crate::wcc::Stamp;
use xdr_codec::{Memory, Reader, Writer, XdrFault, fits_u32, fits_u64};

/// The attributes of a file (RFC 1813, section 2.5, fattr3).
#[derive(Clone, Copy, Debug, PartialEq, Eq)]
pub struct Attr {
    /// The kind of the file. Another number is kept as it is.
    /// - 1: a regular file;
    /// - 2: a directory;
    /// - 3: a block device;
    /// - 4: a character device;
    /// - 5: a symbolic link;
    /// - 6: a socket;
    /// - 7: a named pipe.
    pub kind: u32,
    /// The permission bits.
    pub mode: u32,
    /// How many names the file has.
    pub nlink: u32,
    /// The owner's number.
    pub uid: u32,
    /// The group's number.
    pub gid: u32,
    /// The length in bytes.
    pub size: u64,
    /// The bytes of disk that it takes.
    pub used: u64,
    /// The first number of a device.
    pub rdev_major: u32,
    /// The second number of a device.
    pub rdev_minor: u32,
    /// The number of the file system.
    pub fsid: u64,
    /// The number of the file in its file system.
    pub fileid: u64,
    /// When it was last read.
    pub atime: Time,
    /// When its bytes last changed.
    pub mtime: Time,
    /// When its attributes last changed.
    pub ctime: Time,
}

impl Attr {
    /// Its length and the times of its last changes.
    pub fn stamp(&self) -> Stamp
        ensures size { result.size ≡ self.now.size }
        ensures mtime { result.mtime ≡ self.now.mtime }
        ensures ctime { result.ctime ≡ self.now.ctime }
    {
        Stamp {
            size: self.size,
            mtime: self.mtime,
            ctime: self.ctime,
        }
    }
}

/// Reads attributes. Short if fewer than 84 bytes remain.
pub fn read_attr(r: &mut Reader<'_>) -> Result<Attr, XdrFault>
    ensures exact { Reads (λ x. x) r.old result r.new (attr_at r.old) }
    ensures spelled { Finds (λ x. x) SpellsAttr r.old result r.new }
{
    r.holds_bytes();
    attr_of(r)
}

#[tactic(auto, unfolding(crate::specs::Fields::attr_at))]
fn attr_of(r: &mut Reader<'_>) -> Result<Attr, XdrFault>
    ensures { Reads (λ x. x) r.old result r.new (attr_at r.old) }
{
    let mut at = r.again();
    let kind = at.u32()?;
    let mode = at.u32()?;
    let nlink = at.u32()?;
    let uid = at.u32()?;
    let gid = at.u32()?;
    let size = at.u64()?;
    let used = at.u64()?;
    let rdev_major = at.u32()?;
    let rdev_minor = at.u32()?;
    let fsid = at.u64()?;
    let fileid = at.u64()?;
    let atime = read_time(&mut at)?;
    let mtime = read_time(&mut at)?;
    let ctime = read_time(&mut at)?;
    *r = at;
    Ok(Attr {
        kind,
        mode,
        nlink,
        uid,
        gid,
        size,
        used,
        rdev_major,
        rdev_minor,
        fsid,
        fileid,
        atime,
        mtime,
        ctime,
    })
}

/// Writes attributes. When out of memory the writer begins with what it held.
pub fn write_attr(w: &mut Writer, v: &Attr) -> Result<(), Memory>
    ensures ok { OnOk result (w.new ≡ w.old ++ attr_bytes v.now) }
    ensures err { OnErr result (BeginsWith w.old w.new) }
    ensures spelled { OnOk result (Wrote (SpellsAttr v.now) w.old w.new) }
{
    spells_attr(v);
    attr_into(w, v)
}

/// What is written of it is a spelling of it, and is read back as it is. A fact for proofs: it does nothing.
pub fn attr_read_back(v: &Attr)
    ensures spelled { SpellsAttr v.now (attr_bytes v.now) }
    ensures again { (rest : List ℕ) → attr_at (attr_bytes v.now ++ rest) ≡ Ok (v.now, rest) }
{
    spells_attr(v);
}

#[tactic(auto, using(crate::proofs::Written::attr_written))]
fn spells_attr(v: &Attr)
    ensures { SpellsAttr v.now (attr_bytes v.now) }
{
    fits_u32(v.kind);
    fits_u32(v.mode);
    fits_u32(v.nlink);
    fits_u32(v.uid);
    fits_u32(v.gid);
    fits_u64(v.size);
    fits_u64(v.used);
    fits_u32(v.rdev_major);
    fits_u32(v.rdev_minor);
    fits_u64(v.fsid);
    fits_u64(v.fileid);
    spells_time(&v.atime);
    spells_time(&v.mtime);
    spells_time(&v.ctime);
}

#[tactic(auto, using(xdr_codec::proofs::Begins::after_a, xdr_codec::proofs::Begins::after_b, xdr_codec::proofs::Begins::after_c, xdr_codec::proofs::Begins::after_d, xdr_codec::proofs::Begins::grown_e), unfolding(crate::specs::Fields::attr_bytes))]
fn attr_into(w: &mut Writer, v: &Attr) -> Result<(), Memory>
    ensures ok { OnOk result (w.new ≡ w.old ++ attr_bytes v.now) }
    ensures err { OnErr result (BeginsWith w.old w.new) }
{
    write_owner(w, v)?;
    write_place(w, v)?;
    write_time(w, &v.atime)?;
    write_time(w, &v.mtime)?;
    write_time(w, &v.ctime)?;
    Ok(())
}

#[tactic(auto, using(xdr_codec::proofs::Begins::begins_a, xdr_codec::proofs::Begins::begins_b, xdr_codec::proofs::Begins::begins_c, xdr_codec::proofs::Begins::begins_d, xdr_codec::proofs::Begins::grown_e), unfolding(crate::specs::Fields::owner_bytes))]
fn write_owner(w: &mut Writer, v: &Attr) -> Result<(), Memory>
    ensures ok { OnOk result (w.new ≡ w.old ++ owner_bytes v.now) }
    ensures err { OnErr result (BeginsWith w.old w.new) }
{
    w.u32(v.kind)?;
    w.u32(v.mode)?;
    w.u32(v.nlink)?;
    w.u32(v.uid)?;
    w.u32(v.gid)?;
    Ok(())
}

#[tactic(auto, using(xdr_codec::proofs::Begins::begins_a, xdr_codec::proofs::Begins::begins_b, xdr_codec::proofs::Begins::begins_c, xdr_codec::proofs::Begins::begins_d, xdr_codec::proofs::Begins::begins_e, xdr_codec::proofs::Begins::grown_f), unfolding(crate::specs::Fields::place_bytes))]
fn write_place(w: &mut Writer, v: &Attr) -> Result<(), Memory>
    ensures ok { OnOk result (w.new ≡ w.old ++ place_bytes v.now) }
    ensures err { OnErr result (BeginsWith w.old w.new) }
{
    w.u64(v.size)?;
    w.u64(v.used)?;
    w.u32(v.rdev_major)?;
    w.u32(v.rdev_minor)?;
    w.u64(v.fsid)?;
    w.u64(v.fileid)?;
    Ok(())
}

/// Reads attributes or none (RFC 1813, section 2.5, post_op_attr). BadBool if the first word is neither 0 nor 1,
/// Short if bytes are missing.
pub fn read_opt_attr(r: &mut Reader<'_>) -> Result<Option<Attr>, XdrFault>
    ensures exact { Reads (λ x. x) r.old result r.new (opt_attr_at r.old) }
    ensures spelled { Finds (λ x. x) SpellsOptAttr r.old result r.new }
{
    r.holds_bytes();
    opt_attr_of(r)
}

#[tactic(auto, unfolding(crate::specs::Fields::opt_attr_at))]
fn opt_attr_of(r: &mut Reader<'_>) -> Result<Option<Attr>, XdrFault>
    ensures { Reads (λ x. x) r.old result r.new (opt_attr_at r.old) }
{
    let mut at = r.again();
    let attr = if at.flag()? {
        Some(read_attr(&mut at)?)
    } else {
        None
    };
    *r = at;
    Ok(attr)
}

/// Writes attributes or none. When out of memory the writer begins with what it held.
pub fn write_opt_attr(w: &mut Writer, v: &Option<Attr>) -> Result<(), Memory>
    ensures ok { OnOk result (w.new ≡ w.old ++ opt_attr_bytes v.now) }
    ensures err { OnErr result (BeginsWith w.old w.new) }
    ensures spelled { OnOk result (Wrote (SpellsOptAttr v.now) w.old w.new) }
{
    spells_opt_attr(v);
    opt_attr_into(w, v)
}

/// What is written of it is a spelling of it, and is read back as it is. A fact for proofs: it does nothing.
pub fn opt_attr_read_back(v: &Option<Attr>)
    ensures spelled { SpellsOptAttr v.now (opt_attr_bytes v.now) }
    ensures again { (rest : List ℕ) → opt_attr_at (opt_attr_bytes v.now ++ rest) ≡ Ok (v.now, rest) }
{
    spells_opt_attr(v);
}

#[tactic(auto, using(crate::proofs::Written::none_attr_written, crate::proofs::Written::some_attr_written))]
pub(crate) fn spells_opt_attr(v: &Option<Attr>)
    ensures { SpellsOptAttr v.now (opt_attr_bytes v.now) }
{
    match v {
        None => {}
        Some(attr) => spells_attr(attr),
    }
}

#[tactic(auto, using(xdr_codec::proofs::Begins::begins_then, std::proofs::Common::append_assoc), unfolding(crate::specs::Fields::opt_attr_bytes))]
fn opt_attr_into(w: &mut Writer, v: &Option<Attr>) -> Result<(), Memory>
    ensures ok { OnOk result (w.new ≡ w.old ++ opt_attr_bytes v.now) }
    ensures err { OnErr result (BeginsWith w.old w.new) }
{
    if let Some(attr) = v {
        w.flag(true)?;
        write_attr(w, attr)?;
    } else {
        w.flag(false)?;
    }
    Ok(())
}
