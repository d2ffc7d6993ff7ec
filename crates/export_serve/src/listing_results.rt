//! The results of READDIR and READDIRPLUS at status 0 (RFC 1813, sections 3.3.16 and 3.3.17), from rows that own their
//! names.

ghost use Rattle.std.specs.Prelude.{◌≡◌, ◌++◌, OnOk, OnErr};
ghost use Rattle.xdr_codec.specs.Spelling.{BeginsWith};
ghost use Rattle.xdr_codec.specs.Spells.{◌⨾◌, SpellsU32, SpellsFlag, SpellsList, Wrote};
ghost use Rattle.nfs_types.specs.Names.{IsName};
ghost use Rattle.nfs_types.specs.Spells.{SpellsOptAttr, SpellsVerf};
ghost use Rattle.nfs_dir_calls.specs.Pages.{page_bytes};
ghost use Rattle.nfs_dir_calls.specs.DirPages.{dir_row_of, dir_row_bytes, SpellsDirRow};
ghost use Rattle.nfs_dir_calls.specs.PlusPages.{plus_row_of, plus_row_bytes, SpellsPlusRow};
ghost use Rattle.nfs_dir_calls.specs.ReadDir.{readdir_bytes};
ghost use Rattle.nfs_dir_calls.specs.ReadDirPlus.{readdirplus_bytes};

use nfs_dir_calls::{
    DirEntry, DirRow, DirRows, PlusEntry, PlusRow, PlusRows, write_dir_entry, write_plus_entry,
};
use nfs_types::{Attr, Verf, write_opt_attr, write_verf};
use xdr_codec::{Memory, Writer};

/// Appends the results of READDIR: the directory's attributes, a verifier of the cookies, the rows, and whether they are
/// the last.
#[tactic(auto, using(xdr_codec::proofs::Begins::begins_then, std::proofs::Common::append_assoc), unfolding(nfs_dir_calls::specs::ReadDir::readdir_bytes))]
pub(crate) fn write_listing(
    w: &mut Writer,
    attr: &Option<Attr>,
    verf: &Verf,
    page: &DirRows,
    eof: bool,
) -> Result<(), Memory>
    ensures ok { OnOk result (w.new ≡ w.old ++ readdir_bytes attr.now verf.now page.now eof) }
    ensures spelled { OnOk result (Wrote (SpellsU32 0 ⨾ SpellsOptAttr attr.now ⨾ SpellsVerf verf.now ⨾ SpellsList SpellsDirRow page.now ⨾ SpellsFlag eof) w.old w.new) }
{
    w.u32(0)?;
    write_opt_attr(w, attr)?;
    write_verf(w, verf)?;
    write_rows(w, page)?;
    w.flag(eof)?;
    Ok(())
}

/// Appends rows, each after the word 1, and the word 0.
fn write_rows(w: &mut Writer, page: &DirRows) -> Result<(), Memory>
    ensures ok { OnOk result (w.new ≡ w.old ++ page_bytes dir_row_bytes page.now) }
    ensures spelled { OnOk result (Wrote (SpellsList SpellsDirRow page.now) w.old w.new) }
{
    for row in page.rows() {
        write_dir_entry(w, &entry_of(row))?;
    }
    w.flag(false)?;
    Ok(())
}

/// The entry that a row makes.
fn entry_of<'a>(row: &'a DirRow) -> DirEntry<'a>
    ensures same { dir_row_of result ≡ row.entry.now }
    ensures rule { IsName result.name.now }
{
    DirEntry {
        fileid: row.fileid,
        name: row.name.bytes(),
        cookie: row.cookie,
    }
}

/// Appends the results of READDIRPLUS: the same, with the attributes and the file handle of each row.
#[tactic(auto, using(xdr_codec::proofs::Begins::begins_then, std::proofs::Common::append_assoc), unfolding(nfs_dir_calls::specs::ReadDirPlus::readdirplus_bytes))]
pub(crate) fn write_plus_listing(
    w: &mut Writer,
    attr: &Option<Attr>,
    verf: &Verf,
    page: &PlusRows,
    eof: bool,
) -> Result<(), Memory>
    ensures ok { OnOk result (w.new ≡ w.old ++ readdirplus_bytes attr.now verf.now page.now eof) }
    ensures spelled { OnOk result (Wrote (SpellsU32 0 ⨾ SpellsOptAttr attr.now ⨾ SpellsVerf verf.now ⨾ SpellsList SpellsPlusRow page.now ⨾ SpellsFlag eof) w.old w.new) }
{
    w.u32(0)?;
    write_opt_attr(w, attr)?;
    write_verf(w, verf)?;
    write_plus_rows(w, page)?;
    w.flag(eof)?;
    Ok(())
}

/// Appends rows with attributes and file handles, each after the word 1, and the word 0.
fn write_plus_rows(w: &mut Writer, page: &PlusRows) -> Result<(), Memory>
    ensures ok { OnOk result (w.new ≡ w.old ++ page_bytes plus_row_bytes page.now) }
    ensures spelled { OnOk result (Wrote (SpellsList SpellsPlusRow page.now) w.old w.new) }
{
    for row in page.rows() {
        write_plus_entry(w, &plus_entry_of(row))?;
    }
    w.flag(false)?;
    Ok(())
}

/// The entry that a row makes.
fn plus_entry_of<'a>(row: &'a PlusRow) -> PlusEntry<'a>
    ensures same { plus_row_of result ≡ row.entry.now }
    ensures rule { IsName result.name.now }
{
    PlusEntry {
        fileid: row.fileid,
        name: row.name.bytes(),
        cookie: row.cookie,
        attr: row.attr,
        found: row.found,
    }
}
