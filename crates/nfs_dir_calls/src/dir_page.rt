//! Pages of READDIR: some entries of a directory (RFC 1813, section 3.3.16, dirlist3).

ghost use Rattle.std.specs.Prelude.{◌≡◌, ◌∷◌, ◌++◌, [], true, MatchOption, OnOk, OnErr, IfOk};
ghost use Rattle.xdr_codec.specs.Reading.{Reads};
ghost use Rattle.xdr_codec.specs.Spelling.{flag_bytes, BeginsWith};
ghost use Rattle.xdr_codec.specs.Spells.{◌⨾◌, SpellsFlag, SpellsList, Wrote};
ghost use Rattle.xdr_codec.specs.Whole.{Gives, FindsWhole, whole_at};
ghost use Rattle.nfs_types.specs.Names.{IsName};
ghost use Rattle.nfs_dir_calls.specs.Pages.{page_at, page_bytes};
ghost use Rattle.nfs_dir_calls.specs.DirPages.{dir_row_of, dir_row_at, dir_row_bytes, SpellsDirRow};

use crate::listed_name::{read_listed_name, write_listed_name};
use nfs_types::Name;
use std::alloc::Global;
use std::fmt;
use std::marker::Model;
use xdr_codec::{Memory, Reader, Writer, XdrFault};

/// An entry of a directory (RFC 1813, section 3.3.16, entry3), whose name lies in the record that it was read from.
#[derive(Clone, Copy, Debug)]
pub struct DirEntry<'a> {
    /// The number of the file in its file system.
    pub fileid: u64,
    /// A name in the directory.
    pub name: &'a [u8],
    /// Where a listing goes on after this entry.
    pub cookie: u64,
}

/// An entry of a directory with a name of its own.
#[derive(Clone, Copy, Debug, PartialEq, Eq)]
pub struct DirRow {
    /// The number of the file in its file system.
    pub fileid: u64,
    /// A name in the directory.
    pub name: Name,
    /// Where a listing goes on after this entry.
    pub cookie: u64,
}

impl DirEntry<'_> {
    /// The same with a name of its own.
    fn row(&self) -> DirRow
        requires { IsName self.now.name.now }
        ensures { result ≡ dir_row_of self.now }
    {
        DirRow {
            fileid: self.fileid,
            name: Name::make(self.name).unwrap(),
            cookie: self.cookie,
        }
    }
}

/// Reads an entry.
#[tactic(auto, unfolding(crate::specs::DirPages::dir_row_at))]
fn read_dir_entry<'a>(r: &mut Reader<'a>) -> Result<DirEntry<'a>, XdrFault>
    ensures { Reads dir_row_of r.old result r.new (dir_row_at r.old) }
{
    let mut at = r.again();
    let fileid = at.u64()?;
    let name = read_listed_name(&mut at)?;
    let cookie = at.u64()?;
    *r = at;
    Ok(DirEntry {
        fileid,
        name,
        cookie,
    })
}

/// Appends the word 1 and an entry. The condition is that its name meets the rule of a name.
#[tactic(auto, using(xdr_codec::proofs::Begins::begins_then, std::proofs::Common::append_assoc))]
pub fn write_dir_entry(w: &mut Writer, entry: &DirEntry<'_>) -> Result<(), Memory>
    requires { IsName entry.now.name.now }
    ensures ok { OnOk result (w.new ≡ w.old ++ (flag_bytes true ++ dir_row_bytes (dir_row_of entry.now))) }
    ensures err { OnErr result (BeginsWith w.old w.new) }
    ensures spelled { OnOk result (Wrote (SpellsFlag true ⨾ SpellsDirRow (dir_row_of entry.now)) w.old w.new) }
{
    w.flag(true)?;
    write_dir_row(w, entry)?;
    Ok(())
}

/// Appends an entry alone.
#[tactic(auto, using(xdr_codec::proofs::Begins::after_a, xdr_codec::proofs::Begins::begins_b, xdr_codec::proofs::Begins::grown_c), unfolding(crate::specs::DirPages::dir_row_bytes))]
pub(crate) fn write_dir_row(w: &mut Writer, entry: &DirEntry<'_>) -> Result<(), Memory>
    requires { IsName entry.now.name.now }
    ensures ok { OnOk result (w.new ≡ w.old ++ dir_row_bytes (dir_row_of entry.now)) }
    ensures err { OnErr result (BeginsWith w.old w.new) }
    ensures spelled { OnOk result (Wrote (SpellsDirRow (dir_row_of entry.now)) w.old w.new) }
{
    w.u64(entry.fileid)?;
    write_listed_name(w, entry.name)?;
    w.u64(entry.cookie)?;
    Ok(())
}

/// The entries that are left of a page that was read and checked.
#[derive(Drop)]
pub struct DirPage<'a> {
    rest: Reader<'a>,
}

impl<'a> Model for DirPage<'a> {
    ghost use Rattle.std.specs.Prelude.{List};
    ghost use Rattle.nfs_dir_calls.specs.declared.dir_page.DirRow.{DirRow};
    ghost use Rattle.nfs_dir_calls.specs.DirPages.{dir_row_at};
    ghost use Rattle.nfs_dir_calls.specs.Pages.{rows_of, IsPage};

    ghost Value = { List DirRow };

    ghost view = { λ p. rows_of dir_row_at p.rest };

    ghost invariant = { λ p. IsPage dir_row_at p.rest };
}

impl fmt::Debug for DirPage<'_> {
    fn fmt<W: fmt::Write>(&self, f: &mut fmt::Formatter<W>) -> fmt::Result {
        f.write_str("DirPage")
    }
}

impl<'a> DirPage<'a> {
    /// A page of these bytes: entries, each after the word 1, and the word 0 at the end.
    ///
    /// A fault is answered exactly if the bytes aren't one such list: the first one in order of spelling.
    pub fn over(bytes: &'a [u8]) -> Result<DirPage<'a>, XdrFault>
        ensures exact { Gives (λ p. p) result (whole_at (page_at dir_row_at) bytes.entry.now) }
        ensures spelled { FindsWhole (λ p. p) (SpellsList SpellsDirRow) bytes.entry.now result }
    {
        Reader::new(bytes).holds_bytes();
        page_of(bytes)
    }

    /// The same entries, from where this page stands, for a caller that has it by reference. No byte is copied.
    pub fn again(&self) -> DirPage<'a>
        ensures { result ≡ self.now }
    {
        DirPage {
            rest: self.rest.again(),
        }
    }

    /// The next entry, and None at the end. It takes no memory and can't fail.
    pub fn next(&mut self) -> Option<DirEntry<'a>>
        ensures { MatchOption result ((self.old ≡ []) × (self.new ≡ [])) (λ e. (self.old ≡ dir_row_of e ∷ self.new) × IsName e.name.now) }
    {
        let mut at = self.rest.again();
        let Ok(more) = at.flag() else {
            return None;
        };
        if !more {
            return None;
        }
        let Ok(entry) = read_dir_entry(&mut at) else {
            return None;
        };
        self.rest = at;
        Some(entry)
    }

    /// A copy of the entries that are left.
    pub(crate) fn rows(&self, alloc: Global) -> Result<DirRows, Memory>
        ensures { IfOk result (λ rows. rows ≡ self.now) }
    {
        let mut rows = Vec::new(alloc);
        let mut left = self.again();
        while let Some(entry) = left.next() {
            if rows.push(entry.row()).is_err() {
                return Err(Memory);
            }
        }
        Ok(DirRows::of(rows))
    }

    /// Appends the entries that are left and the word 0.
    pub(crate) fn write(&self, w: &mut Writer) -> Result<(), Memory>
        ensures ok { OnOk result (w.new ≡ w.old ++ page_bytes dir_row_bytes self.now) }
        ensures err { OnErr result (BeginsWith w.old w.new) }
        ensures spelled { OnOk result (Wrote (SpellsList SpellsDirRow self.now) w.old w.new) }
    {
        let mut left = self.again();
        while let Some(entry) = left.next() {
            write_dir_entry(w, &entry)?;
        }
        w.flag(false)?;
        Ok(())
    }
}

fn page_of<'a>(bytes: &'a [u8]) -> Result<DirPage<'a>, XdrFault>
    ensures { Gives (λ p. p) result (whole_at (page_at dir_row_at) bytes.entry.now) }
{
    let mut r = Reader::new(bytes);
    let page = read_dir_page(&mut r)?;
    r.end()?;
    Ok(page)
}

/// Reads a page, and checks all its entries.
pub(crate) fn read_dir_page<'a>(r: &mut Reader<'a>) -> Result<DirPage<'a>, XdrFault>
    ensures { Reads (λ p. p) r.old result r.new (page_at dir_row_at r.old) }
{
    r.holds_bytes();
    let start = r.again();
    let mut at = r.again();
    while at.flag()? {
        read_dir_entry(&mut at)?;
    }
    *r = at;
    Ok(DirPage { rest: start })
}

/// The entries of a page with names of their own, in the order of the page.
#[derive(Debug, Drop)]
pub struct DirRows {
    rows: Vec<DirRow>,
}

impl Model for DirRows {
    ghost use Rattle.std.specs.Prelude.{List};
    ghost use Rattle.nfs_dir_calls.specs.declared.dir_page.DirRow.{DirRow};

    ghost Value = { List DirRow };

    ghost view = { λ r. r.rows.items };
}

impl DirRows {
    /// Holds these rows, and takes no memory.
    pub fn of(rows: Vec<DirRow>) -> DirRows
        ensures { result ≡ rows.items }
    {
        DirRows { rows }
    }

    /// The rows.
    pub fn rows(&self) -> &[DirRow]
        ensures { result.now ≡ self.now }
    {
        self.rows.as_slice()
    }
}
