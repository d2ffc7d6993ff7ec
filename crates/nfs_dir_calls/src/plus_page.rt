//! Pages of READDIRPLUS: some entries of a directory with their attributes and file handles (RFC 1813, section
//! 3.3.17, dirlistplus3).

ghost use Rattle.std.specs.Prelude.{◌≡◌, ◌∷◌, ◌++◌, [], true, MatchOption, OnOk, OnErr, IfOk};
ghost use Rattle.xdr_codec.specs.Reading.{Reads};
ghost use Rattle.xdr_codec.specs.Spelling.{flag_bytes, BeginsWith};
ghost use Rattle.xdr_codec.specs.Spells.{◌⨾◌, SpellsFlag, SpellsList, Wrote};
ghost use Rattle.xdr_codec.specs.Whole.{Gives, FindsWhole, whole_at};
ghost use Rattle.nfs_types.specs.Names.{IsName};
ghost use Rattle.nfs_dir_calls.specs.Pages.{page_at, page_bytes};
ghost use Rattle.nfs_dir_calls.specs.PlusPages.{plus_row_of, plus_row_at, plus_row_bytes, SpellsPlusRow};

use crate::dir_page::{DirEntry, write_dir_row};
use crate::listed_name::read_listed_name;
use crate::opt_handle::{read_opt_handle, write_opt_handle};
use nfs_types::{Attr, Handle, Name, read_opt_attr, write_opt_attr};
use std::alloc::Global;
use std::fmt;
use std::marker::Model;
use xdr_codec::{Memory, Reader, Writer, XdrFault};

/// An entry of a directory (RFC 1813, section 3.3.17, entryplus3), whose name lies in the record that it was read
/// from.
#[derive(Clone, Copy, Debug)]
pub struct PlusEntry<'a> {
    /// The number of the file in its file system.
    pub fileid: u64,
    /// A name in the directory.
    pub name: &'a [u8],
    /// Where a listing goes on after this entry.
    pub cookie: u64,
    /// The attributes of the file, if the server gives them.
    pub attr: Option<Attr>,
    /// The file handle, if the server gives it.
    pub found: Option<Handle>,
}

/// An entry of a directory with a name of its own.
#[derive(Clone, Copy, Debug, PartialEq, Eq)]
pub struct PlusRow {
    /// The number of the file in its file system.
    pub fileid: u64,
    /// A name in the directory.
    pub name: Name,
    /// Where a listing goes on after this entry.
    pub cookie: u64,
    /// The attributes of the file, if the server gives them.
    pub attr: Option<Attr>,
    /// The file handle, if the server gives it.
    pub found: Option<Handle>,
}

impl PlusEntry<'_> {
    /// The same with a name of its own.
    fn row(&self) -> PlusRow
        requires { IsName self.now.name.now }
        ensures { result ≡ plus_row_of self.now }
    {
        PlusRow {
            fileid: self.fileid,
            name: Name::make(self.name).unwrap(),
            cookie: self.cookie,
            attr: self.attr,
            found: self.found,
        }
    }
}

/// Reads an entry.
#[tactic(auto, unfolding(crate::specs::PlusPages::plus_row_at))]
fn read_plus_entry<'a>(r: &mut Reader<'a>) -> Result<PlusEntry<'a>, XdrFault>
    ensures { Reads plus_row_of r.old result r.new (plus_row_at r.old) }
{
    let mut at = r.again();
    let fileid = at.u64()?;
    let name = read_listed_name(&mut at)?;
    let cookie = at.u64()?;
    let attr = read_opt_attr(&mut at)?;
    let found = read_opt_handle(&mut at)?;
    *r = at;
    Ok(PlusEntry {
        fileid,
        name,
        cookie,
        attr,
        found,
    })
}

/// Appends the word 1 and an entry. The condition is that its name meets the rule of a name.
#[tactic(auto, using(xdr_codec::proofs::Begins::begins_then, std::proofs::Common::append_assoc))]
pub fn write_plus_entry(w: &mut Writer, entry: &PlusEntry<'_>) -> Result<(), Memory>
    requires { IsName entry.now.name.now }
    ensures ok { OnOk result (w.new ≡ w.old ++ (flag_bytes true ++ plus_row_bytes (plus_row_of entry.now))) }
    ensures err { OnErr result (BeginsWith w.old w.new) }
    ensures spelled { OnOk result (Wrote (SpellsFlag true ⨾ SpellsPlusRow (plus_row_of entry.now)) w.old w.new) }
{
    w.flag(true)?;
    write_plus_row(w, entry)?;
    Ok(())
}

/// Appends an entry alone.
#[tactic(auto, using(xdr_codec::proofs::Begins::after_a, xdr_codec::proofs::Begins::after_b, xdr_codec::proofs::Begins::grown_c), unfolding(crate::specs::PlusPages::plus_row_bytes))]
fn write_plus_row(w: &mut Writer, entry: &PlusEntry<'_>) -> Result<(), Memory>
    requires { IsName entry.now.name.now }
    ensures ok { OnOk result (w.new ≡ w.old ++ plus_row_bytes (plus_row_of entry.now)) }
    ensures err { OnErr result (BeginsWith w.old w.new) }
    ensures spelled { OnOk result (Wrote (SpellsPlusRow (plus_row_of entry.now)) w.old w.new) }
{
    let listed = DirEntry {
        fileid: entry.fileid,
        name: entry.name,
        cookie: entry.cookie,
    };
    write_dir_row(w, &listed)?;
    write_opt_attr(w, &entry.attr)?;
    write_opt_handle(w, &entry.found)?;
    Ok(())
}

/// The entries that are left of a page that was read and checked.
#[derive(Drop)]
pub struct PlusPage<'a> {
    rest: Reader<'a>,
}

impl<'a> Model for PlusPage<'a> {
    ghost use Rattle.std.specs.Prelude.{List};
    ghost use Rattle.nfs_dir_calls.specs.declared.plus_page.PlusRow.{PlusRow};
    ghost use Rattle.nfs_dir_calls.specs.PlusPages.{plus_row_at};
    ghost use Rattle.nfs_dir_calls.specs.Pages.{rows_of, IsPage};

    ghost Value = { List PlusRow };

    ghost view = { λ p. rows_of plus_row_at p.rest };

    ghost invariant = { λ p. IsPage plus_row_at p.rest };
}

impl fmt::Debug for PlusPage<'_> {
    fn fmt<W: fmt::Write>(&self, f: &mut fmt::Formatter<W>) -> fmt::Result {
        f.write_str("PlusPage")
    }
}

impl<'a> PlusPage<'a> {
    /// A page of these bytes: entries, each after the word 1, and the word 0 at the end.
    ///
    /// A fault is answered exactly if the bytes aren't one such list: the first one in order of spelling.
    pub fn over(bytes: &'a [u8]) -> Result<PlusPage<'a>, XdrFault>
        ensures exact { Gives (λ p. p) result (whole_at (page_at plus_row_at) bytes.entry.now) }
        ensures spelled { FindsWhole (λ p. p) (SpellsList SpellsPlusRow) bytes.entry.now result }
    {
        Reader::new(bytes).holds_bytes();
        page_of(bytes)
    }

    /// The same entries, from where this page stands, for a caller that has it by reference. No byte is copied.
    pub fn again(&self) -> PlusPage<'a>
        ensures { result ≡ self.now }
    {
        PlusPage {
            rest: self.rest.again(),
        }
    }

    /// The next entry, and None at the end. It takes no memory and can't fail.
    pub fn next(&mut self) -> Option<PlusEntry<'a>>
        ensures { MatchOption result ((self.old ≡ []) × (self.new ≡ [])) (λ e. (self.old ≡ plus_row_of e ∷ self.new) × IsName e.name.now) }
    {
        let mut at = self.rest.again();
        let Ok(more) = at.flag() else {
            return None;
        };
        if !more {
            return None;
        }
        let Ok(entry) = read_plus_entry(&mut at) else {
            return None;
        };
        self.rest = at;
        Some(entry)
    }

    /// A copy of the entries that are left.
    pub(crate) fn rows(&self, alloc: Global) -> Result<PlusRows, Memory>
        ensures { IfOk result (λ rows. rows ≡ self.now) }
    {
        let mut rows = Vec::new(alloc);
        let mut left = self.again();
        while let Some(entry) = left.next() {
            if rows.push(entry.row()).is_err() {
                return Err(Memory);
            }
        }
        Ok(PlusRows::of(rows))
    }

    /// Appends the entries that are left and the word 0.
    pub(crate) fn write(&self, w: &mut Writer) -> Result<(), Memory>
        ensures ok { OnOk result (w.new ≡ w.old ++ page_bytes plus_row_bytes self.now) }
        ensures err { OnErr result (BeginsWith w.old w.new) }
        ensures spelled { OnOk result (Wrote (SpellsList SpellsPlusRow self.now) w.old w.new) }
    {
        let mut left = self.again();
        while let Some(entry) = left.next() {
            write_plus_entry(w, &entry)?;
        }
        w.flag(false)?;
        Ok(())
    }
}

fn page_of<'a>(bytes: &'a [u8]) -> Result<PlusPage<'a>, XdrFault>
    ensures { Gives (λ p. p) result (whole_at (page_at plus_row_at) bytes.entry.now) }
{
    let mut r = Reader::new(bytes);
    let page = read_plus_page(&mut r)?;
    r.end()?;
    Ok(page)
}

/// Reads a page, and checks all its entries.
pub(crate) fn read_plus_page<'a>(r: &mut Reader<'a>) -> Result<PlusPage<'a>, XdrFault>
    ensures { Reads (λ p. p) r.old result r.new (page_at plus_row_at r.old) }
{
    r.holds_bytes();
    let start = r.again();
    let mut at = r.again();
    while at.flag()? {
        match read_plus_entry(&mut at) {
            Ok(_) => {}
            Err(fault) => return Err(fault),
        }
    }
    *r = at;
    Ok(PlusPage { rest: start })
}

/// The entries of a page with names of their own, in the order of the page.
#[derive(Debug, Drop)]
pub struct PlusRows {
    rows: Vec<PlusRow>,
}

impl Model for PlusRows {
    ghost use Rattle.std.specs.Prelude.{List};
    ghost use Rattle.nfs_dir_calls.specs.declared.plus_page.PlusRow.{PlusRow};

    ghost Value = { List PlusRow };

    ghost view = { λ r. r.rows.items };
}

impl PlusRows {
    /// Holds these rows, and takes no memory.
    pub fn of(rows: Vec<PlusRow>) -> PlusRows
        ensures { result ≡ rows.items }
    {
        PlusRows { rows }
    }

    /// The rows.
    pub fn rows(&self) -> &[PlusRow]
        ensures { result.now ≡ self.now }
    {
        self.rows.as_slice()
    }
}
