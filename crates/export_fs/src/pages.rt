//! Pages of READDIRPLUS (RFC 1813, section 3.3.17).

ghost use Rattle.std.specs.Prelude.{◌≡◌, ◌==◌, ◌∷◌, [], length, MatchOption, IfOk};
ghost use Rattle.export_fs.specs.Parts.{object, rows_in};
ghost use Rattle.export_fs.specs.Pages.{rows_after, listed, spelled_size, page_of};

use crate::nodes::Nodes;
use crate::places::handle_of;
use crate::row::Row;
use nfs_dir_calls::{PlusEntry, PlusRow, PlusRows, write_plus_entry};
use nfs_types::Handle;
use std::alloc::Global;
use xdr_codec::{Memory, Writer};

/// The bytes of an entry's spelling, with the word 1 before it.
fn spelled_size(alloc: Global, row: &PlusRow) -> Result<usize, Memory>
    ensures { IfOk result (λ size. size ≡ spelled_size row.now) }
{
    let mut spelling = Writer::new(alloc);
    let entry = PlusEntry {
        fileid: row.fileid,
        name: row.name.bytes(),
        cookie: row.cookie,
        attr: row.attr,
        found: row.found,
    };
    write_plus_entry(&mut spelling, &entry)?;
    Ok(spelling.finish().bytes().len())
}

impl Nodes {
    /// The next entry of a directory after a cookie.
    fn next(&self, dir: &Handle, cookie: u64) -> Option<Row>
        ensures { MatchOption result (rows_after cookie (rows_in (object self.now dir.now)) ≡ []) (λ row. rows_after cookie (rows_in (object self.now dir.now)) ≡ row ∷ rows_after row.cookie (rows_in (object self.now dir.now))) }
    {
        match self.object(dir) {
            Some(node) => node.holds.next(cookie),
            None => None,
        }
    }

    /// An entry with the attributes and the file handle of its object.
    fn listed(&self, row: &Row) -> PlusRow
        ensures { result ≡ listed self.now row.now }
    {
        PlusRow {
            fileid: row.place as u64 + 1,
            name: row.name,
            cookie: row.cookie,
            attr: self.attr_at(Some(row.place)),
            found: Some(handle_of(row.place)),
        }
    }

    /// The entries of a directory after a cookie that fit so many bytes, one at least, and whether no more follow.
    pub(crate) fn page(
        &self,
        alloc: Global,
        dir: &Handle,
        cookie: u64,
        limit: usize,
    ) -> Result<(PlusRows, bool), Memory>
        ensures rows { IfOk result (λ p. p.0 ≡ page_of self.now limit (rows_after cookie (rows_in (object self.now dir.now)))) }
        ensures end_ { IfOk result (λ p. p.1 ≡ (length (page_of self.now limit (rows_after cookie (rows_in (object self.now dir.now)))) == length (rows_after cookie (rows_in (object self.now dir.now))))) }
    {
        let mut rows = Vec::new(alloc);
        let Some(first) = self.next(dir, cookie) else {
            return Ok((PlusRows::of(rows), true));
        };
        let row = self.listed(&first);
        let mut used = spelled_size(alloc, &row)?;
        rows.push(row)?;
        let mut at = first.cookie;
        while let Some(next) = self.next(dir, at) {
            let row = self.listed(&next);
            let size = spelled_size(alloc, &row)?;
            if used > limit || size > limit - used {
                return Ok((PlusRows::of(rows), false));
            }
            rows.push(row)?;
            used += size;
            at = next.cookie;
        }
        Ok((PlusRows::of(rows), true))
    }
}
