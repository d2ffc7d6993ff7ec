//! The names of a directory of an export, as a trace lists them.

ghost use Rattle.std.specs.Prelude.{◌≡◌, true, IfOk, map, slice_get};
ghost use Rattle.export_fs.specs.Seen.{entry_of};
ghost use Rattle.export_fs.specs.Parts.{rows_in};
ghost use Rattle.trace_data.specs.Histories.{listed_of};
ghost use Rattle.world_trace.specs.Mirrored.{IsNext};

use export_fs::{Export, Row, handle_of};
use std::alloc::Global;
use trace_data::DirEntry;
use xdr_codec::Memory;

/// The entries of the directory at a place, in order of their cookies; none of another object.
pub(crate) fn entries_made(
    alloc: Global,
    export: &Export,
    place: u32,
) -> Result<Vec<DirEntry>, Memory>
    ensures { IfOk result (λ entries. map listed_of entries.items ≡ map entry_of (rows_in (slice_get export.now.nodes place))) }
{
    export.is_kept();
    let mut entries = Vec::new(alloc);
    let mut cookie = 0;
    while let Some(row) = export.row_made(place, cookie) {
        entries.push(dir_entry(&row))?;
        cookie = row.cookie;
    }
    Ok(entries)
}

/// An entry of a directory as a trace has it.
fn dir_entry(row: &Row) -> DirEntry
    ensures { listed_of result ≡ entry_of row.now }
{
    DirEntry {
        name: row.name,
        object: handle_of(row.place),
        cookie: row.cookie,
    }
}

/// Whether the directory at a place has these entries and no other. Of another object it says whether there are none.
pub(crate) fn lists(export: &Export, place: u32, entries: &[DirEntry]) -> bool
    ensures { result ≡ true → map listed_of entries.now ≡ map entry_of (rows_in (slice_get export.now.nodes place)) }
{
    export.is_kept();
    let mut cookie = 0;
    for entry in entries {
        if !is_next(export, place, cookie, entry) {
            return false;
        }
        cookie = entry.cookie;
    }
    export.row_made(place, cookie).is_none()
}

/// Whether the entry is the first one after a cookie of the directory at a place.
fn is_next(export: &Export, place: u32, cookie: u64, entry: &DirEntry) -> bool
    ensures { result ≡ true → IsNext entry.now cookie (rows_in (slice_get export.now.nodes place)) }
{
    match export.row_made(place, cookie) {
        Some(row) => is_same(&dir_entry(&row), entry),
        None => false,
    }
}

/// Whether two entries are equal.
fn is_same(a: &DirEntry, b: &DirEntry) -> bool
    ensures { result ≡ true → a.now ≡ b.now }
{
    *a == *b
}
