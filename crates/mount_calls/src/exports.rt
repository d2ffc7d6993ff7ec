//! The exports of a server.

ghost use Rattle.std.specs.Prelude.{◌≡◌, ◌++◌, ◌≤◌, length, OnOk, OnErr};
ghost use Rattle.xdr_codec.specs.Spelling.{BeginsWith};
ghost use Rattle.mount_calls.specs.Lists.{ReadsOwned};
ghost use Rattle.mount_calls.specs.Exports.{groups_at, row_at, exports_at, groups_bytes, row_bytes, next_row_bytes, next_name_bytes, exports_bytes, AreGroups, IsRow, AreExports, SpellsExports};

use crate::keep::keep;
use crate::text::{NAME_MAX, PATH_MAX, read_text};
use std::alloc::Global;
use std::marker::Model;
use xdr_codec::{Blob, CodecFault, Memory, Reader, Writer};

/// The names of the groups that may mount an export (RFC 1813, section 5.2.5, groups), in order.
#[derive(Debug, Drop)]
pub struct Groups {
    names: Vec<Blob>,
}

impl Model for Groups {
    ghost use Rattle.std.specs.Prelude.{List, ℕ};

    ghost Value = { List (List ℕ) };

    ghost view = { λ g. g.names.items };
}

impl Groups {
    /// Holds these names, and takes no memory.
    pub fn of(names: Vec<Blob>) -> Groups
        ensures { result ≡ names.items }
    {
        Groups { names }
    }

    /// The names.
    pub fn names(&self) -> &[Blob]
        ensures { result.now ≡ self.now }
    {
        self.names.as_slice()
    }
}

/// A directory that may be mounted, and by whom (RFC 1813, section 5.2.5, exportnode).
#[derive(Debug, Drop)]
pub struct ExportRow {
    /// The directory, at most 1,024 bytes.
    pub path: Blob,
    /// The groups that may mount it, each of at most 255 bytes.
    pub groups: Groups,
}

/// The directories that may be mounted (RFC 1813, section 5.2.5, exports), in order.
#[derive(Debug, Drop)]
pub struct ExportList {
    rows: Vec<ExportRow>,
}

impl Model for ExportList {
    ghost use Rattle.std.specs.Prelude.{List};
    ghost use Rattle.mount_calls.specs.declared.exports.ExportRow.{ExportRow};

    ghost Value = { List ExportRow };

    ghost view = { λ l. l.rows.items };
}

impl ExportList {
    /// Holds these rows, and takes no memory.
    pub fn of(rows: Vec<ExportRow>) -> ExportList
        ensures { result ≡ rows.items }
    {
        ExportList { rows }
    }

    /// The rows.
    pub fn rows(&self) -> &[ExportRow]
        ensures { result.now ≡ self.now }
    {
        self.rows.as_slice()
    }
}

/// Reads the list of exports.
#[tactic(auto, unfolding(crate::specs::Exports::exports_at))]
pub fn read_exports(alloc: Global, r: &mut Reader<'_>) -> Result<ExportList, CodecFault>
    ensures { ReadsOwned result r.new (exports_at r.old) }
{
    r.holds_bytes();
    let mut rows = Vec::new(alloc);
    'rows: while r.flag()? {
        keep(&mut rows, read_row(alloc, r)?)?;
    }
    Ok(ExportList { rows })
}

#[tactic(auto, unfolding(crate::specs::Exports::row_at))]
fn read_row(alloc: Global, r: &mut Reader<'_>) -> Result<ExportRow, CodecFault>
    ensures { ReadsOwned result r.new (row_at r.old) }
{
    let path = read_text(alloc, r, PATH_MAX)?;
    let groups = read_groups(alloc, r)?;
    Ok(ExportRow { path, groups })
}

#[tactic(auto, unfolding(crate::specs::Exports::groups_at))]
fn read_groups(alloc: Global, r: &mut Reader<'_>) -> Result<Groups, CodecFault>
    ensures { ReadsOwned result r.new (groups_at r.old) }
{
    r.holds_bytes();
    let mut names = Vec::new(alloc);
    'names: while r.flag()? {
        keep(&mut names, read_text(alloc, r, NAME_MAX)?)?;
    }
    Ok(Groups { names })
}

/// Writes the list of exports. When out of memory the writer begins with what it held.
#[tactic(auto, using(xdr_codec::proofs::Begins::begins_then, std::proofs::Common::append_assoc), unfolding(crate::specs::Exports::exports_bytes))]
pub fn write_exports(w: &mut Writer, list: &ExportList) -> Result<(), Memory>
    requires { AreExports list.now }
    ensures ok { OnOk result (w.new ≡ w.old ++ exports_bytes list.now) }
    ensures err { OnErr result (BeginsWith w.old w.new) }
    ensures spelled { OnOk result (SpellsExports list.now (exports_bytes list.now)) }
{
    let rows = list.rows();
    for row in rows {
        write_next_row(w, row)?;
    }
    w.flag(false)?;
    Ok(())
}

#[tactic(auto, using(xdr_codec::proofs::Begins::begins_a, xdr_codec::proofs::Begins::after_b, xdr_codec::proofs::Begins::grown_c), unfolding(crate::specs::Exports::row_bytes))]
fn write_next_row(w: &mut Writer, row: &ExportRow) -> Result<(), Memory>
    requires { IsRow row.now }
    ensures ok { OnOk result (w.new ≡ w.old ++ next_row_bytes row.now) }
    ensures err { OnErr result (BeginsWith w.old w.new) }
{
    w.flag(true)?;
    w.opaque(row.path.bytes())?;
    write_groups(w, &row.groups)?;
    Ok(())
}

#[tactic(auto, using(xdr_codec::proofs::Begins::begins_then, std::proofs::Common::append_assoc), unfolding(crate::specs::Exports::groups_bytes))]
fn write_groups(w: &mut Writer, groups: &Groups) -> Result<(), Memory>
    requires { AreGroups groups.now }
    ensures ok { OnOk result (w.new ≡ w.old ++ groups_bytes groups.now) }
    ensures err { OnErr result (BeginsWith w.old w.new) }
{
    let names = groups.names();
    for name in names {
        write_next_name(w, name)?;
    }
    w.flag(false)?;
    Ok(())
}

#[tactic(auto, using(xdr_codec::proofs::Begins::begins_then, std::proofs::Common::append_assoc))]
fn write_next_name(w: &mut Writer, name: &Blob) -> Result<(), Memory>
    requires { length name.now ≤ 255 }
    ensures ok { OnOk result (w.new ≡ w.old ++ next_name_bytes name.now) }
    ensures err { OnErr result (BeginsWith w.old w.new) }
{
    w.flag(true)?;
    w.opaque(name.bytes())?;
    Ok(())
}
