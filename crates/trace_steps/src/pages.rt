//! Listings of directories (RFC 1813, sections 3.3.16 and 3.3.17).

ghost use Rattle.std.specs.Prelude.{◌≡◌};
ghost use Rattle.trace_steps.specs.TurnTests.{turns};
ghost use Rattle.trace_steps.specs.ListTests.{has_row};
ghost use Rattle.trace_steps.specs.PageTests.{all_rows, is_plus_of, has_plus, all_plus, lists_so, lists_names, lists_objects};

use crate::moments::{after, before, only};
use crate::name_service::shows_handle;
use crate::turning::{shows_attr, stays};
use nfs_dir_calls::{DirRow, PlusRow};
use nfs_types::{Attr, Handle, Name};
use trace_data::{Contents, DirEntry, Trace};
use trace_rules::same_contents;

/// Whether the list has the name with the cookie.
#[tactic(auto, unfolding(crate::specs::ListTests::has_row))]
fn has_row(name: &Name, cookie: u64, entries: &[DirEntry]) -> bool
    ensures { result ≡ has_row name.now cookie entries.now }
{
    for entry in entries {
        if entry.name == *name && entry.cookie == cookie {
            return true;
        }
    }
    false
}

/// Whether each row is of an entry.
#[tactic(auto, unfolding(crate::specs::PageTests::all_rows))]
fn all_rows(entries: &[DirEntry], rows: &[DirRow]) -> bool
    ensures { result ≡ all_rows entries.now rows.now }
{
    for row in rows {
        if !has_row(&row.name, row.cookie, entries) {
            return false;
        }
    }
    true
}

/// Whether an entry is what a row of READDIRPLUS shows.
#[tactic(auto, unfolding(crate::specs::PageTests::is_plus_of))]
fn is_plus_of(trace: &Trace, entry: usize, row: &PlusRow, listed: &DirEntry) -> bool
    ensures { result ≡ is_plus_of trace.now entry row.now listed.now }
{
    listed.name == row.name
        && listed.cookie == row.cookie
        && shows_handle(&row.found, &listed.object)
        && shows_attr(trace, entry, &listed.object, &row.attr)
}

#[tactic(auto, unfolding(crate::specs::PageTests::has_plus))]
fn has_plus(trace: &Trace, entry: usize, row: &PlusRow, entries: &[DirEntry]) -> bool
    ensures { result ≡ has_plus trace.now entry row.now entries.now }
{
    for listed in entries {
        if is_plus_of(trace, entry, row, listed) {
            return true;
        }
    }
    false
}

/// Whether each row of READDIRPLUS is of an entry.
#[tactic(auto, unfolding(crate::specs::PageTests::all_plus))]
fn all_plus(trace: &Trace, entry: usize, entries: &[DirEntry], rows: &[PlusRow]) -> bool
    ensures { result ≡ all_plus trace.now entry entries.now rows.now }
{
    for row in rows {
        if !has_plus(trace, entry, row, entries) {
            return false;
        }
    }
    true
}

fn names_in(rows: &[DirRow], old: &Contents, new: &Contents) -> bool
    ensures { result ≡ lists_so (λ es. all_rows es rows.now) old.now new.now }
{
    match old {
        Contents::Directory { entries } => {
            all_rows(entries.as_slice(), rows) && same_contents(old, new)
        }
        _ => false,
    }
}

fn objects_in(trace: &Trace, entry: usize, rows: &[PlusRow], old: &Contents, new: &Contents) -> bool
    ensures { result ≡ lists_so (λ es. all_plus trace.now entry es rows.now) old.now new.now }
{
    match old {
        Contents::Directory { entries } => {
            all_plus(trace, entry, entries.as_slice(), rows) && same_contents(old, new)
        }
        _ => false,
    }
}

#[tactic(auto, unfolding(crate::specs::TurnTests::turns))]
fn gives_names(trace: &Trace, entry: usize, dir: &Handle, rows: &[DirRow]) -> bool
    ensures { result ≡ turns (lists_so (λ es. all_rows es rows.now)) trace.now entry dir.now }
{
    let Some(old) = before(trace, entry, dir) else {
        return false;
    };
    match after(trace, entry, dir) {
        Some(new) => stays(old, new) && names_in(rows, &old.contents, &new.contents),
        None => false,
    }
}

#[tactic(auto, unfolding(crate::specs::TurnTests::turns))]
fn gives_objects(trace: &Trace, entry: usize, dir: &Handle, rows: &[PlusRow]) -> bool
    ensures { result ≡ turns (lists_so (λ es. all_plus trace.now entry es rows.now)) trace.now entry dir.now }
{
    let Some(old) = before(trace, entry, dir) else {
        return false;
    };
    match after(trace, entry, dir) {
        Some(new) => {
            stays(old, new) && objects_in(trace, entry, rows, &old.contents, &new.contents)
        }
        None => false,
    }
}

/// Whether a directory's names are listed: at least one, or the end.
#[tactic(auto, unfolding(crate::specs::PageTests::lists_names))]
pub(crate) fn lists_names(
    trace: &Trace,
    entry: usize,
    dir: &Handle,
    attr: &Option<Attr>,
    rows: &[DirRow],
    eof: bool,
) -> bool
    ensures { result ≡ lists_names trace.now entry dir.now attr.now rows.now eof }
{
    gives_names(trace, entry, dir, rows)
        && only(trace, entry, dir, dir, dir)
        && shows_attr(trace, entry, dir, attr)
        && (1 <= rows.len() || eof)
}

/// The same with the object of each name.
#[tactic(auto, unfolding(crate::specs::PageTests::lists_objects))]
pub(crate) fn lists_objects(
    trace: &Trace,
    entry: usize,
    dir: &Handle,
    attr: &Option<Attr>,
    rows: &[PlusRow],
    eof: bool,
) -> bool
    ensures { result ≡ lists_objects trace.now entry dir.now attr.now rows.now eof }
{
    gives_objects(trace, entry, dir, rows)
        && only(trace, entry, dir, dir, dir)
        && shows_attr(trace, entry, dir, attr)
        && (1 <= rows.len() || eof)
}
