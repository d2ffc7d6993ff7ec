//! What an entry of a trace leaves as it was.

ghost use Rattle.std.specs.Prelude.{◌≡◌, ◌↔◌, ◌<◌, IsTrue, length, suc};
ghost use Rattle.world_model.specs.Steps.{Same};
ghost use Rattle.trace_data.specs.Histories.{verf_at, history_of};
ghost use Rattle.trace_rules.specs.Keeping.{same_attr, same_bool, is_file, is_directory, is_other, same_contents, same_object, keeps, keeps_at, keeps_all, keeps_verf, keeps_server};

use nfs_types::{Attr, Handle, Verf};
use trace_data::{
    Contents, DirEntry, Object, Trace, Update, Updated, named, object_at, objects_after, verf_at,
};

/// Whether the entry at a place, counted from 0, leaves the server as it was.
pub fn changes_nothing(trace: &Trace, entry: usize) -> bool
    ensures { IsTrue result ↔ Same ((history_of trace.now).at entry) ((history_of trace.now).at (suc entry)) }
{
    keeps_server(
        trace.start.verf,
        trace.start.objects.as_slice(),
        trace.updates.as_slice(),
        entry,
    )
}

/// Whether the entry at a place leaves the write verifier and each object as it was.
#[tactic(auto, unfolding(crate::specs::Keeping::keeps_server))]
pub fn keeps_server(verf: Verf, start: &[Updated], updates: &[Update], entry: usize) -> bool
    ensures { result ≡ keeps_server verf start.now updates.now entry }
{
    keeps_verf(verf, updates, entry) && keeps_all(start, updates, entry)
}

/// Whether an entry leaves each object as it was.
#[tactic(auto, using(crate::proofs::Below::all_below_steps), unfolding(crate::specs::Keeping::keeps_all))]
fn keeps_all(start: &[Updated], updates: &[Update], entry: usize) -> bool
    ensures { result ≡ keeps_all start.now updates.now entry }
{
    let objects = objects_after(updates, entry);
    let mut place = 0;
    while place < objects.len() {
        if !keeps_at(start, updates, entry, objects, place) {
            return false;
        }
        place += 1;
    }
    true
}

#[tactic(auto, unfolding(crate::specs::Keeping::keeps_at))]
fn keeps_at(
    start: &[Updated],
    updates: &[Update],
    entry: usize,
    objects: &[Updated],
    place: usize,
) -> bool
    requires { place < length objects.now }
    ensures { result ≡ keeps_at start.now updates.now entry objects.now place }
{
    keeps(start, updates, entry, &objects[place].handle)
}

/// Whether an entry leaves the object under the handle, which its update names, as it was.
#[tactic(auto, unfolding(crate::specs::Keeping::keeps))]
pub fn keeps(start: &[Updated], updates: &[Update], entry: usize, handle: &Handle) -> bool
    ensures { result ≡ keeps start.now updates.now entry handle.now }
{
    let Some(new) = named(objects_after(updates, entry), handle) else {
        return true;
    };
    match object_at(start, updates, entry, handle) {
        Some(old) => same_object(old, new),
        None => false,
    }
}

/// Whether an entry leaves the write verifier as it was.
#[tactic(auto, unfolding(crate::specs::Keeping::keeps_verf))]
pub fn keeps_verf(start: Verf, updates: &[Update], entry: usize) -> bool
    ensures { result ≡ keeps_verf start updates.now entry }
{
    match updates.get(entry) {
        Some(update) => update.verf == verf_at(start, updates, entry),
        None => true,
    }
}

/// Whether two objects are equal.
#[tactic(auto, unfolding(crate::specs::Keeping::same_object))]
pub fn same_object(a: &Object, b: &Object) -> bool
    ensures { result ≡ same_object a.now b.now }
{
    same_attr(&a.attr, &b.attr)
        && same_bool(a.gone, b.gone)
        && same_contents(&a.contents, &b.contents)
}

/// Whether all attributes are equal.
#[tactic(auto, unfolding(crate::specs::Keeping::same_attr))]
pub fn same_attr(a: &Attr, b: &Attr) -> bool
    ensures { result ≡ same_attr a.now b.now }
{
    *a == *b
}

/// Whether both hold or neither.
pub fn same_bool(a: bool, b: bool) -> bool
    ensures { result ≡ same_bool a b }
{
    a == b
}

/// Whether two objects hold the same.
pub fn same_contents(old: &Contents, new: &Contents) -> bool
    ensures { result ≡ same_contents old.now new.now }
{
    match old {
        Contents::File { now, stable } => is_file(now.bytes(), stable.bytes(), new),
        Contents::Directory { entries } => is_directory(entries.as_slice(), new),
        Contents::Other { text } => is_other(text.bytes(), new),
    }
}

/// Whether it is a file of these bytes and these stable ones.
pub fn is_file(now: &[u8], stable: &[u8], contents: &Contents) -> bool
    ensures { result ≡ is_file now.now stable.now contents.now }
{
    match contents {
        Contents::File {
            now: later,
            stable: steady,
        } => now == later.bytes() && stable == steady.bytes(),
        _ => false,
    }
}

/// Whether it is a directory of these entries.
#[tactic(auto, unfolding(crate::specs::Freshness::same_entries))]
fn is_directory(before: &[DirEntry], contents: &Contents) -> bool
    ensures { result ≡ is_directory before.now contents.now }
{
    match contents {
        Contents::Directory { entries } => before == entries.as_slice(),
        _ => false,
    }
}

/// Whether it is another object of this text.
pub fn is_other(text: &[u8], contents: &Contents) -> bool
    ensures { result ≡ is_other text.now contents.now }
{
    match contents {
        Contents::Other { text: later } => text == later.bytes(),
        _ => false,
    }
}
