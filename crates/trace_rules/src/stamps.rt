//! Stamps of the objects of a trace.

ghost use Rattle.std.specs.Prelude.{◌≡◌, ◌↔◌, ◌≤◌, ◌<◌, IsTrue, length};
ghost use Rattle.std.specs.Str.{bytes_eq};
ghost use Rattle.nfs_types.specs.Stamps.{stamp_of, same_stamp};
ghost use Rattle.world_model.specs.Fresh.{Fresh};
ghost use Rattle.trace_data.specs.Histories.{objects_after, history_of};
ghost use Rattle.trace_rules.specs.Freshness.{other_bytes, other_list, other_contents, is_stamped, differs, gave_stamp, had_stamp, renews, renews_at, renews_all, fresh};

use nfs_types::{Handle, Stamp};
use trace_data::{
    Contents, DirEntry, Object, Trace, Update, Updated, named, object_at, objects_after,
};

/// Whether each change of an object gives it a stamp that it never had (RFC 1813, section 2.6).
pub fn is_fresh(trace: &Trace) -> bool
    ensures { IsTrue result ↔ Fresh (history_of trace.now) }
{
    fresh(
        trace.start.objects.as_slice(),
        trace.updates.as_slice(),
        trace.entries.len(),
    )
}

#[tactic(auto, using(crate::proofs::Below::all_below_steps), unfolding(crate::specs::Freshness::fresh))]
fn fresh(start: &[Updated], updates: &[Update], count: usize) -> bool
    ensures { result ≡ fresh start.now updates.now count }
{
    let mut entry = 0;
    while entry < count {
        if !renews_all(start, updates, entry) {
            return false;
        }
        entry += 1;
    }
    true
}

/// Whether each object that an entry changes gets a stamp that it never had.
#[tactic(auto, using(crate::proofs::Below::all_below_steps), unfolding(crate::specs::Freshness::renews_all))]
pub(crate) fn renews_all(start: &[Updated], updates: &[Update], entry: usize) -> bool
    ensures { result ≡ renews_all start.now updates.now entry }
{
    let objects = objects_after(updates, entry);
    let mut place = 0;
    while place < objects.len() {
        if !renews_at(start, updates, entry, objects, place) {
            return false;
        }
        place += 1;
    }
    true
}

#[tactic(auto, unfolding(crate::specs::Freshness::renews_at))]
fn renews_at(
    start: &[Updated],
    updates: &[Update],
    entry: usize,
    objects: &[Updated],
    place: usize,
) -> bool
    requires { place < length objects.now }
    ensures { result ≡ renews_at start.now updates.now entry objects.now place }
{
    renews(start, updates, entry, &objects[place].handle)
}

/// Whether the object under a handle, if the entry changes it, gets a stamp that it never had.
#[tactic(auto, unfolding(crate::specs::Freshness::renews))]
fn renews(start: &[Updated], updates: &[Update], entry: usize, handle: &Handle) -> bool
    ensures { result ≡ renews start.now updates.now entry handle.now }
{
    let Some(old) = object_at(start, updates, entry, handle) else {
        return true;
    };
    let Some(new) = named(objects_after(updates, entry), handle) else {
        return true;
    };
    !differs(old, new) || !had_stamp(start, updates, entry, handle, &new.attr.stamp())
}

/// Whether the object under a handle had the stamp at some moment up to this one.
#[tactic(auto, using(crate::proofs::Below::any_below_steps), unfolding(crate::specs::Freshness::had_stamp))]
fn had_stamp(
    start: &[Updated],
    updates: &[Update],
    moment: usize,
    handle: &Handle,
    stamp: &Stamp,
) -> bool
    ensures { result ≡ had_stamp start.now updates.now moment handle.now stamp.now }
{
    if gave_stamp(start, handle, stamp) {
        return true;
    }
    let mut entry = 0;
    while entry < moment {
        if gave_stamp(objects_after(updates, entry), handle, stamp) {
            return true;
        }
        entry += 1;
    }
    false
}

/// Whether an update names the object under the handle with that stamp.
#[tactic(auto, unfolding(crate::specs::Freshness::gave_stamp))]
fn gave_stamp(objects: &[Updated], handle: &Handle, stamp: &Stamp) -> bool
    ensures { result ≡ gave_stamp objects.now handle.now stamp.now }
{
    match named(objects, handle) {
        Some(object) => is_stamp(&object.attr.stamp(), stamp),
        None => false,
    }
}

/// Whether two stamps are equal.
pub fn is_stamp(stamp: &Stamp, wanted: &Stamp) -> bool
    ensures { result ≡ same_stamp stamp.now wanted.now }
{
    *stamp == *wanted
}

/// Whether an object changed so that it needs another stamp.
#[tactic(auto, unfolding(crate::specs::Freshness::differs))]
fn differs(old: &Object, new: &Object) -> bool
    ensures { result ≡ differs old.now new.now }
{
    other_contents(&old.contents, &new.contents)
        || is_stamped(&old.contents) && !is_stamp(&old.attr.stamp(), &new.attr.stamp())
}

/// Whether a file has other bytes, or a directory another list.
fn other_contents(old: &Contents, new: &Contents) -> bool
    ensures { result ≡ other_contents old.now new.now }
{
    match old {
        Contents::File { now, .. } => other_bytes(now.bytes(), new),
        Contents::Directory { entries } => other_list(entries.as_slice(), new),
        Contents::Other { .. } => false,
    }
}

/// Whether these are a file's bytes, and others than those.
fn other_bytes(now: &[u8], new: &Contents) -> bool
    ensures { result ≡ other_bytes now.now new.now }
{
    match new {
        Contents::File { now: later, .. } => now != later.bytes(),
        _ => false,
    }
}

/// Whether these are a directory's entries, and others than those.
#[tactic(auto, unfolding(crate::specs::Freshness::same_entries))]
fn other_list(before: &[DirEntry], new: &Contents) -> bool
    ensures { result ≡ other_list before.now new.now }
{
    match new {
        Contents::Directory { entries } => before != entries.as_slice(),
        _ => false,
    }
}

/// Whether it is a file or a directory.
fn is_stamped(contents: &Contents) -> bool
    ensures { result ≡ is_stamped contents.now }
{
    match contents {
        Contents::Other { .. } => false,
        _ => true,
    }
}
