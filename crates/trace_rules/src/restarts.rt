//! Restarts of the server.

ghost use Rattle.std.specs.Prelude.{◌≡◌, ◌↔◌, ◌≤◌, ◌<◌, ◌+◌, IsTrue, length, suc};
ghost use Rattle.world_model.specs.Lawful.{Restarts};
ghost use Rattle.trace_data.specs.Histories.{objects_after, verf_at, server_at, history_of};
ghost use Rattle.trace_rules.specs.Restarting.{same_verf, new_verf, loses, is_lost, left_under, left_at, left_all, is_steady, steady_under, steady_at, steady_all, steady_updates, steady, restarts};

use crate::keeping::{is_file, same_bool, same_object};
use nfs_types::{Handle, Verf};
use trace_data::{
    Contents, Object, Trace, Update, Updated, named, object_at, objects_after, verf_at,
};

/// Whether the server restarts at the entry at a place, counted from 0: it has this write verifier, which it never had,
/// and its files hold their stable bytes (RFC 1813, section 4.8).
pub fn is_restart(trace: &Trace, entry: usize, verf: Verf) -> bool
    requires { entry < length trace.now.entries.items }
    ensures { IsTrue result ↔ Restarts (history_of trace.now) entry (server_at trace.now entry) (server_at trace.now (suc entry)) verf }
{
    restarts(
        trace.start.verf,
        trace.start.objects.as_slice(),
        trace.updates.as_slice(),
        entry,
        verf,
    )
}

#[tactic(auto, unfolding(crate::specs::Restarting::restarts))]
fn restarts(first: Verf, start: &[Updated], updates: &[Update], entry: usize, verf: Verf) -> bool
    requires { entry + 1 < 18446744073709551616 }
    ensures { result ≡ restarts first start.now updates.now entry verf }
{
    let after = entry + 1;
    same_verf(verf_at(first, updates, after), verf)
        && new_verf(first, updates, after, verf)
        && left_all(start, updates, entry)
        && steady(start, updates, after)
}

/// Whether all bytes of each object at a moment are stable.
#[tactic(auto, unfolding(crate::specs::Restarting::steady))]
fn steady(start: &[Updated], updates: &[Update], moment: usize) -> bool
    ensures { result ≡ steady start.now updates.now moment }
{
    steady_all(start, updates, moment, start) && steady_updates(start, updates, moment)
}

/// Whether two write verifiers are equal.
pub fn same_verf(a: Verf, b: Verf) -> bool
    ensures { result ≡ same_verf a b }
{
    a == b
}

/// Whether no moment before this one has the verifier.
#[tactic(auto, using(crate::proofs::Below::all_below_steps), unfolding(crate::specs::Restarting::new_verf))]
fn new_verf(first: Verf, updates: &[Update], count: usize, verf: Verf) -> bool
    ensures { result ≡ new_verf first updates.now count verf }
{
    let mut moment = 0;
    while moment < count {
        if same_verf(verf_at(first, updates, moment), verf) {
            return false;
        }
        moment += 1;
    }
    true
}

/// Whether each object is left as a restart leaves it.
#[tactic(auto, using(crate::proofs::Below::all_below_steps), unfolding(crate::specs::Restarting::left_all))]
fn left_all(start: &[Updated], updates: &[Update], entry: usize) -> bool
    ensures { result ≡ left_all start.now updates.now entry }
{
    let objects = objects_after(updates, entry);
    let mut place = 0;
    while place < objects.len() {
        if !left_at(start, updates, entry, objects, place) {
            return false;
        }
        place += 1;
    }
    true
}

#[tactic(auto, unfolding(crate::specs::Restarting::left_at))]
fn left_at(
    start: &[Updated],
    updates: &[Update],
    entry: usize,
    objects: &[Updated],
    place: usize,
) -> bool
    requires { place < length objects.now }
    ensures { result ≡ left_at start.now updates.now entry objects.now place }
{
    left_under(start, updates, entry, &objects[place].handle)
}

/// Whether the object under the handle, if it is named, is left as a restart leaves it.
#[tactic(auto, unfolding(crate::specs::Restarting::left_under))]
fn left_under(start: &[Updated], updates: &[Update], entry: usize, handle: &Handle) -> bool
    ensures { result ≡ left_under start.now updates.now entry handle.now }
{
    let Some(new) = named(objects_after(updates, entry), handle) else {
        return true;
    };
    match object_at(start, updates, entry, handle) {
        Some(old) => same_object(old, new) || is_lost(old, new),
        None => false,
    }
}

/// Whether a file lost bytes that weren't stable.
#[tactic(auto, unfolding(crate::specs::Restarting::is_lost))]
fn is_lost(old: &Object, new: &Object) -> bool
    ensures { result ≡ is_lost old.now new.now }
{
    loses(&old.contents, &new.contents)
        && same_bool(new.gone, old.gone)
        && new.attr.kind == old.attr.kind
        && new.attr.fileid == old.attr.fileid
}

fn loses(old: &Contents, new: &Contents) -> bool
    ensures { result ≡ loses old.now new.now }
{
    match old {
        Contents::File { now, stable } => {
            now.bytes() != stable.bytes() && is_file(stable.bytes(), stable.bytes(), new)
        }
        _ => false,
    }
}

/// Whether all bytes are stable.
fn is_steady(contents: &Contents) -> bool
    ensures { result ≡ is_steady contents.now }
{
    match contents {
        Contents::File { now, stable } => now.bytes() == stable.bytes(),
        _ => true,
    }
}

/// Whether all bytes of the object at a moment are stable.
#[tactic(auto, unfolding(crate::specs::Restarting::steady_under))]
fn steady_under(start: &[Updated], updates: &[Update], moment: usize, handle: &Handle) -> bool
    ensures { result ≡ steady_under start.now updates.now moment handle.now }
{
    match object_at(start, updates, moment, handle) {
        Some(object) => is_steady(&object.contents),
        None => true,
    }
}

#[tactic(auto, unfolding(crate::specs::Restarting::steady_at))]
fn steady_at(
    start: &[Updated],
    updates: &[Update],
    moment: usize,
    objects: &[Updated],
    place: usize,
) -> bool
    requires { place < length objects.now }
    ensures { result ≡ steady_at start.now updates.now moment objects.now place }
{
    let updated = &objects[place];
    is_steady(&updated.object.contents) || steady_under(start, updates, moment, &updated.handle)
}

/// Whether all bytes of each of these objects, if it is there at the moment, are stable.
#[tactic(auto, using(crate::proofs::Below::all_below_steps), unfolding(crate::specs::Restarting::steady_all))]
fn steady_all(start: &[Updated], updates: &[Update], moment: usize, objects: &[Updated]) -> bool
    ensures { result ≡ steady_all start.now updates.now moment objects.now }
{
    let mut place = 0;
    while place < objects.len() {
        if !steady_at(start, updates, moment, objects, place) {
            return false;
        }
        place += 1;
    }
    true
}

/// The same of each object that was updated before the moment.
#[tactic(auto, using(crate::proofs::Below::all_below_steps), unfolding(crate::specs::Restarting::steady_updates))]
fn steady_updates(start: &[Updated], updates: &[Update], moment: usize) -> bool
    ensures { result ≡ steady_updates start.now updates.now moment }
{
    let mut entry = 0;
    while entry < moment {
        if !steady_all(start, updates, moment, objects_after(updates, entry)) {
            return false;
        }
        entry += 1;
    }
    true
}
