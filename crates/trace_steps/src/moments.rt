//! An object before and after an entry, and what the entry leaves as it was.

ghost use Rattle.std.specs.Prelude.{◌≡◌, ◌<◌, length};
ghost use Rattle.std.specs.Option.{option_map};
ghost use Rattle.trace_data.specs.Histories.{objects_after};
ghost use Rattle.trace_steps.specs.MomentTests.{before, after, is_same, is_one, spares, spares_at, only};

use nfs_types::Handle;
use trace_data::{Object, Trace, Updated, named, object_at, objects_after};
use trace_rules::{keeps, keeps_server, keeps_verf};

/// The object under the handle before the entry.
#[tactic(auto, unfolding(crate::specs::MomentTests::before))]
pub(crate) fn before<'a>(trace: &'a Trace, entry: usize, handle: &Handle) -> Option<&'a Object>
    ensures { option_map (λ o. o.now) result ≡ before trace.entry.now entry handle.now }
{
    object_at(
        trace.start.objects.as_slice(),
        trace.updates.as_slice(),
        entry,
        handle,
    )
}

/// The object under the handle after the entry.
#[tactic(auto, unfolding(crate::specs::MomentTests::after))]
pub(crate) fn after<'a>(trace: &'a Trace, entry: usize, handle: &Handle) -> Option<&'a Object>
    ensures { option_map (λ o. o.now) result ≡ after trace.entry.now entry handle.now }
{
    if let Some(object) = named(objects_after(trace.updates.as_slice(), entry), handle) {
        return Some(object);
    }
    object_at(
        trace.start.objects.as_slice(),
        trace.updates.as_slice(),
        entry,
        handle,
    )
}

/// Whether the entry leaves the server as it was.
#[tactic(auto, unfolding(crate::specs::MomentTests::is_same))]
pub(crate) fn is_same(trace: &Trace, entry: usize) -> bool
    ensures { result ≡ is_same trace.now entry }
{
    keeps_server(
        trace.start.verf,
        trace.start.objects.as_slice(),
        trace.updates.as_slice(),
        entry,
    )
}

/// Whether the entry leaves the write verifier as it was, and each object but those of three handles.
#[tactic(auto, using(trace_rules::proofs::Below::all_below_steps), unfolding(crate::specs::MomentTests::only))]
pub(crate) fn only(trace: &Trace, entry: usize, a: &Handle, b: &Handle, c: &Handle) -> bool
    ensures { result ≡ only (is_one a.now b.now c.now) trace.now entry }
{
    if !keeps_verf(trace.start.verf, trace.updates.as_slice(), entry) {
        return false;
    }
    let objects = objects_after(trace.updates.as_slice(), entry);
    let mut place = 0;
    while place < objects.len() {
        if !spares_at(trace, entry, a, b, c, objects, place) {
            return false;
        }
        place += 1;
    }
    true
}

#[tactic(auto, unfolding(crate::specs::MomentTests::spares_at))]
fn spares_at(
    trace: &Trace,
    entry: usize,
    a: &Handle,
    b: &Handle,
    c: &Handle,
    objects: &[Updated],
    place: usize,
) -> bool
    requires within { place < length objects.now }
    requires of { objects.now ≡ objects_after trace.now.updates.items entry }
    ensures { result ≡ spares_at (is_one a.now b.now c.now) trace.now entry place }
{
    spares(trace, entry, a, b, c, &objects[place].handle)
}

/// Whether the handle is one of three, or the entry leaves its object as it was.
#[tactic(auto, unfolding(crate::specs::MomentTests::spares))]
fn spares(trace: &Trace, entry: usize, a: &Handle, b: &Handle, c: &Handle, handle: &Handle) -> bool
    ensures { result ≡ spares (is_one a.now b.now c.now) trace.now entry handle.now }
{
    *handle == *a
        || *handle == *b
        || *handle == *c
        || keeps(
            trace.start.objects.as_slice(),
            trace.updates.as_slice(),
            entry,
            handle,
        )
}
