//! Objects and the write verifier of a trace at a moment.

ghost use Rattle.std.specs.Prelude.{◌≡◌, ◌≤◌, ◌<◌, length};
ghost use Rattle.std.specs.Option.{option_map};
ghost use Rattle.trace_data.specs.Histories.{named, objects_after, object_at, verf_at};

use crate::trace::{Object, Update, Updated};
use nfs_types::{Handle, Verf};

/// The object that an update names under the handle.
pub fn named<'a>(objects: &'a [Updated], handle: &Handle) -> Option<&'a Object>
    ensures { option_map (λ o. o.now) result ≡ named objects.entry.now handle.now }
{
    for updated in objects {
        if updated.handle == *handle {
            return Some(&updated.object);
        }
    }
    None
}

/// The objects that the update of an entry names.
#[tactic(auto, unfolding(crate::specs::Histories::objects_after))]
pub fn objects_after<'a>(updates: &'a [Update], entry: usize) -> &'a [Updated]
    ensures { result.now ≡ objects_after updates.entry.now entry }
{
    match updates.get(entry) {
        Some(update) => update.objects.as_slice(),
        None => &[],
    }
}

/// The object under the handle at a moment.
pub fn object_at<'a>(
    start: &'a [Updated],
    updates: &'a [Update],
    moment: usize,
    handle: &Handle,
) -> Option<&'a Object>
    ensures { option_map (λ o. o.now) result ≡ object_at start.entry.now updates.entry.now moment handle.now }
{
    let mut left = moment;
    while left > 0 {
        left -= 1;
        if let Some(object) = named(objects_after(updates, left), handle) {
            return Some(object);
        }
    }
    named(start, handle)
}

/// The write verifier at a moment.
pub fn verf_at(start: Verf, updates: &[Update], moment: usize) -> Verf
    ensures { result ≡ verf_at start updates.now moment }
{
    let mut left = moment;
    while left > 0 {
        left -= 1;
        if let Some(update) = updates.get(left) {
            return update.verf;
        }
    }
    start
}
