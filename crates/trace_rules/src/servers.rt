//! Whether what a trace tells of the server can be a server.

ghost use Rattle.std.specs.Prelude.{◌≡◌, ◌↔◌, ◌≤◌, ◌<◌, ℕ, IsTrue, length};
ghost use Rattle.world_model.specs.Server.{IsServer};
ghost use Rattle.trace_data.specs.Histories.{objects_after, history_of};
ghost use Rattle.trace_rules.specs.Soundness.{have_cookies, is_sound, sound_under, sound_at, sound_all, sound_updates, sound_server};

use nfs_types::Handle;
use trace_data::{Contents, DirEntry, Object, Trace, Update, Updated, named, objects_after};

/// Whether each moment is a server: a file has the size of its bytes, and no more of them are stable; a directory has
/// cookies of 1 or more.
pub fn are_servers(trace: &Trace) -> bool
    ensures { IsTrue result ↔ ((n : ℕ) → n ≤ length trace.now.entries.items → IsServer ((history_of trace.now).at n)) }
{
    sound_server(
        trace.start.objects.as_slice(),
        trace.updates.as_slice(),
        trace.entries.len(),
    )
}

#[tactic(auto, unfolding(crate::specs::Soundness::sound_server))]
fn sound_server(start: &[Updated], updates: &[Update], count: usize) -> bool
    ensures { result ≡ sound_server start.now updates.now count }
{
    sound_all(start) && sound_updates(updates, count)
}

#[tactic(auto, using(crate::proofs::Below::all_below_steps), unfolding(crate::specs::Soundness::sound_updates))]
fn sound_updates(updates: &[Update], count: usize) -> bool
    ensures { result ≡ sound_updates updates.now count }
{
    let mut entry = 0;
    while entry < count {
        if !sound_all(objects_after(updates, entry)) {
            return false;
        }
        entry += 1;
    }
    true
}

/// Whether each object that is named is sound: a file has the size of its bytes, and no more of them are stable; a
/// directory has cookies of 1 or more.
#[tactic(auto, using(crate::proofs::Below::all_below_steps), unfolding(crate::specs::Soundness::sound_all))]
pub fn sound_all(objects: &[Updated]) -> bool
    ensures { result ≡ sound_all objects.now }
{
    let mut place = 0;
    while place < objects.len() {
        if !sound_at(objects, place) {
            return false;
        }
        place += 1;
    }
    true
}

#[tactic(auto, unfolding(crate::specs::Soundness::sound_at))]
fn sound_at(objects: &[Updated], place: usize) -> bool
    requires { place < length objects.now }
    ensures { result ≡ sound_at objects.now place }
{
    sound_under(objects, &objects[place].handle)
}

/// Whether the object under the handle, if it is named, is sound.
#[tactic(auto, unfolding(crate::specs::Soundness::sound_under))]
fn sound_under(objects: &[Updated], handle: &Handle) -> bool
    ensures { result ≡ sound_under objects.now handle.now }
{
    match named(objects, handle) {
        Some(object) => is_sound(object),
        None => true,
    }
}

/// Whether an object has the kind and the size of what it holds.
#[tactic(auto, unfolding(crate::specs::Soundness::is_sound))]
fn is_sound(object: &Object) -> bool
    ensures { result ≡ is_sound object.now }
{
    let kind = object.attr.kind;
    match &object.contents {
        Contents::File { now, stable } => {
            kind == 1
                && object.attr.size == now.bytes().len() as u64
                && stable.bytes().len() <= now.bytes().len()
        }
        Contents::Directory { entries } => kind == 2 && have_cookies(entries.as_slice()),
        Contents::Other { .. } => kind != 1 && kind != 2,
    }
}

/// Whether each cookie is 1 or more.
fn have_cookies(entries: &[DirEntry]) -> bool
    ensures { result ≡ have_cookies entries.now }
{
    for entry in entries {
        if entry.cookie == 0 {
            return false;
        }
    }
    true
}
