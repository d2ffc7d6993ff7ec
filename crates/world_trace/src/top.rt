//! The top call.

ghost use Rattle.std.specs.Prelude.{◌≡◌, IfOk, length, map};
ghost use Rattle.world_link.specs.Replay.{part_at, stepped};
ghost use Rattle.world_link.specs.View.{entry_in};
ghost use Rattle.world_trace.specs.Mirrored.{Mirrors};
ghost use Rattle.world_trace.specs.Traced.{Follows, IsTraceOf, Leads, SaysOfClient, told_by};

use crate::changes::{changed_if, changed_objects};
use crate::stepping::{part_at, step};
use export_fs::Export;
use nfs_types::Handle;
use std::alloc::Global;
use trace_data::{Object, Trace, Update};
use world_link::{Broken, PartialWrite, Told, WorldLog};
use world_model::Entry;
use xdr_codec::Memory;

/// The history of a world that is done with, with the server at each of its moments. Beside it stands what is known of
/// the client: the root, the greatest lifetime of cached attributes in milliseconds, and the modes `noac` and `nocto`.
/// Memory means out of memory, or a restart in the log that the export can't make; a world's log has none.
///
/// Each entry is done once at the export of the start. After an entry that may change it, each object is compared with
/// what was told of it last. It is told anew if it is another one.
pub fn trace_of(
    alloc: Global,
    log: WorldLog,
    root: Option<Handle>,
    lives: u64,
    noac: bool,
    nocto: bool,
) -> Result<Trace, Memory>
    ensures history { IfOk result (IsTraceOf (told_by log)) }
    ensures client { IfOk result (SaysOfClient root lives noac nocto) }
{
    let mut export = log.start;
    let mut shown = Vec::new(alloc);
    let start = Update {
        verf: export.verifier(),
        objects: changed_objects(alloc, &export, &mut shown)?,
    };
    let updates = all_updates(
        alloc,
        &mut export,
        &mut shown,
        log.told.as_slice(),
        log.partials.as_slice(),
    )?;
    Ok(Trace {
        root,
        lives,
        noac,
        nocto,
        start,
        entries: entries_of(alloc, log.told)?,
        updates,
    })
}

/// What each entry changes of the export.
fn all_updates(
    alloc: Global,
    export: &mut Export,
    shown: &mut Vec<Object>,
    told: &[Told],
    partials: &[Broken],
) -> Result<Vec<Update>, Memory>
    ensures { IfOk result (λ updates. Mirrors export.old.nodes shown.old.items
        → Follows (part_at partials.now) export.old (map entry_in told.now) updates.items (length told.now)) }
{
    let mut updates = Vec::new(alloc);
    let mut place = 0;
    while place < told.len() {
        let part = part_at(partials, place);
        let one = &told[place];
        let next = next_update(alloc, export, shown, part, &one.entry)?;
        updates.push(next)?;
        place += 1;
    }
    Ok(updates)
}

/// Takes the export over an entry, and gives what changes.
fn next_update(
    alloc: Global,
    export: &mut Export,
    shown: &mut Vec<Object>,
    part: Option<PartialWrite>,
    entry: &Entry,
) -> Result<Update, Memory>
    ensures { IfOk result (λ update. Mirrors export.old.nodes shown.old.items
        → Leads export.old (stepped part export.old entry.now) export.new shown.new.items update) }
{
    let moved = step(alloc, export, part, entry)?;
    let objects = changed_if(moved, alloc, export, shown)?;
    Ok(Update {
        verf: export.verifier(),
        objects,
    })
}

/// The entries without their ends.
fn entries_of(alloc: Global, told: Vec<Told>) -> Result<Vec<Entry>, Memory>
    ensures { IfOk result (λ entries. entries.items ≡ map entry_in told.items) }
{
    let mut entries = Vec::new(alloc);
    for one in told {
        entries.push(one.entry)?;
    }
    Ok(entries)
}
