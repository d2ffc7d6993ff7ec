//! Writes a trace.

ghost use Rattle.std.specs.Prelude.{◌≡◌, ◌<◌, Ok, None, All, IfOk, OnOk, length, slice_get, suc};
ghost use Rattle.trace_data.specs.Histories.{verf_at};
ghost use Rattle.trace_text.specs.Pages.{put};
ghost use Rattle.trace_text.specs.Texts.{IsSpelled, changes_text, entry_text_of, head_text, line_if, lives_text, printed, restart_text, root_text, start_text, step_text, steps_text, text_of, verf_text};
ghost use Rattle.world_model.specs.History.{no_server};

use crate::entry_texts::write_entry;
use crate::object_texts::{write_objects, write_verf};
use crate::page::Page;
use nfs_types::{Handle, Verf};
use std::alloc::Global;
use trace_data::{Trace, verf_at};
use world_model::Entry;
use xdr_codec::{Blob, Memory};

/// The most entries of a trace.
const MOST_ENTRIES: usize = 4096;

/// The greatest lifetime that no line says, in milliseconds.
const USUAL_LIFETIME: u64 = 60_000;

/// The text of a trace. It has single spaces, lower-case hex, numbers without leading zeros, and one line for each part
/// that an entry changed. `read` reads it as that history if each mark of the trace has a text (`trace_prints`), but for the
/// attributes of a stat's answer that aren't shown.
///
/// None exactly if the trace has more than 4,096 entries or its text more than 1,048,576 bytes. If bytes can't spell a call or
/// a reply of the trace, nothing is said of what is written of it.
pub fn print(alloc: Global, trace: &Trace) -> Result<Option<Blob>, Memory>
    ensures many { 4096 < length trace.now.entries.items → result ≡ Ok None }
    ensures prints { All IsSpelled trace.now.entries.items → IfOk result (λ text. text ≡ printed trace.now) }
{
    if trace.entries.len() > MOST_ENTRIES {
        return Ok(None);
    }
    let mut page = Page::new(alloc);
    write_all(&mut page, alloc, trace)?;
    Ok(page.finish())
}

/// Writes the whole text.
fn write_all(page: &mut Page, alloc: Global, trace: &Trace) -> Result<(), Memory>
    ensures { All IsSpelled trace.now.entries.items → OnOk result (page.new ≡ put page.old (text_of trace.now)) }
{
    write_head(page, alloc, trace)?;
    write_start(page, alloc, trace)?;
    write_steps(page, alloc, trace)
}

/// Writes how the session was asked for.
fn write_head(page: &mut Page, alloc: Global, trace: &Trace) -> Result<(), Memory>
    ensures { OnOk result (page.new ≡ put page.old (head_text trace.now)) }
{
    write_root(page, alloc, &trace.root)?;
    write_lives(page, trace.lives)?;
    write_if(page, trace.noac, b"noac\n")?;
    write_if(page, trace.nocto, b"nocto\n")
}

fn write_root(page: &mut Page, alloc: Global, root: &Option<Handle>) -> Result<(), Memory>
    ensures { OnOk result (page.new ≡ put page.old (root_text root.now)) }
{
    match root {
        Some(root) => page.bytes_line(alloc, b"root", root.bytes()),
        None => Ok(()),
    }
}

fn write_lives(page: &mut Page, lives: u64) -> Result<(), Memory>
    ensures { OnOk result (page.new ≡ put page.old (lives_text lives)) }
{
    if lives == USUAL_LIFETIME {
        return Ok(());
    }
    page.number_line(b"lives", lives)
}

fn write_if(page: &mut Page, is_so: bool, line: &[u8]) -> Result<(), Memory>
    ensures { OnOk result (page.new ≡ put page.old (line_if is_so line.now)) }
{
    if is_so {
        return page.text(line);
    }
    Ok(())
}

/// Writes the server before the first entry.
fn write_start(page: &mut Page, alloc: Global, trace: &Trace) -> Result<(), Memory>
    ensures { OnOk result (page.new ≡ put page.old (start_text trace.now)) }
{
    write_start_verf(page, alloc, trace.start.verf)?;
    write_objects(page, alloc, trace, None)
}

/// Writes the write verifier before the first entry.
fn write_start_verf(page: &mut Page, alloc: Global, start: Verf) -> Result<(), Memory>
    ensures { OnOk result (page.new ≡ put page.old (verf_text no_server.verf start)) }
{
    write_verf(page, alloc, unsaid_verf(), start)
}

/// The write verifier if no line says one.
fn unsaid_verf() -> Verf
    ensures { result ≡ no_server.verf }
{
    Verf([0; 8])
}

/// Writes each entry and what it changed.
fn write_steps(page: &mut Page, alloc: Global, trace: &Trace) -> Result<(), Memory>
    ensures { All IsSpelled trace.now.entries.items → OnOk result (page.new ≡ put page.old (steps_text trace.now (length trace.now.entries.items))) }
{
    for entry in 0..trace.entries.len() {
        write_step(page, alloc, trace, entry)?;
    }
    Ok(())
}

/// Writes an entry and what it changed, if there is still room.
fn write_step(page: &mut Page, alloc: Global, trace: &Trace, entry: usize) -> Result<(), Memory>
    requires { entry < length trace.now.entries.items }
    ensures { All IsSpelled trace.now.entries.items → OnOk result (page.new ≡ put page.old (step_text trace.now entry)) }
{
    if page.is_full() {
        return Ok(());
    }
    write_entry_at(page, alloc, trace.entries.as_slice(), entry)?;
    write_changes(page, alloc, trace, entry)?;
    Ok(())
}

/// Writes the entry at a place.
fn write_entry_at(
    page: &mut Page,
    alloc: Global,
    entries: &[Entry],
    place: usize,
) -> Result<(), Memory>
    requires { place < length entries.now }
    ensures { All IsSpelled entries.now → OnOk result (page.new ≡ put page.old (entry_text_of (slice_get entries.now place))) }
{
    write_entry(page, alloc, &entries[place])
}

/// Writes what an entry changed of the server.
fn write_changes(page: &mut Page, alloc: Global, trace: &Trace, entry: usize) -> Result<(), Memory>
    requires { entry < length trace.now.entries.items }
    ensures { OnOk result (page.new ≡ put page.old (changes_text trace.now entry)) }
{
    write_restart(page, alloc, trace, entry)?;
    write_objects(page, alloc, trace, Some(entry))
}

/// Writes the write verifier after an entry, if it is another one than before.
fn write_restart(page: &mut Page, alloc: Global, trace: &Trace, entry: usize) -> Result<(), Memory>
    requires { entry < length trace.now.entries.items }
    ensures { OnOk result (page.new ≡ put page.old (restart_text trace.now entry)) }
{
    let before = verf_at(trace.start.verf, trace.updates.as_slice(), entry);
    write_verf(page, alloc, before, verf_after(trace, entry))
}

/// The write verifier after an entry.
fn verf_after(trace: &Trace, entry: usize) -> Verf
    requires { entry < length trace.now.entries.items }
    ensures { result ≡ verf_at trace.now.start.verf trace.now.updates.items (suc entry) }
{
    verf_at(trace.start.verf, trace.updates.as_slice(), entry + 1)
}
