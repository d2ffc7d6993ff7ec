//! Lines that are entries of the history.

ghost use Rattle.std.specs.Prelude.{◌≡◌, length, slice_get};
ghost use Rattle.nfs_script.specs.Commands.{operation_of};
ghost use Rattle.script_text.specs.Lines.{words};
ghost use Rattle.trace_text.specs.EntryLines.{answered_line, began_line, clock_line, delivered_line, dialed_line, executed_line, failed_line, flushed_line, foreign_entry_of, foreign_line, last_shape, reboot_line, sent_line, shape_at, shape_begun};
ghost use Rattle.trace_text.specs.Told.{Takes, told_by};
ghost use Rattle.trace_text.specs.Words.{Gives};

use crate::answers::{Shape, answer, shape_in};
use crate::calls::answered_call;
use crate::draft::Draft;
use crate::fault::LineFault;
use crate::words::{bytes, first, handle, long, none, one, ranged, three, verf};
use limits::GREATEST_LANE;
use nfs_script::operation;
use std::alloc::Global;
use world_model::{Call, Entry, Op, Reply};
use xdr_codec::Blob;

/// `began LANE LINE COMMAND`.
#[tactic(auto, unfolding(crate::specs::EntryLines::began_line))]
pub(crate) fn began(alloc: Global, draft: &mut Draft, line: &[u8]) -> Result<(), LineFault>
    ensures { Takes result (told_by draft.new) (began_line (told_by draft.old) (words line.now)) }
{
    let (lane_word, rest) = first(line)?;
    let (line_word, command) = first(rest)?;
    let lane = ranged(lane_word, 1, GREATEST_LANE)? as u8;
    let line = ranged(line_word, 1, u32::MAX)?;
    let op = wanted_operation(alloc, command)?;
    draft.enter(alloc, Entry::Began { lane, line, op })
}

/// The operation of a command, as a script asks for it.
fn wanted_operation(alloc: Global, command: &[u8]) -> Result<Op, LineFault>
    ensures { Gives (λ op. op) result (operation_of (words command.now)) }
{
    match operation(alloc, command)? {
        Some(op) => Ok(op),
        None => Err(LineFault::Form),
    }
}

/// `answered LANE LINE ANSWER`.
#[tactic(auto, unfolding(crate::specs::EntryLines::answered_line))]
pub(crate) fn answered(alloc: Global, draft: &mut Draft, line: &[u8]) -> Result<(), LineFault>
    ensures { Takes result (told_by draft.new) (answered_line (told_by draft.old) (words line.now)) }
{
    let (lane_word, rest) = first(line)?;
    let (line_word, rest) = first(rest)?;
    let lane = ranged(lane_word, 1, GREATEST_LANE)? as u8;
    let line = ranged(line_word, 1, u32::MAX)?;
    let shape = last_shape(draft.entries(), lane, line);
    let answer = answer(alloc, shape, rest)?;
    draft.enter(alloc, Entry::Answered { lane, line, answer })
}

/// What the operation shows that began last in that lane and line, and nothing if none did.
fn last_shape(entries: &[Entry], lane: u8, line: u32) -> Shape
    ensures { result ≡ last_shape lane line entries.now (length entries.now) }
{
    let mut left = entries.len();
    while left > 0 {
        left -= 1;
        if let Some(shape) = shape_at(entries, left, lane, line) {
            return shape;
        }
    }
    Shape::Nothing
}

/// What the operation shows that the entry at a place begins in that lane and line.
fn shape_at(entries: &[Entry], place: usize, lane: u8, line: u32) -> Option<Shape>
    ensures { result ≡ shape_at lane line (slice_get entries.now place) }
{
    match entries.get(place) {
        Some(entry) => shape_begun(entry, lane, line),
        None => None,
    }
}

fn shape_begun(entry: &Entry, lane: u8, line: u32) -> Option<Shape>
    ensures { result ≡ shape_begun lane line entry.now }
{
    match entry {
        Entry::Began {
            lane: of,
            line: at,
            op,
        } => {
            if *of == lane && *at == line {
                Some(shape_in(op))
            } else {
                None
            }
        }
        _ => None,
    }
}

/// `dialed PORT`.
#[tactic(auto, unfolding(crate::specs::EntryLines::dialed_line))]
pub(crate) fn dialed(alloc: Global, draft: &mut Draft, line: &[u8]) -> Result<(), LineFault>
    ensures { Takes result (told_by draft.new) (dialed_line (told_by draft.old) (words line.now)) }
{
    let port = ranged(one(line)?, 0, 65_535)? as u16;
    draft.enter(alloc, Entry::Dialed { port })
}

/// `sent RECORD`.
#[tactic(auto, unfolding(crate::specs::EntryLines::sent_line))]
pub(crate) fn sent(alloc: Global, draft: &mut Draft, line: &[u8]) -> Result<(), LineFault>
    ensures { Takes result (told_by draft.new) (sent_line (told_by draft.old) (words line.now)) }
{
    let bytes = Blob::of(bytes(alloc, one(line)?)?);
    draft.enter(alloc, Entry::Sent { bytes })
}

/// `delivered RECORD`.
#[tactic(auto, unfolding(crate::specs::EntryLines::delivered_line))]
pub(crate) fn delivered(alloc: Global, draft: &mut Draft, line: &[u8]) -> Result<(), LineFault>
    ensures { Takes result (told_by draft.new) (delivered_line (told_by draft.old) (words line.now)) }
{
    let bytes = Blob::of(bytes(alloc, one(line)?)?);
    draft.enter(alloc, Entry::Delivered { bytes })
}

/// `failed`.
#[tactic(auto, unfolding(crate::specs::EntryLines::failed_line))]
pub(crate) fn failed(alloc: Global, draft: &mut Draft, line: &[u8]) -> Result<(), LineFault>
    ensures { Takes result (told_by draft.new) (failed_line (told_by draft.old) (words line.now)) }
{
    none(line)?;
    draft.enter(alloc, Entry::Failed)
}

/// `clock MS`.
#[tactic(auto, unfolding(crate::specs::EntryLines::clock_line))]
pub(crate) fn clock(alloc: Global, draft: &mut Draft, line: &[u8]) -> Result<(), LineFault>
    ensures { Takes result (told_by draft.new) (clock_line (told_by draft.old) (words line.now)) }
{
    let ms = long(one(line)?)?;
    draft.enter(alloc, Entry::Clock { ms })
}

/// `flushed HANDLE FROM LEN`.
#[tactic(auto, unfolding(crate::specs::EntryLines::flushed_line))]
pub(crate) fn flushed(alloc: Global, draft: &mut Draft, line: &[u8]) -> Result<(), LineFault>
    ensures { Takes result (told_by draft.new) (flushed_line (told_by draft.old) (words line.now)) }
{
    let (file_word, from_word, len_word) = three(line)?;
    let file = handle(alloc, file_word)?;
    let from = long(from_word)?;
    let len = long(len_word)?;
    draft.enter(alloc, Entry::Flushed { file, from, len })
}

/// `reboot VERF`.
#[tactic(auto, unfolding(crate::specs::EntryLines::reboot_line))]
pub(crate) fn reboot(alloc: Global, draft: &mut Draft, line: &[u8]) -> Result<(), LineFault>
    ensures { Takes result (told_by draft.new) (reboot_line (told_by draft.old) (words line.now)) }
{
    let verf = verf(alloc, one(line)?)?;
    draft.enter(alloc, Entry::Reboot { verf })
}

/// `executed CALL REPLY`.
#[tactic(auto, unfolding(crate::specs::EntryLines::executed_line))]
pub(crate) fn executed(alloc: Global, draft: &mut Draft, line: &[u8]) -> Result<(), LineFault>
    ensures { Takes result (told_by draft.new) (executed_line (told_by draft.old) (words line.now)) }
{
    let (xid, call, reply) = answered_call(alloc, line)?;
    draft.enter(alloc, Entry::Executed { xid, call, reply })
}

/// `foreign CALL REPLY`: both under the xid 0.
#[tactic(auto, unfolding(crate::specs::EntryLines::foreign_line))]
pub(crate) fn foreign(alloc: Global, draft: &mut Draft, line: &[u8]) -> Result<(), LineFault>
    ensures { Takes result (told_by draft.new) (foreign_line (told_by draft.old) (words line.now)) }
{
    let (xid, call, reply) = answered_call(alloc, line)?;
    let entry = foreign_entry(xid, call, reply)?;
    draft.enter(alloc, entry)
}

/// The entry of a call that another client made. Its xid is 0.
fn foreign_entry(xid: u32, call: Call, reply: Reply) -> Result<Entry, LineFault>
    ensures { Gives (λ e. e) result (foreign_entry_of xid call reply) }
{
    if xid != 0 {
        return Err(LineFault::Form);
    }
    Ok(Entry::Foreign { call, reply })
}
