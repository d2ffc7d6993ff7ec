//! How the lines of a script begin and are answered: what is noted, and what is written.

ghost use Rattle.std.specs.Prelude.{◌≡◌, ◌≤◌, IfOk, OnOk, OnErr};
ghost use Rattle.outside.specs.Causes.{Rose};
ghost use Rattle.outside.specs.Clock.{ReadsClock};
ghost use Rattle.outside.specs.Link.{NotesOnly, noted_as};
ghost use Rattle.world_model.specs.Counts.{tally_text};
ghost use Rattle.world_model.specs.declared.entry.Mark.TheVariants as marks;
ghost use Rattle.world_model.specs.Told.{Relates};
ghost use Rattle.world_model.specs.Transcript.{line_text};
ghost use Rattle.lane_session.specs.Going.{NotesBeginning, TellsAnswer};
ghost use Rattle.lane_session.specs.Streams.{Appends, IsFrontOf, ReadsOnce, Says};
ghost use Rattle.lane_session.specs.Statuses.{CausedBy};

use crate::buffer::Buffer;
use crate::halt::Halt;
use crate::output::{write_all, write_line};
use nfs_script::{tally_line, whole_line};
use outside::{Clock, Link, Sink};
use std::alloc::Global;
use world_model::{Answer, Mark, Op, Tally};
use xdr_codec::{Blob, Memory, Writer};

/// Reads the clock and notes the time, and right after it that a line begins: the time.
pub fn note_beginning<L: Link, C: Clock>(
    alloc: Global,
    lane: u8,
    line: u32,
    op: &Op,
    link: &mut L,
    clock: &mut C,
) -> Result<u64, Memory>
    ensures goes { ReadsOnce (C.readings clock.old) (C.readings clock.new) (λ ms.
        Relates (L.told link.old) (L.told link.new) (NotesBeginning lane line op.now ms result)) }
    ensures reading { IfOk result (ReadsClock (C.readings clock.old) (C.readings clock.new)) }
    ensures stays { (first : L) → L.stays first link.old → L.stays first link.new }
    ensures honest { L.honest link.old → L.honest link.new }
{
    let ms = clock.now();
    note_start(alloc, ms, lane, line, op, link)
}

/// Notes this time, and right after it that a line begins: the time. The operation is copied only if the link tells its history.
pub fn note_start<L: Link>(
    alloc: Global,
    ms: u64,
    lane: u8,
    line: u32,
    op: &Op,
    link: &mut L,
) -> Result<u64, Memory>
    ensures goes { Relates (L.told link.old) (L.told link.new) (NotesBeginning lane line op.now ms result) }
    ensures is { IfOk result (λ now. now ≡ ms) }
    ensures stays { (first : L) → L.stays first link.old → L.stays first link.new }
    ensures honest { L.honest link.old → L.honest link.new }
{
    if !link.tells() {
        return Ok(ms);
    }
    match op.copy(alloc) {
        Ok(op) => note_at(ms, lane, line, op, link),
        Err(_) => Err(Memory),
    }
}

/// The same of an operation that the link keeps.
fn note_at<L: Link>(ms: u64, lane: u8, line: u32, op: Op, link: &mut L) -> Result<u64, Memory>
    ensures goes { Relates (L.told link.old) (L.told link.new) (NotesBeginning lane line op ms result) }
    ensures is { IfOk result (λ now. now ≡ ms) }
    ensures stays { (first : L) → L.stays first link.old → L.stays first link.new }
    ensures honest { L.honest link.old → L.honest link.new }
{
    match link.note(Mark::Clock { ms }) {
        Ok(()) => {}
        Err(wanting) => return Err(wanting),
    }
    match link.note(Mark::Began { lane, line, op }) {
        Ok(()) => Ok(ms),
        Err(wanting) => Err(wanting),
    }
}

/// Notes an answer, and writes its line at once, behind the label. The line is made in the memory of the one before.
pub fn tell_answer<L: Link, K: Sink>(
    alloc: Global,
    lane: u8,
    line: u32,
    answer: Answer,
    label: &[u8],
    room: &mut Buffer,
    link: &mut L,
    out: &mut K,
) -> Result<(), Halt>
    ensures goes { Says (K.written out.old) (K.written out.new) (λ text.
        Relates (L.told link.old) (L.told link.new) (TellsAnswer label.now lane line answer result text)) }
    ensures stays { (first : L) → L.stays first link.old → L.stays first link.new }
    ensures honest { L.honest link.old → L.honest link.new }
    ensures later { K.faults out.old ≤ K.faults out.new }
    ensures cause { CausedBy result (Rose (K.faults out.old) (K.faults out.new)) }
{
    let Ok(made) = whole_line(alloc, room.lend(alloc), lane, line, &answer) else {
        return Err(Halt::Memory);
    };
    let told = tell_line(lane, line, answer, label, made.bytes(), link, out);
    room.take_back(made.into_room());
    told
}

/// Notes an answer, and writes its line, which is this one.
fn tell_line<L: Link, K: Sink>(
    lane: u8,
    line: u32,
    answer: Answer,
    label: &[u8],
    made: &[u8],
    link: &mut L,
    out: &mut K,
) -> Result<(), Halt>
    requires { made.now ≡ line_text lane line answer }
    ensures goes { Says (K.written out.old) (K.written out.new) (λ text.
        Relates (L.told link.old) (L.told link.new) (TellsAnswer label.now lane line answer result text)) }
    ensures stays { (first : L) → L.stays first link.old → L.stays first link.new }
    ensures honest { L.honest link.old → L.honest link.new }
    ensures later { K.faults out.old ≤ K.faults out.new }
    ensures cause { CausedBy result (Rose (K.faults out.old) (K.faults out.new)) }
{
    match note_answer(lane, line, answer, link) {
        Ok(()) => write_line(out, label, made),
        Err(_) => Err(Halt::Memory),
    }
}

/// Notes an answer. No mark is made for a link that doesn't tell its history.
fn note_answer<L: Link>(lane: u8, line: u32, answer: Answer, link: &mut L) -> Result<(), Memory>
    ensures told { NotesOnly (L.told link.old) (L.told link.new) (noted_as (marks.Answered lane line answer) result) }
    ensures stays { (first : L) → L.stays first link.old → L.stays first link.new }
    ensures honest { L.honest link.old → L.honest link.new }
{
    if !link.tells() {
        return Ok(());
    }
    link.note(Mark::Answered { lane, line, answer })
}

/// Writes the line of counts.
pub fn tell_counts<K: Sink>(alloc: Global, tally: &Tally, out: &mut K) -> Result<(), Halt>
    ensures ok { OnOk result (Appends (K.written out.old) (K.written out.new) (tally_text tally.now)) }
    ensures err { OnErr result (Says (K.written out.old) (K.written out.new) (IsFrontOf (tally_text tally.now))) }
    ensures later { K.faults out.old ≤ K.faults out.new }
    ensures cause { CausedBy result (Rose (K.faults out.old) (K.faults out.new)) }
{
    let Ok(text) = counts_text(alloc, tally) else {
        return Err(Halt::Memory);
    };
    write_all(out, text.bytes())
}

/// The line of counts.
fn counts_text(alloc: Global, tally: &Tally) -> Result<Blob, Memory>
    ensures { IfOk result (λ text. text ≡ tally_text tally.now) }
{
    let mut text = Writer::new(alloc);
    tally_line(&mut text, tally)?;
    Ok(text.finish())
}
