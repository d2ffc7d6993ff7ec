//! The lines of a session that was lost before any of them began.

ghost use Rattle.std.specs.Prelude.{◌≡◌, ◌≤◌, ◌<◌, [], drop, length, take};
ghost use Rattle.outside.specs.Causes.{Rose};
ghost use Rattle.lane_session.specs.Losing.{by_lanes, of_lane, LosesBy, LosesLine};
ghost use Rattle.lane_session.specs.Statuses.{CausedBy};
ghost use Rattle.lane_session.specs.Streams.{Passes};

use crate::buffer::Buffer;
use crate::halt::Halt;
use crate::lines::{note_beginning, tell_answer};
use limits::LANES;
use nfs_script::Script;
use outside::{Clock, Link, Sink};
use std::alloc::Global;
use world_model::{Answer, Fault};

/// The lines of a session that was lost in its set-up: each begins, and is answered that the session is lost, lane after lane as after any loss. Nothing is
/// sent. Each answer is written at once, behind the label.
pub fn lose_lines<L: Link, C: Clock, K: Sink>(
    alloc: Global,
    script: &Script,
    label: &[u8],
    link: &mut L,
    clock: &mut C,
    out: &mut K,
) -> Result<(), Halt>
    ensures goes { Passes (C.readings clock.old) (C.readings clock.new) (L.told link.old) (L.told link.new) (K.written out.old) (K.written out.new)
        (LosesBy label.now (by_lanes 16 script.now) result) }
    ensures stays { (first : L) → L.stays first link.old → L.stays first link.new }
    ensures honest { L.honest link.old → L.honest link.new }
    ensures later { K.faults out.old ≤ K.faults out.new }
    ensures cause { CausedBy result (Rose (K.faults out.old) (K.faults out.new)) }
{
    for index in 0..LANES {
        match lose_lane(alloc, script, index + 1, label, link, clock, out) {
            Ok(()) => {}
            Err(halt) => return Err(halt),
        }
    }
    Ok(())
}

/// The lines of a lane begin, and are answered that the session is lost.
fn lose_lane<L: Link, C: Clock, K: Sink>(
    alloc: Global,
    script: &Script,
    lane: u8,
    label: &[u8],
    link: &mut L,
    clock: &mut C,
    out: &mut K,
) -> Result<(), Halt>
    ensures goes { Passes (C.readings clock.old) (C.readings clock.new) (L.told link.old) (L.told link.new) (K.written out.old) (K.written out.new)
        (LosesBy label.now (of_lane lane script.now) result) }
    ensures stays { (first : L) → L.stays first link.old → L.stays first link.new }
    ensures honest { L.honest link.old → L.honest link.new }
    ensures later { K.faults out.old ≤ K.faults out.new }
    ensures cause { CausedBy result (Rose (K.faults out.old) (K.faults out.new)) }
{
    for at in 0..script.count() {
        match lose_own(alloc, script, at, lane, label, link, clock, out) {
            Ok(()) => {}
            Err(halt) => return Err(halt),
        }
    }
    Ok(())
}

/// The line at a place begins and is answered so, if it is one of the lane's.
fn lose_own<L: Link, C: Clock, K: Sink>(
    alloc: Global,
    script: &Script,
    at: usize,
    lane: u8,
    label: &[u8],
    link: &mut L,
    clock: &mut C,
    out: &mut K,
) -> Result<(), Halt>
    requires { at < length script.now }
    ensures goes { Passes (C.readings clock.old) (C.readings clock.new) (L.told link.old) (L.told link.new) (K.written out.old) (K.written out.new)
        (LosesBy label.now (of_lane lane (take 1 (drop at script.now))) result) }
    ensures stays { (first : L) → L.stays first link.old → L.stays first link.new }
    ensures honest { L.honest link.old → L.honest link.new }
    ensures later { K.faults out.old ≤ K.faults out.new }
    ensures cause { CausedBy result (Rose (K.faults out.old) (K.faults out.new)) }
{
    if script.op(at).0 == lane {
        lose_line(alloc, script, at, label, link, clock, out)
    } else {
        Ok(())
    }
}

/// A line begins, and is answered that the session is lost.
fn lose_line<L: Link, C: Clock, K: Sink>(
    alloc: Global,
    script: &Script,
    at: usize,
    label: &[u8],
    link: &mut L,
    clock: &mut C,
    out: &mut K,
) -> Result<(), Halt>
    requires { at < length script.now }
    ensures goes { Passes (C.readings clock.old) (C.readings clock.new) (L.told link.old) (L.told link.new) (K.written out.old) (K.written out.new)
        (LosesLine label.now script.now at result) }
    ensures stays { (first : L) → L.stays first link.old → L.stays first link.new }
    ensures honest { L.honest link.old → L.honest link.new }
    ensures later { K.faults out.old ≤ K.faults out.new }
    ensures cause { CausedBy result (Rose (K.faults out.old) (K.faults out.new)) }
{
    let (lane, line, op) = script.op(at);
    match note_beginning(alloc, lane, line, op, link, clock) {
        Ok(_) => {
            let mut room = Buffer::new(alloc);
            tell_answer(
                alloc,
                lane,
                line,
                Answer::Refused(Fault::Lost),
                label,
                &mut room,
                link,
                out,
            )
        }
        Err(_) => Err(Halt::Memory),
    }
}
