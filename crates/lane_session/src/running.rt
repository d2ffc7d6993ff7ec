//! A session over the core: its lines begin, calls are sent, records are taken, answers are told.

ghost use Rattle.std.specs.Bool.{OnTrue};
ghost use Rattle.std.specs.Prelude.{◌≡◌, ◌≢◌, ◌≤◌, ◌<◌, ◌^◌, ◌+◌, ◌-◌, ◌*◌, ℕ, [], List, All, None, Some, true, false, IfOk, OnOk, length};
ghost use Rattle.outside.specs.Causes.{Rose};
ghost use Rattle.world_model.specs.declared.entry.Entry.{Entry};
ghost use Rattle.world_model.specs.Told.{Relates};
ghost use Rattle.link_dials.specs.Dials.{DialsOnly};
ghost use Rattle.nfs_script.specs.Asked.{IsAsked, IsAskedLine};
ghost use Rattle.nfs_script.specs.declared.script.ScriptLine.{ScriptLine};
ghost use Rattle.rpc_retry.specs.Waiting.{first_due};
ghost use Rattle.op_machines.specs.Begun.{machine_of};
ghost use Rattle.op_machines.specs.Fits.{Fits};
ghost use Rattle.client_core.specs.Lanes.{AnsweredFrom, IsUnder};
ghost use Rattle.client_core.specs.Numbers.{IsIdle};
ghost use Rattle.client_core.specs.Steps.{WereSent};
ghost use Rattle.core_facts.specs.Reaches.{MaySetUp};
ghost use Rattle.lane_session.specs.Bonds.{CoreBy, CoreGoes, RedialsBy};
ghost use Rattle.lane_session.specs.Going.{GoesBy, GoesNext};
ghost use Rattle.lane_session.specs.Holding.{HasRoom, IsHeld, IsLive, IsQuiet, AreQuiet, HeadSent, tries_left};
ghost use Rattle.lane_session.specs.Places.{AreIdle};
ghost use Rattle.lane_session.specs.Ports.{KeepsPort};
ghost use Rattle.lane_session.specs.Resending.{DueAgain};
ghost use Rattle.lane_session.specs.Running.{IsFreshFor, StepsSo, StepsLane, LineIs, Starts, NotesStart, Quietly, Exchanges, Redialed, NoneOver, SendsAll, SendsOne, Fails, Takes, given_up};
ghost use Rattle.lane_session.specs.Statuses.{CausedBy};
ghost use Rattle.lane_session.specs.Streams.{Passes, Reads, Says};
ghost use Rattle.lane_session.specs.Turns.{AddsMarks, WritesInTime};

use crate::buffer::Buffer;
use crate::counts::Counts;
use crate::halt::Halt;
use crate::incoming::Incoming;
use crate::lanes::Lanes;
use crate::lines::{note_start, tell_answer};
use crate::status;
use client_core::{Core, Setup};
use limits::{ATTEMPTS, CONNECTS, LANES, STRAY_RECORDS, WAIT_MS};
use nfs_script::Script;
use op_machines::{Machine, Mounted};
use outside::{Clock, Link, LinkFault, Received, Sink};
use page_cache::PageCache;
use session_words::Settings;
use std::alloc::Global;
use world_model::{Op, Tally};
use xdr_codec::{Lent, Memory};

/// A session that is under way: where its lanes are in the script, and the core with the calls that wait. It is made over a set-up, and goes on
/// turn by turn until each line of the script has its answer.
#[derive(Drop)]
pub struct Session {
    alloc: Global,
    mounted: Mounted,
    port: u16,
    core: Core,
    lanes: Lanes,
    /// The calls that were sent.
    pub(crate) counts: Counts,
    /// The status by the answers to this script so far.
    pub(crate) status: u8,
    /// How many attempts may still end in a row before a reply comes; none in a lost session.
    attempts: u32,
    /// How many records that answered no call came in a row.
    dropped: u32,
    /// So many operations at most began in the scripts that are done.
    earlier: u64,
    /// For the record that comes next.
    buffer: Buffer,
    /// For the line that is written next.
    text: Buffer,
}

/// What came of the sending of a record.
enum Sending {
    /// None was due.
    Nothing,
    /// It went out.
    Went,
    /// The link failed.
    Failed,
}

impl Session {
    /// A session in which no line has begun. The tally is that of the calls of the set-up. An error is want of memory.
    pub fn new(
        alloc: Global,
        settings: &Settings,
        setup: Setup,
        tally: Tally,
    ) -> Result<Session, Memory>
        requires may { MaySetUp setup }
        ensures fresh { IfOk result (IsFreshFor settings.now setup) }
        ensures port { IfOk result (λ s. s.port ≡ settings.now.nfs_port) }
        ensures counts { IfOk result (λ s. s.counts.tally ≡ tally) }
    {
        let mounted = Mounted {
            root: setup.root,
            rsize: setup.rsize,
            noac: settings.noac,
            nocto: !settings.noac && settings.nocto,
        };
        // The core comes last, so that no failure has one to drop.
        let lanes = Lanes::new(alloc)?;
        let core = Core::new(alloc, setup)?;
        Ok(Session {
            alloc,
            mounted,
            port: settings.nfs_port,
            core,
            lanes,
            counts: Counts { tally },
            status: status::WELL,
            attempts: ATTEMPTS,
            dropped: 0,
            earlier: 0,
            buffer: Buffer::new(alloc),
            text: Buffer::new(alloc),
        })
    }

    /// The status by the answers to this script so far: 0 if all are `ok`, 6 if one is that the session is lost, else 1.
    pub fn status(&self) -> u8
        ensures { result ≡ self.now.status }
    {
        self.status
    }

    /// The pages that are kept at the end.
    pub(crate) fn into_pages(self) -> PageCache
        ensures { result ≡ self.core.shelf.pages }
    {
        self.core.into_pages()
    }

    /// The calls that were sent so far, with those of the set-up.
    pub fn tally(&self) -> Tally
        ensures { result ≡ self.now.counts.tally }
    {
        self.counts.tally
    }

    /// Whether there is room for another script: a session can't begin 2^32 operations.
    pub fn has_room(&self, script: &Script, next: &Script) -> bool
        requires held { IsHeld script.now self.now }
        requires few { length next.now ≤ 16384 }
        ensures { OnTrue result (HasRoom script.now next.now self.now) }
    {
        let lines = script.count();
        let more = next.count();
        have_room(self.earlier, lines, more)
    }

    /// Goes on to another script, no line of which has begun, once each line of this one has its answer. What the session keeps stays: the connection,
    /// what is cached, dirty bytes, open slots, xids.
    pub fn next_script(&mut self, script: &Script)
        requires held { IsHeld script.now self.old }
        requires idle { AreIdle self.old.lanes }
        requires quiet { AreQuiet script.now self.old }
        ensures held { (next : List ScriptLine) → HasRoom script.now next self.old → IsHeld next self.new }
        ensures goes { (next : List ScriptLine) → GoesNext script.now next self.old self.new }
        ensures core { (h : List Entry) → CoreGoes self.old self.new h h }
        ensures port { self.new.port ≡ self.old.port }
    {
        let lines = script.count();
        self.pass(lines);
        self.lanes.restart();
    }

    /// The lines of a script are done, and nothing is answered of the next one.
    fn pass(&mut self, lines: usize)
        requires { self.old.earlier + 16 * lines < 2 ^ 32 }
        ensures { self.new ≡ record self.old { earlier = self.old.earlier + 16 * lines; status = 0 } }
    {
        self.earlier += 16 * lines as u64;
        self.status = status::WELL;
    }

    /// Works until each line of the script has its answer: a loop of turns.
    pub fn work<L: Link, C: Clock, K: Sink>(
        &mut self,
        script: &Script,
        label: &[u8],
        link: &mut L,
        clock: &mut C,
        out: &mut K,
    ) -> Result<(), Halt>
        requires asked { All IsAskedLine script.now }
        requires few { length script.now ≤ 16384 }
        requires held { IsHeld script.now self.old }
        ensures idle { OnOk result (AreIdle self.new.lanes) }
        ensures quiet { OnOk result (AreQuiet script.now self.new) }
        ensures held { OnOk result (IsHeld script.now self.new) }
        ensures goes { Passes (C.readings clock.old) (C.readings clock.new) (L.told link.old) (L.told link.new) (K.written out.old) (K.written out.new)
            (GoesBy label.now script.now self.old self.new result) }
        ensures dials { KeepsPort self.old.port self.new.port (L.told link.old) (L.told link.new) }
        ensures stays { (first : L) → L.stays first link.old → L.stays first link.new }
        ensures honest { L.honest link.old → L.honest link.new }
        ensures later { K.faults out.old ≤ K.faults out.new }
        ensures cause { CausedBy result (Rose (K.faults out.old) (K.faults out.new)) }
    {
        'working: loop {
            match self.take_turn(script, label, link, clock, out) {
                Ok(went) => {
                    if !went {
                        return Ok(());
                    }
                }
                Err(halt) => return Err(halt),
            }
        }
    }

    /// A turn: lanes go on as far as they can, and if a line is under way then, due records are sent and one is waited for. The lines of all
    /// answers are written, each behind the label, before the first record is sent. False, with nothing sent, if each line of the script has
    /// its answer. After an error no further turn is taken.
    pub fn take_turn<L: Link, C: Clock, K: Sink>(
        &mut self,
        script: &Script,
        label: &[u8],
        link: &mut L,
        clock: &mut C,
        out: &mut K,
    ) -> Result<bool, Halt>
        requires asked { All IsAskedLine script.now }
        requires few { length script.now ≤ 16384 }
        requires held { IsHeld script.now self.old }
        ensures held { OnOk result (IsHeld script.now self.new) }
        ensures less { IfOk result (λ went. went ≡ true → tries_left self.new < tries_left self.old) }
        ensures idle { IfOk result (λ went. went ≡ false → AreIdle self.new.lanes) }
        ensures quiet { IfOk result (λ went. went ≡ false → AreQuiet script.now self.new) }
        ensures goes { Passes (C.readings clock.old) (C.readings clock.new) (L.told link.old) (L.told link.new) (K.written out.old) (K.written out.new)
            (GoesBy label.now script.now self.old self.new result) }
        ensures in_time { Passes (C.readings clock.old) (C.readings clock.new) (L.told link.old) (L.told link.new) (K.written out.old) (K.written out.new)
            (λ given text h k. WritesInTime label.now result text h k) }
        ensures dials { KeepsPort self.old.port self.new.port (L.told link.old) (L.told link.new) }
        ensures stays { (first : L) → L.stays first link.old → L.stays first link.new }
        ensures honest { L.honest link.old → L.honest link.new }
        ensures later { K.faults out.old ≤ K.faults out.new }
        ensures cause { CausedBy result (Rose (K.faults out.old) (K.faults out.new)) }
    {
        match self.settle(script, label, link, clock, out) {
            Ok(()) => {}
            Err(halt) => return Err(halt),
        }
        let busy = self.lanes.are_busy();
        if !busy {
            return Ok(false);
        }
        match self.exchange(link) {
            Ok(()) => Ok(true),
            Err(halt) => Err(halt),
        }
    }

    /// Lanes go on until each has a line under way without an answer, or none left.
    fn settle<L: Link, C: Clock, K: Sink>(
        &mut self,
        script: &Script,
        label: &[u8],
        link: &mut L,
        clock: &mut C,
        out: &mut K,
    ) -> Result<(), Halt>
        requires asked { All IsAskedLine script.now }
        requires few { length script.now ≤ 16384 }
        requires held { IsHeld script.now self.old }
        ensures held { OnOk result (IsHeld script.now self.new) }
        ensures quiet { OnOk result (AreQuiet script.now self.new) }
        ensures less { OnOk result (tries_left self.new ≤ tries_left self.old) }
        ensures goes { Passes (C.readings clock.old) (C.readings clock.new) (L.told link.old) (L.told link.new) (K.written out.old) (K.written out.new)
            (GoesBy label.now script.now self.old self.new result) }
        ensures marks { Relates (L.told link.old) (L.told link.new) AddsMarks }
        ensures dials { KeepsPort self.old.port self.new.port (L.told link.old) (L.told link.new) }
        ensures stays { (first : L) → L.stays first link.old → L.stays first link.new }
        ensures honest { L.honest link.old → L.honest link.new }
        ensures later { K.faults out.old ≤ K.faults out.new }
        ensures cause { CausedBy result (Rose (K.faults out.old) (K.faults out.new)) }
    {
        'settling: loop {
            match self.step_one(script, label, link, clock, out) {
                Ok(went) => {
                    if !went {
                        return Ok(());
                    }
                }
                Err(halt) => return Err(halt),
            }
        }
    }

    /// The first lane that can goes on: whether there was one.
    fn step_one<L: Link, C: Clock, K: Sink>(
        &mut self,
        script: &Script,
        label: &[u8],
        link: &mut L,
        clock: &mut C,
        out: &mut K,
    ) -> Result<bool, Halt>
        requires asked { All IsAskedLine script.now }
        requires few { length script.now ≤ 16384 }
        requires held { IsHeld script.now self.old }
        ensures held { OnOk result (IsHeld script.now self.new) }
        ensures steps { IfOk result (λ went. StepsSo script.now self.old went self.new) }
        ensures goes { Passes (C.readings clock.old) (C.readings clock.new) (L.told link.old) (L.told link.new) (K.written out.old) (K.written out.new)
            (GoesBy label.now script.now self.old self.new result) }
        ensures marks { Relates (L.told link.old) (L.told link.new) AddsMarks }
        ensures dials { KeepsPort self.old.port self.new.port (L.told link.old) (L.told link.new) }
        ensures stays { (first : L) → L.stays first link.old → L.stays first link.new }
        ensures honest { L.honest link.old → L.honest link.new }
        ensures later { K.faults out.old ≤ K.faults out.new }
        ensures cause { CausedBy result (Rose (K.faults out.old) (K.faults out.new)) }
    {
        let least = self.core.least_answered();
        if self.rests(least, script) {
            return Ok(false);
        }
        self.step_lanes(least, script, label, link, clock, out)
    }

    /// Whether no lane can go on: each has a line under way without an answer, or none left.
    fn rests(&self, least: Option<u8>, script: &Script) -> bool
        requires { AnsweredFrom least self.now.core.lanes }
        ensures { OnTrue result (AreQuiet script.now self.now) }
    {
        match least {
            Some(_) => false,
            None => self.lanes.have_begun(script.count()),
        }
    }

    /// The same, by asking each lane in turn that has no line under way or whose line may have its answer.
    fn step_lanes<L: Link, C: Clock, K: Sink>(
        &mut self,
        least: Option<u8>,
        script: &Script,
        label: &[u8],
        link: &mut L,
        clock: &mut C,
        out: &mut K,
    ) -> Result<bool, Halt>
        requires from { AnsweredFrom least self.old.core.lanes }
        requires asked { All IsAskedLine script.now }
        requires few { length script.now ≤ 16384 }
        requires held { IsHeld script.now self.old }
        ensures held { OnOk result (IsHeld script.now self.new) }
        ensures steps { IfOk result (λ went. StepsSo script.now self.old went self.new) }
        ensures goes { Passes (C.readings clock.old) (C.readings clock.new) (L.told link.old) (L.told link.new) (K.written out.old) (K.written out.new)
            (GoesBy label.now script.now self.old self.new result) }
        ensures marks { Relates (L.told link.old) (L.told link.new) AddsMarks }
        ensures dials { KeepsPort self.old.port self.new.port (L.told link.old) (L.told link.new) }
        ensures stays { (first : L) → L.stays first link.old → L.stays first link.new }
        ensures honest { L.honest link.old → L.honest link.new }
        ensures later { K.faults out.old ≤ K.faults out.new }
        ensures cause { CausedBy result (Rose (K.faults out.old) (K.faults out.new)) }
    {
        for index in 0..LANES {
            match self.step_from(least, index + 1, script, label, link, clock, out) {
                Ok(went) => {
                    if went {
                        return Ok(true);
                    }
                }
                Err(halt) => return Err(halt),
            }
        }
        Ok(false)
    }

    /// As `step`, if no lane below a number has an answer.
    fn step_from<L: Link, C: Clock, K: Sink>(
        &mut self,
        least: Option<u8>,
        lane: u8,
        script: &Script,
        label: &[u8],
        link: &mut L,
        clock: &mut C,
        out: &mut K,
    ) -> Result<bool, Halt>
        requires from { AnsweredFrom least self.old.core.lanes }
        requires least { 1 ≤ lane }
        requires most { lane ≤ 16 }
        requires asked { All IsAskedLine script.now }
        requires few { length script.now ≤ 16384 }
        requires held { IsHeld script.now self.old }
        ensures held { OnOk result (IsHeld script.now self.new) }
        ensures steps { IfOk result (λ went. StepsLane script.now lane self.old went self.new) }
        ensures goes { Passes (C.readings clock.old) (C.readings clock.new) (L.told link.old) (L.told link.new) (K.written out.old) (K.written out.new)
            (GoesBy label.now script.now self.old self.new result) }
        ensures marks { Relates (L.told link.old) (L.told link.new) AddsMarks }
        ensures dials { KeepsPort self.old.port self.new.port (L.told link.old) (L.told link.new) }
        ensures stays { (first : L) → L.stays first link.old → L.stays first link.new }
        ensures honest { L.honest link.old → L.honest link.new }
        ensures later { K.faults out.old ≤ K.faults out.new }
        ensures cause { CausedBy result (Rose (K.faults out.old) (K.faults out.new)) }
    {
        if self.waits(lane, least) {
            return Ok(false);
        }
        self.step(lane, script, label, link, clock, out)
    }

    /// Whether a line of the lane is under way, which has no answer.
    fn waits(&self, lane: u8, least: Option<u8>) -> bool
        requires from { AnsweredFrom least self.now.core.lanes }
        requires least { 1 ≤ lane }
        requires most { lane ≤ 16 }
        ensures { OnTrue result ((script : List ScriptLine) → IsQuiet script self.now (lane - 1)) }
    {
        match self.lanes.line(lane) {
            Some(_) => is_under(lane, least),
            None => false,
        }
    }

    /// The lane tells its answer, or begins its next line: whether it had either.
    fn step<L: Link, C: Clock, K: Sink>(
        &mut self,
        lane: u8,
        script: &Script,
        label: &[u8],
        link: &mut L,
        clock: &mut C,
        out: &mut K,
    ) -> Result<bool, Halt>
        requires least { 1 ≤ lane }
        requires most { lane ≤ 16 }
        requires asked { All IsAskedLine script.now }
        requires few { length script.now ≤ 16384 }
        requires held { IsHeld script.now self.old }
        ensures held { OnOk result (IsHeld script.now self.new) }
        ensures steps { IfOk result (λ went. StepsLane script.now lane self.old went self.new) }
        ensures goes { Passes (C.readings clock.old) (C.readings clock.new) (L.told link.old) (L.told link.new) (K.written out.old) (K.written out.new)
            (GoesBy label.now script.now self.old self.new result) }
        ensures marks { Relates (L.told link.old) (L.told link.new) AddsMarks }
        ensures dials { KeepsPort self.old.port self.new.port (L.told link.old) (L.told link.new) }
        ensures stays { (first : L) → L.stays first link.old → L.stays first link.new }
        ensures honest { L.honest link.old → L.honest link.new }
        ensures later { K.faults out.old ≤ K.faults out.new }
        ensures cause { CausedBy result (Rose (K.faults out.old) (K.faults out.new)) }
    {
        match self.lanes.line(lane) {
            Some(line) => self.end(lane, line, label, link, out),
            None => self.begin(lane, script, link, clock),
        }
    }

    /// The lane tells the answer of its line, if it is there.
    fn end<L: Link, K: Sink>(
        &mut self,
        lane: u8,
        line: u32,
        label: &[u8],
        link: &mut L,
        out: &mut K,
    ) -> Result<bool, Halt>
        requires least { 1 ≤ lane }
        requires most { lane ≤ 16 }
        requires line { LineIs lane (Some line) self.old }
        ensures held { OnOk result ((script : List ScriptLine) → IsHeld script self.old → IsHeld script self.new) }
        ensures steps { IfOk result (λ went. (script : List ScriptLine) → IsHeld script self.old → StepsLane script lane self.old went self.new) }
        ensures goes { Says (K.written out.old) (K.written out.new) (λ text.
            Relates (L.told link.old) (L.told link.new) (λ h k. (script : List ScriptLine) → IsHeld script self.old
            → GoesBy label.now script self.old self.new result [] text h k)) }
        ensures marks { Relates (L.told link.old) (L.told link.new) AddsMarks }
        ensures dials { KeepsPort self.old.port self.new.port (L.told link.old) (L.told link.new) }
        ensures stays { (first : L) → L.stays first link.old → L.stays first link.new }
        ensures honest { L.honest link.old → L.honest link.new }
        ensures later { K.faults out.old ≤ K.faults out.new }
        ensures cause { CausedBy result (Rose (K.faults out.old) (K.faults out.new)) }
    {
        self.core.is_sound();
        let Some(answer) = self.core.answer(lane) else {
            return Ok(false);
        };
        let status = status::after_answer(self.status, &answer);
        match tell_answer(
            self.alloc,
            lane,
            line,
            answer,
            label,
            &mut self.text,
            link,
            out,
        ) {
            Ok(()) => {
                self.lanes.end(lane);
                self.status = status;
                Ok(true)
            }
            Err(halt) => Err(halt),
        }
    }

    /// The lane begins its next line, if there is one.
    fn begin<L: Link, C: Clock>(
        &mut self,
        lane: u8,
        script: &Script,
        link: &mut L,
        clock: &mut C,
    ) -> Result<bool, Halt>
        requires least { 1 ≤ lane }
        requires most { lane ≤ 16 }
        requires asked { All IsAskedLine script.now }
        requires few { length script.now ≤ 16384 }
        requires held { IsHeld script.now self.old }
        requires line { LineIs lane None self.old }
        ensures held { OnOk result (IsHeld script.now self.new) }
        ensures steps { IfOk result (λ went. StepsLane script.now lane self.old went self.new) }
        ensures goes { Reads (C.readings clock.old) (C.readings clock.new) (λ given.
            Relates (L.told link.old) (L.told link.new) (λ h k. (label : List ℕ) → GoesBy label script.now self.old self.new result given [] h k)) }
        ensures marks { Relates (L.told link.old) (L.told link.new) AddsMarks }
        ensures dials { KeepsPort self.old.port self.new.port (L.told link.old) (L.told link.new) }
        ensures stays { (first : L) → L.stays first link.old → L.stays first link.new }
        ensures honest { L.honest link.old → L.honest link.new }
        ensures only { CausedBy result ⊥ }
    {
        let Some(place) = self.lanes.seek(lane, script) else {
            return Ok(false);
        };
        let (_, line, op) = script.op(place);
        match self.start(lane, line, op, link, clock) {
            Ok(()) => {
                self.lanes.begin(lane, place, line);
                Ok(true)
            }
            Err(_) => Err(Halt::Memory),
        }
    }

    /// An operation begins at the time that is noted just before it.
    fn start<L: Link, C: Clock>(
        &mut self,
        lane: u8,
        line: u32,
        op: &Op,
        link: &mut L,
        clock: &mut C,
    ) -> Result<(), Memory>
        requires asked { IsAsked op.now }
        requires idle { IsIdle lane self.old.core.lanes }
        requires begun { self.old.core.begun < 2 ^ 32 }
        ensures goes { Reads (C.readings clock.old) (C.readings clock.new) (λ given.
            Starts lane op.now self.old self.new result given × Relates (L.told link.old) (L.told link.new) (NotesStart lane line op.now result given)) }
        ensures fits { OnOk result (Fits (machine_of self.old.mounted lane op.now)) }
        ensures marks { Relates (L.told link.old) (L.told link.new) AddsMarks }
        ensures dials { KeepsPort self.old.port self.new.port (L.told link.old) (L.told link.new) }
        ensures stays { (first : L) → L.stays first link.old → L.stays first link.new }
        ensures honest { L.honest link.old → L.honest link.new }
    {
        let ms = clock.now();
        // It is made after the clock was read, so that it goes into the core by one move.
        let Ok(machine) = self.machine(lane, op) else {
            return Err(Memory);
        };
        match note_start(self.alloc, ms, lane, line, op, link) {
            Ok(now) => {
                self.core.begin(lane, machine, now);
                Ok(())
            }
            Err(wanting) => {
                // Dropped by a call, since the prover takes a drop in place apart, field by field.
                drop(machine);
                Err(wanting)
            }
        }
    }

    /// The machine of an operation.
    fn machine(&self, lane: u8, op: &Op) -> Result<Machine, Memory>
        requires { IsAsked op.now }
        ensures is { IfOk result (λ machine. machine ≡ machine_of self.now.mounted lane op.now) }
        ensures fits { IfOk result Fits }
    {
        Machine::new(self.alloc, &self.mounted, lane, op)
    }

    /// Sends each record that is due, and waits once for one that comes.
    fn exchange<L: Link>(&mut self, link: &mut L) -> Result<(), Halt>
        requires live { IsLive self.old }
        requires some { 1 ≤ self.old.attempts }
        requires told { NoneOver self.old.core }
        requires waits { self.old.core.calls.calls ≢ [] }
        ensures exchanges { OnOk result (Exchanges self.old self.new) }
        ensures goes { Relates (L.told link.old) (L.told link.new) Quietly }
        ensures core { Relates (L.told link.old) (L.told link.new) (CoreBy self.old self.new result) }
        ensures dials { KeepsPort self.old.port self.new.port (L.told link.old) (L.told link.new) }
        ensures stays { (first : L) → L.stays first link.old → L.stays first link.new }
        ensures honest { L.honest link.old → L.honest link.new }
        ensures only { CausedBy result ⊥ }
    {
        match self.send_all(link) {
            Ok(went) => {
                if went {
                    return self.hear(link);
                }
                self.reconnect(link)
            }
            Err(halt) => Err(halt),
        }
    }

    /// Sends each record that is due: whether all went out.
    fn send_all<L: Link>(&mut self, link: &mut L) -> Result<bool, Halt>
        requires live { IsLive self.old }
        requires some { 1 ≤ self.old.attempts }
        requires told { NoneOver self.old.core }
        ensures sends { IfOk result (λ went. SendsAll self.old went self.new) }
        ensures goes { Relates (L.told link.old) (L.told link.new) Quietly }
        ensures core { Relates (L.told link.old) (L.told link.new) (CoreBy self.old self.new result) }
        ensures dials { KeepsPort self.old.port self.new.port (L.told link.old) (L.told link.new) }
        ensures stays { (first : L) → L.stays first link.old → L.stays first link.new }
        ensures honest { L.honest link.old → L.honest link.new }
        ensures only { CausedBy result ⊥ }
    {
        'sending: loop {
            match self.send_next(link) {
                Ok(sending) => match sending {
                    Sending::Nothing => return Ok(true),
                    Sending::Went => {}
                    Sending::Failed => return Ok(false),
                },
                Err(_) => return Err(Halt::Memory),
            }
        }
    }

    /// Sends the next record that is due. If the link fails, the attempts that run have ended.
    fn send_next<L: Link>(&mut self, link: &mut L) -> Result<Sending, Memory>
        requires live { IsLive self.old }
        requires some { 1 ≤ self.old.attempts }
        requires told { NoneOver self.old.core }
        ensures sends { IfOk result (λ sending. SendsOne self.old sending self.new) }
        ensures goes { Relates (L.told link.old) (L.told link.new) Quietly }
        ensures core { Relates (L.told link.old) (L.told link.new) (CoreBy self.old self.new result) }
        ensures dials { KeepsPort self.old.port self.new.port (L.told link.old) (L.told link.new) }
        ensures stays { (first : L) → L.stays first link.old → L.stays first link.new }
        ensures honest { L.honest link.old → L.honest link.new }
    {
        let Some(call) = self.core.next_send() else {
            return Ok(Sending::Nothing);
        };
        self.counts.count(call.attempts, call.purpose.proc);
        match link.send(&call.bytes) {
            Ok(()) => Ok(Sending::Went),
            Err(LinkFault::Failed) => {
                self.fail();
                Ok(Sending::Failed)
            }
            Err(LinkFault::Memory) => Err(Memory),
        }
    }

    /// Waits for a record once.
    fn hear<L: Link>(&mut self, link: &mut L) -> Result<(), Halt>
        requires live { IsLive self.old }
        requires some { 1 ≤ self.old.attempts }
        requires told { NoneOver self.old.core }
        requires sent { WereSent self.old.core.calls.calls }
        requires head { HeadSent self.old.core.calls.calls }
        requires none { first_due self.old.core.calls.calls ≡ None }
        ensures exchanges { OnOk result (Exchanges self.old self.new) }
        ensures goes { Relates (L.told link.old) (L.told link.new) Quietly }
        ensures core { Relates (L.told link.old) (L.told link.new) (CoreBy self.old self.new result) }
        ensures dials { KeepsPort self.old.port self.new.port (L.told link.old) (L.told link.new) }
        ensures stays { (first : L) → L.stays first link.old → L.stays first link.new }
        ensures honest { L.honest link.old → L.honest link.new }
        ensures only { CausedBy result ⊥ }
    {
        let mut rec = self.buffer.lend(self.alloc);
        match link.receive(WAIT_MS, &mut rec) {
            Received::Whole => {
                let rec = Incoming::of(self.alloc, rec);
                self.take(&rec.lent());
                self.buffer.take_record(rec);
                Ok(())
            }
            Received::Silent => {
                self.fail();
                Ok(())
            }
            Received::Failed => {
                self.fail();
                self.reconnect(link)
            }
            Received::Memory => Err(Halt::Memory),
        }
    }

    /// A record came.
    fn take(&mut self, rec: &Lent<'_>)
        requires dropped { self.old.dropped < 65536 }
        requires sent { WereSent self.old.core.calls.calls }
        ensures { Takes self.old rec.now self.new }
    {
        if self.core.take(rec) {
            self.attempts = ATTEMPTS;
            self.dropped = 0;
            return;
        }
        self.dropped += 1;
        if self.dropped == STRAY_RECORDS {
            self.lose();
        }
    }

    /// The attempts that run have ended. If a call is given up the session is lost.
    fn fail(&mut self)
        requires { 1 ≤ self.old.attempts }
        ensures { Fails self.old self.new }
    {
        if self.core.failed() {
            self.attempts -= 1;
        } else {
            self.attempts = 0;
        }
    }

    /// Dials again after the link failed, unless the session is lost; if that doesn't work it is lost.
    fn reconnect<L: Link>(&mut self, link: &mut L) -> Result<(), Halt>
        requires told { 1 ≤ self.old.attempts → NoneOver self.old.core }
        requires due { DueAgain self.old.core }
        ensures redials { OnOk result (Redialed self.old self.new) }
        ensures goes { Relates (L.told link.old) (L.told link.new) Quietly }
        ensures core { Relates (L.told link.old) (L.told link.new) (CoreBy self.old self.new result) }
        ensures dials { KeepsPort self.old.port self.new.port (L.told link.old) (L.told link.new) }
        ensures stays { (first : L) → L.stays first link.old → L.stays first link.new }
        ensures honest { L.honest link.old → L.honest link.new }
        ensures only { CausedBy result ⊥ }
    {
        if self.attempts == 0 {
            return Ok(());
        }
        match redial(self.port, link) {
            Ok(true) => Ok(()),
            Ok(false) => {
                self.lose();
                Ok(())
            }
            Err(_) => Err(Halt::Memory),
        }
    }

    /// The session is lost.
    fn lose(&mut self)
        ensures { self.new ≡ given_up self.old }
    {
        self.core.lose();
        self.attempts = 0;
    }
}

/// Whether the number is less than the least one.
fn is_under(number: u8, least: Option<u8>) -> bool
    ensures { OnTrue result (IsUnder number least) }
{
    match least {
        Some(least) => number < least,
        None => true,
    }
}

/// Whether more lines fit behind those before.
fn have_room(earlier: u64, lines: usize, more: usize) -> bool
    requires before { earlier + 16 * lines < 2 ^ 32 }
    requires few { more ≤ 16384 }
    ensures { OnTrue result (earlier + 16 * lines + 16 * more < 2 ^ 32) }
{
    earlier + 16 * lines as u64 + 16 * more as u64 <= u64::from(u32::MAX)
}

/// Dials again, a few times if need be: whether that worked.
fn redial<L: Link>(port: u16, link: &mut L) -> Result<bool, Memory>
    ensures goes { Relates (L.told link.old) (L.told link.new) (RedialsBy result) }
    ensures dials { DialsOnly port (L.told link.old) (L.told link.new) }
    ensures stays { (first : L) → L.stays first link.old → L.stays first link.new }
    ensures honest { L.honest link.old → L.honest link.new }
{
    for _ in 0..CONNECTS {
        match link.dial(port) {
            Ok(()) => return Ok(true),
            Err(LinkFault::Failed) => {}
            Err(LinkFault::Memory) => return Err(Memory),
        }
    }
    Ok(false)
}
