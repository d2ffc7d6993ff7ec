//! One of the two clients.

ghost use Rattle.std.specs.Prelude.{◌≡◌, ◌≢◌, ◌≤◌, ◌<◌, ◌+◌, ◌-◌, ◌^◌, ℕ, List, All, None, Ok, Err, IfOk, OnOk, length, true, false};
ghost use Rattle.outside.specs.Causes.{Rose};
ghost use Rattle.world_model.specs.declared.entry.Entry.{Entry};
ghost use Rattle.nfs_script.specs.declared.script.ScriptLine.{ScriptLine};
ghost use Rattle.nfs_script.specs.Asked.{IsAskedLine};
ghost use Rattle.lane_session.specs.Holding.{IsHeld, tries_left};
ghost use Rattle.lane_session.specs.Statuses.{CausedBy, IsSessionStatus};
ghost use Rattle.session_setup.specs.Outcomes.{FitsSession, SetsUp};
ghost use Rattle.pair_ends.specs.Ends.{number_of};
ghost use Rattle.pair_runs.specs.Clients.{IsOver, IsReady, Stands, done_by, is_left, label_of, left_of, moved, status_in};
ghost use Rattle.pair_runs.specs.declared.client.State.TheVariants as states;
ghost use Rattle.pair_runs.specs.Given.{pair_settings};
ghost use Rattle.pair_runs.specs.PairGoing.{AdvancesBy, IsOpened, OpensAt, PairPasses, SetsUpAt, TurnsBy, state_of};
ghost use Rattle.pair_runs.specs.PairRuns.{PairRelates};

use crate::settings::settings;
use crate::status;
use client_core::Setup;
use lane_session::{Halt, Session, lose_lines};
use nfs_script::Script;
use outside::{Clock, PairLink, Sink};
use page_cache::PageCache;
use pair_ends::{End, Side};
use session_setup::{SetUp, SetUpFault, set_up};
use session_words::Settings;
use std::alloc::Global;
use std::mem;
use xdr_codec::Memory;

/// A client, and the script that it runs.
#[derive(Drop)]
pub(crate) struct Client {
    pub(crate) alloc: Global,
    pub(crate) side: Side,
    pub(crate) script: Script,
    pub(crate) state: State,
}

/// How far a client is.
#[derive(Drop)]
pub(crate) enum State {
    /// It was set up, and lines may be left.
    Open(Session),
    /// Its set-up lost the session, and no line was answered yet.
    Lost,
    /// Each line has its answer, and this is the status by them.
    Done(u8),
}

impl Client {
    /// Sets the client at that end up. Its calls have xids from this one on. An error is want of memory.
    pub(crate) fn open<P: PairLink>(
        alloc: Global,
        side: Side,
        script: Script,
        first_xid: u32,
        link: &mut P,
    ) -> Result<Client, Memory>
        requires asked { All IsAskedLine script }
        requires few { length script ≤ 16384 }
        requires first { 1 ≤ first_xid }
        requires last { first_xid + 1000000 ≤ 2 ^ 32 - 1 }
        ensures ready { IfOk result IsReady }
        ensures made { IfOk result (λ c. (c.side ≡ side) × (c.script ≡ script)) }
        ensures honest { P.honest link.old → P.honest link.new }
        ensures opens { PairRelates (P.told link.old) (P.told link.new) (OpensAt (number_of side) first_xid script (state_of result)) }
    {
        let state = open_state(alloc, side, &script, first_xid, link)?;
        Ok(Client {
            alloc,
            side,
            script,
            state,
        })
    }

    /// A turn of the client: whether one was under way. It is false once each line of its script has its answer.
    pub(crate) fn turn<P: PairLink, C: Clock, K: Sink>(
        &mut self,
        link: &mut P,
        clock: &mut C,
        out: &mut K,
    ) -> Result<bool, Halt>
        requires { IsReady self.old }
        ensures ready { OnOk result (IsReady self.new) }
        ensures same { self.new ≡ record self.old { state = self.new.state } }
        ensures over { IfOk result (λ went. went ≡ false → IsOver self.new.state) }
        ensures less { IfOk result (λ went. went ≡ true → left_of self.new.state < left_of self.old.state) }
        ensures fewer { OnOk result (left_of self.new.state ≤ left_of self.old.state) }
        ensures honest { P.honest link.old → P.honest link.new }
        ensures later { K.faults out.old ≤ K.faults out.new }
        ensures cause { CausedBy result (Rose (K.faults out.old) (K.faults out.new)) }
        ensures goes { PairPasses (C.readings clock.old) (C.readings clock.new) (P.told link.old) (P.told link.new) (K.written out.old) (K.written out.new)
            (TurnsBy (number_of self.old.side) self.old.script self.old.state self.new.state result) }
    {
        let mut end = End {
            link,
            side: self.side,
        };
        self.turn_at(&mut end, clock, out)
    }

    /// A turn over the client's end.
    fn turn_at<P: PairLink, C: Clock, K: Sink>(
        &mut self,
        end: &mut End<'_, P>,
        clock: &mut C,
        out: &mut K,
    ) -> Result<bool, Halt>
        requires { IsReady self.old }
        ensures ready { OnOk result (IsReady self.new) }
        ensures same { self.new ≡ record self.old { state = self.new.state } }
        ensures over { IfOk result (λ went. went ≡ false → IsOver self.new.state) }
        ensures less { IfOk result (λ went. went ≡ true → left_of self.new.state < left_of self.old.state) }
        ensures fewer { OnOk result (left_of self.new.state ≤ left_of self.old.state) }
        ensures same_reference { end.new.link.ghost_name ≡ end.old.link.ghost_name }
        ensures honest { P.honest end.old.link.now → P.honest end.new.link.now }
        ensures later { K.faults out.old ≤ K.faults out.new }
        ensures cause { CausedBy result (Rose (K.faults out.old) (K.faults out.new)) }
        ensures goes { PairPasses (C.readings clock.old) (C.readings clock.new) (P.told end.old.link.now) (P.told end.new.link.now)
            (K.written out.old) (K.written out.new) (TurnsBy (number_of end.old.side) self.old.script self.old.state self.new.state result) }
    {
        match self.advance(end, clock, out) {
            Ok(done) => Ok(self.settle(done)),
            Err(halt) => Err(halt),
        }
    }

    /// The lines go on by a turn. If none is left, this is the status by the answers, and the state is yet to say so.
    fn advance<P: PairLink, C: Clock, K: Sink>(
        &mut self,
        end: &mut End<'_, P>,
        clock: &mut C,
        out: &mut K,
    ) -> Result<Option<u8>, Halt>
        requires { IsReady self.old }
        ensures same { self.new ≡ record self.old { state = self.new.state } }
        ensures stands { IfOk result (λ done. Stands self.old.script (moved self.new.state done)) }
        ensures less { IfOk result (λ done. done ≡ None → left_of self.new.state < left_of self.old.state) }
        ensures same_reference { end.new.link.ghost_name ≡ end.old.link.ghost_name }
        ensures honest { P.honest end.old.link.now → P.honest end.new.link.now }
        ensures later { K.faults out.old ≤ K.faults out.new }
        ensures cause { CausedBy result (Rose (K.faults out.old) (K.faults out.new)) }
        ensures goes { PairPasses (C.readings clock.old) (C.readings clock.new) (P.told end.old.link.now) (P.told end.new.link.now)
            (K.written out.old) (K.written out.new) (AdvancesBy (number_of end.old.side) self.old.script self.old.state self.new.state result) }
    {
        match &mut self.state {
            State::Open(session) => session_turn(session, &self.script, end, clock, out),
            State::Lost => lost_turn(self.alloc, &self.script, end, clock, out),
            State::Done(status) => Ok(Some(*status)),
        }
    }

    /// The state says what the turn came to: whether lines are left.
    fn settle(&mut self, done: Option<u8>) -> bool
        ensures left { result ≡ is_left done }
        ensures moved { self.new ≡ record self.old { state = moved self.old.state done } }
    {
        match done {
            Some(status) => {
                // Dropped by a call, since the prover takes a drop in place apart, field by field.
                drop(mem::replace(&mut self.state, State::Done(status)));
                false
            }
            None => true,
        }
    }

    /// The status by its answers so far.
    pub(crate) fn status(&self) -> u8
        requires { IsReady self.now }
        ensures is { result ≡ status_in self.now.state }
        ensures range { IsSessionStatus result }
    {
        match &self.state {
            State::Open(session) => session.status(),
            State::Lost => status::WELL,
            State::Done(status) => *status,
        }
    }
}

/// What stands before each line of the client at that end.
pub(crate) fn label(side: Side) -> &'static [u8]
    ensures { result.now ≡ label_of side }
{
    match side {
        Side::A => b"a ",
        Side::B => b"b ",
    }
}

/// A turn of a session: the status by its answers, if no line is left.
fn session_turn<P: PairLink, C: Clock, K: Sink>(
    session: &mut Session,
    script: &Script,
    end: &mut End<'_, P>,
    clock: &mut C,
    out: &mut K,
) -> Result<Option<u8>, Halt>
    requires asked { All IsAskedLine script.now }
    requires few { length script.now ≤ 16384 }
    requires held { IsHeld script.now session.old }
    ensures stands { IfOk result (λ done. Stands script.now (moved (states.Open session.new) done)) }
    ensures less { IfOk result (λ done. done ≡ None → tries_left session.new < tries_left session.old) }
    ensures same_reference { end.new.link.ghost_name ≡ end.old.link.ghost_name }
    ensures honest { P.honest end.old.link.now → P.honest end.new.link.now }
    ensures later { K.faults out.old ≤ K.faults out.new }
    ensures cause { CausedBy result (Rose (K.faults out.old) (K.faults out.new)) }
    ensures goes { PairPasses (C.readings clock.old) (C.readings clock.new) (P.told end.old.link.now) (P.told end.new.link.now)
        (K.written out.old) (K.written out.new) (AdvancesBy (number_of end.old.side) script.now (states.Open session.old) (states.Open session.new) result) }
{
    match session.take_turn(script, label(end.side), end, clock, out) {
        Ok(went) => Ok(status_after(session, went)),
        Err(halt) => Err(halt),
    }
}

fn status_after(session: &Session, went: bool) -> Option<u8>
    ensures { result ≡ done_by went session.now.status }
{
    if went { None } else { Some(session.status()) }
}

/// The turn of a client whose session was lost in its set-up: each line is answered so, and this is the status by the answers.
fn lost_turn<P: PairLink, C: Clock, K: Sink>(
    alloc: Global,
    script: &Script,
    end: &mut End<'_, P>,
    clock: &mut C,
    out: &mut K,
) -> Result<Option<u8>, Halt>
    requires asked { All IsAskedLine script.now }
    ensures stands { IfOk result (λ done. Stands script.now (moved states.Lost done)) }
    ensures some { IfOk result (λ done. done ≢ None) }
    ensures same_reference { end.new.link.ghost_name ≡ end.old.link.ghost_name }
    ensures honest { P.honest end.old.link.now → P.honest end.new.link.now }
    ensures later { K.faults out.old ≤ K.faults out.new }
    ensures cause { CausedBy result (Rose (K.faults out.old) (K.faults out.new)) }
    ensures goes { PairPasses (C.readings clock.old) (C.readings clock.new) (P.told end.old.link.now) (P.told end.new.link.now)
        (K.written out.old) (K.written out.new) (AdvancesBy (number_of end.old.side) script.now states.Lost states.Lost result) }
{
    match lose_lines(alloc, script, label(end.side), end, clock, out) {
        Ok(()) => Ok(Some(status::of_lost(script))),
        Err(halt) => Err(halt),
    }
}

fn open_state<P: PairLink>(
    alloc: Global,
    side: Side,
    script: &Script,
    first_xid: u32,
    link: &mut P,
) -> Result<State, Memory>
    requires few { length script.now ≤ 16384 }
    requires first { 1 ≤ first_xid }
    requires last { first_xid + 1000000 ≤ 2 ^ 32 - 1 }
    ensures stands { IfOk result (Stands script.now) }
    ensures honest { P.honest link.old → P.honest link.new }
    ensures opens { PairRelates (P.told link.old) (P.told link.new) (OpensAt (number_of side) first_xid script.now result) }
{
    let settings = settings();
    let mut end = End { link, side };
    match set_up_at(alloc, &settings, first_xid, &mut end) {
        Ok(ready) => begin(alloc, &settings, script, first_xid, &ready),
        Err(fault) => unopened(fault),
    }
}

/// What a client is without a set-up: its session is lost, but for want of memory. The root is given, so no mount is refused.
fn unopened(fault: SetUpFault) -> Result<State, Memory>
    ensures stands { (script : List ScriptLine) → IfOk result (Stands script) }
    ensures opened { (first : ℕ) (script : List ScriptLine) (h : List Entry) → SetsUp pair_settings first (Err fault) h → IsOpened first script result h }
{
    match fault {
        SetUpFault::Memory => Err(Memory),
        SetUpFault::Lost(_) => Ok(State::Lost),
        SetUpFault::Refused(_) => Ok(State::Lost),
    }
}

fn set_up_at<P: PairLink>(
    alloc: Global,
    settings: &Settings,
    first_xid: u32,
    end: &mut End<'_, P>,
) -> Result<SetUp, SetUpFault>
    requires settings { settings.now ≡ pair_settings }
    requires first { 1 ≤ first_xid }
    requires last { first_xid + 1000000 ≤ 2 ^ 32 - 1 }
    ensures fits { IfOk result (FitsSession settings.now first_xid) }
    ensures same_reference { end.new.link.ghost_name ≡ end.old.link.ghost_name }
    ensures honest { P.honest end.old.link.now → P.honest end.new.link.now }
    ensures opens { PairRelates (P.told end.old.link.now) (P.told end.new.link.now) (SetsUpAt (number_of end.old.side) first_xid result) }
{
    set_up(alloc, settings, first_xid, end)
}

/// A session of the script, none of whose lines has begun.
fn begin(
    alloc: Global,
    settings: &Settings,
    script: &Script,
    first_xid: u32,
    ready: &SetUp,
) -> Result<State, Memory>
    requires settings { settings.now ≡ pair_settings }
    requires fits { FitsSession settings.now first_xid ready.now }
    requires few { length script.now ≤ 16384 }
    requires first { 1 ≤ first_xid }
    requires last { first_xid + 1000000 ≤ 2 ^ 32 - 1 }
    ensures stands { IfOk result (Stands script.now) }
    ensures opened { (h : List Entry) → SetsUp pair_settings first_xid (Ok ready.now) h → IsOpened first_xid script.now result h }
{
    let pages = PageCache::new(alloc)?;
    let setup = Setup {
        root: ready.root,
        rsize: ready.rsize,
        wsize: ready.wsize,
        first_xid: ready.next_xid,
        limit: ready.left,
        cred: settings.cred,
        lives: settings.lives,
        pages,
    };
    match Session::new(alloc, settings, setup, ready.tally) {
        Ok(session) => Ok(State::Open(session)),
        Err(memory) => Err(memory),
    }
}
