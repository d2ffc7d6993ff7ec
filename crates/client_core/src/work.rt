//! What the core works on, step by step.

ghost use Rattle.std.specs.Prelude.{◌≡◌, ◌≤◌, ◌<◌, ◌+◌, ◌-◌, ◌++◌, ◌∷◌, [], ◌^◌, true, Ok, length, IfOk, IfErr, IfSome, OnOk, OnErr, option_map, ℕ, List};
ghost use Rattle.std.specs.Bool.{OnTrue};
ghost use Rattle.std.specs.Borrow.{sem};
ghost use Rattle.rpc_retry.specs.Held.{next_xid};
ghost use Rattle.rpc_retry.specs.Put.{check_of};
ghost use Rattle.rpc_retry.specs.Sound.{IsRecord};
ghost use Rattle.client_shelf.specs.Coming.{reply_of};
ghost use Rattle.client_shelf.specs.Spelling.{IsSpellable};
ghost use Rattle.file_ops.specs.Ready.{IsReady};
ghost use Rattle.world_model.specs.declared.answer.Fault.TheVariants as faults;
ghost use Rattle.world_model.specs.Messages.{proc_of, SpellsArguments};
ghost use Rattle.op_machines.specs.declared.machine.Machine.{Machine as Op};
ghost use Rattle.op_machines.specs.Fits.{Fits};
ghost use Rattle.op_machines.specs.MayStep.{MayStep};
ghost use Rattle.client_core.specs.WorkEnds.{ends_as};
ghost use Rattle.client_core.specs.Fresh.{IsFresh};
ghost use Rattle.client_core.specs.declared.lane.State.{State as LaneState};
ghost use Rattle.client_core.specs.Lanes.{is_busy_at, IsAt, AnsweredFrom, waits};
ghost use Rattle.client_core.specs.Numbers.{AreLanes, IsIdle};
ghost use Rattle.client_core.specs.View.{IsBound, IsSound, turn_at, unmade_turn, has_room};
ghost use Rattle.client_core.specs.Between.{AwaitsRefusal, AwaitsCall, Awaits};
ghost use Rattle.client_core.specs.Steps.{IsBusyAt, StartsLane, Rests, StirsIf, StirsOne, Leads, Asks, Makes, PutsCall, IsRecordOf, SpellsCall, IsUnmade, Refuses, IsSpent, EndsAs, TakesAt, TakesCall, counted, Moves, Still, Begins, Hears, HearsOwn, IsSaid, SendsBy, call_sent, FailsBy, AnswersBy, lost};
ghost use Rattle.xdr_codec.specs.Spells.{Wrote};

use crate::lane::{Lane, Purpose, State, busy_at, least_answered, lose_all, over_at};
use crate::laws::steps_hold;
use crate::setup::Setup;
use attr_cache::AttrCache;
use call_replies::came_of;
use client_shelf::{Came, Shelf, Step, Turn};
use limits::{CALLS_IN_FLIGHT, LANE_COUNT};
use mount_calls::{mount_proc, write_mount_call};
use nfs_dir_calls::{dir_proc, write_dir_call};
use nfs_file_calls::{file_proc, write_file_call};
use nfs_types::NFS_PROGRAM;
use op_machines::Machine;
use page_cache::PageCache;
use rpc_message::KeptCred;
use rpc_retry::{AfterFailure, Calls, Waiting};
use std::alloc::Global;
use std::marker::Model;
use world_model::{Answer, Call, Fault};
use xdr_codec::{Lent, Memory, Record, Writer};

/// Lanes in order of beginning, their shelf and their calls. Between the step of an operation and the call that it asks
/// for, what the next step needs doesn't hold yet; so it is no part of this type.
#[derive(Drop)]
pub(crate) struct Work {
    alloc: Global,
    wsize: u32,
    calls: Calls<Purpose>,
    shelf: Shelf,
    lanes: Vec<Lane>,
    clock: u64,
    moments: u64,
    begun: u64,
    lost: bool,
}

impl Model for Work {
    ghost use Rattle.std.specs.Prelude.{◌≤◌};
    ghost use Rattle.std.specs.Vec.{vec_capacity};
    ghost use Rattle.std.specs.Coded.{codes};
    ghost use Rattle.client_shelf.specs.contracts.shelf.Shelf.{the_row as shelf_row};
    ghost use Rattle.client_core.specs.contracts.lane.Lane.{the_row as lane_row};
    ghost use Rattle.client_core.specs.View.{View};

    ghost Value = { View };

    ghost coded = { Prim.hlevel (codes, shelf_row.coded, lane_row.coded) };

    ghost view = { λ c. record { calls = c.calls; shelf = c.shelf; lanes = c.lanes.items; wsize = c.wsize; clock = c.clock; moments = c.moments; begun = c.begun; lost = c.lost } };

    ghost invariant = { λ c. 16 ≤ vec_capacity c.lanes };
}

impl Work {
    /// No operation is under way.
    pub(crate) fn new(alloc: Global, setup: Setup) -> Result<Work, Memory>
        requires first { 1 ≤ setup.first_xid }
        requires last { setup.first_xid + setup.limit ≤ 2 ^ 32 - 1 }
        ensures { IfOk result (IsFresh setup) }
    {
        setup.pages.is_sound();
        // What may fail comes first, so that a failure has no shelf to drop.
        let lanes = Vec::with_capacity(alloc, LANE_COUNT)?;
        let mut shelf = Shelf::with_pages(alloc, setup.pages)?;
        shelf.attrs = AttrCache::with_lives(alloc, setup.lives);
        let cred = KeptCred::spelled(alloc, setup.cred)?;
        Ok(Work {
            alloc,
            wsize: setup.wsize,
            calls: Calls::with_cred(alloc, setup.first_xid, setup.limit, cred),
            shelf,
            lanes,
            clock: 0,
            moments: 0,
            begun: 0,
            lost: false,
        })
    }

    /// Begins an operation in a lane of 1 to 16 that has none. A reading of the clock below an earlier one counts as the greatest
    /// earlier one. In a lost session it is answered `Lost` at once.
    pub(crate) fn begin(&mut self, lane: u8, machine: Machine, now: u64)
        requires fits { Fits machine }
        requires idle { IsIdle lane self.old.lanes }
        requires few { self.old.begun < 2 ^ 32 }
        requires sound { IsSound self.old }
        ensures begins { Begins self.old lane machine now self.new }
        ensures sound { IsSound self.new }
    {
        self.count(now);
        self.a_lane_is_left(lane);
        if self.is_lost() {
            // Dropped by a call, since the prover takes a drop in place apart, field by field.
            drop(machine);
            self.push(lane, State::Over(Answer::Refused(Fault::Lost)));
            return;
        }
        self.start(lane, machine);
        self.settle();
    }

    /// The call whose record is sent next; none in a lost session.
    pub(crate) fn next_send(&mut self) -> Option<&Waiting<Purpose>>
        ensures* ends { sem 𝓛 (ends_as self.entry (SendsBy self.old (option_map (λ call. call.now.bytes) result))) }
        ensures lends { option_map (λ call. call.now) result ≡ call_sent self.old }
    {
        if self.lost {
            return None;
        }
        self.calls.next_send()
    }

    /// Takes a record: whether it was a reply to a call that waits. The operation that made the call makes the first step,
    /// then the others go on as far as they can.
    pub(crate) fn take(&mut self, rec: &Lent<'_>) -> bool
        requires sound { IsSound self.old }
        ensures hears { Hears self.old rec.now result self.new }
        ensures sound { IsSound self.new }
    {
        let Some(purpose) = self.take_call(rec.bytes()) else {
            return false;
        };
        self.deliver(purpose, rec);
        self.settle();
        true
    }

    /// The attempts that run have ended; false exactly if a call was given up, and then the session is lost.
    pub(crate) fn failed(&mut self) -> bool
        ensures { FailsBy self.old result self.new }
    {
        match self.calls.failed() {
            AfterFailure::Resend => true,
            AfterFailure::GivenUp(_) => {
                self.lose();
                false
            }
        }
    }

    /// The session is lost: each operation that has no answer is answered `Lost`, and so is each later one.
    pub(crate) fn lose(&mut self)
        ensures { self.new ≡ lost self.old }
    {
        self.lost = true;
        lose_all(&mut self.lanes);
    }

    /// The answer of a lane, which is idle then. None exactly if it has none.
    pub(crate) fn answer(&mut self, lane: u8) -> Option<Answer>
        ensures { AnswersBy self.old lane result self.new }
    {
        let at = over_at(&self.lanes, lane)?;
        let State::Over(answer) = self.lanes.remove(at).state else {
            return None;
        };
        Some(answer)
    }

    /// The least number of a lane with an answer that wasn't fetched.
    pub(crate) fn least_answered(&self) -> Option<u8>
        ensures { AnsweredFrom result self.now.lanes }
    {
        least_answered(&self.lanes)
    }

    /// The pages that are kept.
    pub(crate) fn into_pages(self) -> PageCache
        ensures { result ≡ self.shelf.pages }
    {
        let shelf = self.shelf;
        shelf.pages
    }

    /// Whether the session is lost.
    fn is_lost(&self) -> bool
        ensures { result ≡ self.now.lost }
    {
        self.lost
    }

    /// A further operation is counted and gets its moment, and the clock was read.
    fn count(&mut self, now: u64)
        requires few { self.old.begun < 2 ^ 32 }
        requires sound { IsSound self.old }
        ensures counts { self.new ≡ counted self.old now }
        ensures seq { self.new.shelf.seq < self.new.moments }
        ensures sound { IsSound self.new }
    {
        self.calls.is_sound();
        self.clock = self.clock.max(now);
        self.begun += 1;
        self.moments += 1;
    }

    /// At most 32 calls wait: a fact for proofs.
    pub(crate) fn calls_are_few(&self)
        ensures { length self.now.calls.calls ≤ 32 }
    {
        self.calls.is_sound();
    }

    /// What a step is told now.
    fn turn(&self) -> Turn
        requires sound { IsSound self.now }
        ensures turn { result ≡ turn_at self.now }
        ensures may { MayStep self.now.wsize result self.now.shelf }
    {
        self.calls.is_sound();
        Turn {
            xid: self.calls.next_xid(),
            moment: self.moments + 1,
            now: self.clock,
            room: self.has_room(),
        }
    }

    /// What a step is told that takes a refusal in place of its call.
    fn unmade_turn(&self) -> Turn
        requires bound { IsBound self.now }
        requires ready { IsReady (next_xid self.now.calls + 1) self.now.shelf.seq self.now.shelf.back }
        ensures turn { result ≡ unmade_turn self.now }
        ensures may { MayStep self.now.wsize result self.now.shelf }
    {
        self.calls.is_sound();
        Turn {
            xid: 0,
            moment: self.moments + 1,
            now: self.clock,
            room: false,
        }
    }

    /// Whether a further call may wait.
    fn has_room(&self) -> bool
        ensures { result ≡ has_room self.now }
    {
        self.calls.waiting() < CALLS_IN_FLIGHT
    }

    /// How many lanes have an operation.
    fn lane_count(&self) -> usize
        ensures { result ≡ length self.now.lanes }
    {
        self.lanes.len()
    }

    /// The number of the lane at a place.
    fn number_at(&self, at: usize) -> u8
        requires { at < length self.now.lanes }
        ensures { (number : ℕ) (state : LaneState) → IsAt self.now.lanes at number state → result ≡ number }
    {
        self.lanes[at].number
    }

    /// Goes on with each lane as far as it can, while a call may be made.
    fn settle(&mut self)
        requires sound { IsSound self.old }
        ensures moves { Moves self.old self.new }
        ensures still { Still self.new }
        ensures sound { IsSound self.new }
    {
        steps_hold();
        'settling: while self.has_room() {
            if !self.stir_one() {
                return;
            }
        }
    }

    /// Goes on with the first lane that can: whether there was one.
    fn stir_one(&mut self) -> bool
        requires sound { IsSound self.old }
        requires room { has_room self.old ≡ true }
        ensures stirs { StirsOne self.old result self.new }
        ensures sound { IsSound self.new }
    {
        for at in 0..self.lanes.len() {
            if self.stir(at) {
                return true;
            }
        }
        false
    }

    /// There is room for a further lane if one of 1 to 16 has no operation: a fact for proofs.
    fn a_lane_is_left(&self, number: u8)
        requires idle { IsIdle number self.now.lanes }
        requires lanes { AreLanes self.now.lanes }
        ensures { length self.now.lanes < 16 }
    {
        let _number = number;
    }

    /// One lane more, the last.
    fn push(&mut self, number: u8, state: State)
        requires { length self.old.lanes < 16 }
        ensures { self.new ≡ record self.old { lanes = self.old.lanes ++ record { number = number; state = state } ∷ [] } }
    {
        self.lanes.push_reserved(Lane { number, state });
    }

    /// The operation of a new lane makes its first step.
    fn start(&mut self, number: u8, mut machine: Machine)
        requires fits { Fits machine }
        requires idle { IsIdle number self.old.lanes }
        requires seq { self.old.shelf.seq < self.old.moments }
        requires sound { IsSound self.old }
        ensures starts { StartsLane self.old number machine self.new }
        ensures sound { IsSound self.new }
    {
        steps_hold();
        self.a_lane_is_left(number);
        let turn = self.turn();
        let at = self.lane_count();
        let next = machine.start(self.alloc, self.wsize, turn, &mut self.shelf);
        self.push(number, State::Busy(machine));
        self.lead(at, turn, next);
    }

    /// Goes on with one lane, if it can.
    fn stir(&mut self, at: usize) -> bool
        requires within { at < length self.old.lanes }
        requires room { has_room self.old ≡ true }
        requires sound { IsSound self.old }
        ensures stirs { StirsIf self.old at result self.new }
        ensures sound { IsSound self.new }
    {
        if self.rests_at(at) {
            return false;
        }
        self.stir_awake(at)
    }

    /// Whether the operation of the lane at a place waits for a call of its own or for its turn, or has its answer. It takes no
    /// step to tell, and isn't said of each that waits.
    fn rests_at(&self, at: usize) -> bool
        requires { at < length self.now.lanes }
        ensures { OnTrue result (Rests self.now at) }
    {
        self.lanes[at].rests(&self.shelf)
    }

    /// The same, by a step of its operation.
    fn stir_awake(&mut self, at: usize) -> bool
        requires within { at < length self.old.lanes }
        requires room { has_room self.old ≡ true }
        requires sound { IsSound self.old }
        ensures stirs { StirsIf self.old at result self.new }
        ensures sound { IsSound self.new }
    {
        steps_hold();
        let turn = self.turn();
        let next = self.lanes[at].resume(self.alloc, self.wsize, turn, &mut self.shelf);
        if waits(&next) {
            drop(next);
            return false;
        }
        self.lead(at, turn, next);
        true
    }

    /// The call that a record replies to waits no more: what it was made for. None exactly if no call waits for it, and
    /// then nothing is changed.
    fn take_call(&mut self, rec: &[u8]) -> Option<Purpose>
        requires sound { IsSound self.old }
        ensures takes { TakesCall self.old rec.now result self.new }
        ensures seq { IfSome result (λ purpose. self.new.shelf.seq < self.new.moments) }
        ensures sound { IsSound self.new }
    {
        self.calls.is_sound();
        let (_xid, purpose) = self.calls.take_purpose(rec)?;
        self.moments += 1;
        Some(purpose)
    }

    /// A record reaches the operation that made its call. If that has its answer nothing happens.
    fn deliver(&mut self, purpose: Purpose, rec: &Lent<'_>)
        requires seq { self.old.shelf.seq < self.old.moments }
        requires sound { IsSound self.old }
        ensures hears { HearsOwn self.old rec.now purpose self.new }
        ensures says { IsSaid purpose.proc rec.now }
        ensures sound { IsSound self.new }
    {
        let came = came_of(purpose.proc, rec);
        let Some(at) = busy_at(&self.lanes, purpose.lane) else {
            return;
        };
        self.hear(at, purpose.sent, &came);
    }

    /// The operation of the lane at a place takes what came of its call.
    fn hear(&mut self, at: usize, sent: Turn, came: &Came<'_>)
        requires within { at < length self.old.lanes }
        requires busy { is_busy_at at self.old.lanes ≡ true }
        requires seq { self.old.shelf.seq < self.old.moments }
        requires sound { IsSound self.old }
        ensures takes { TakesAt self.old at sent (reply_of came.now) self.new }
        ensures sound { IsSound self.new }
    {
        steps_hold();
        let turn = self.turn();
        let next = self.lanes[at].took(self.alloc, self.wsize, sent, came, turn, &mut self.shelf);
        self.lead(at, turn, next);
    }

    /// What a step of the lane at a place leads to.
    fn lead(&mut self, at: usize, turn: Turn, next: Step)
        requires within { at < length self.old.lanes }
        requires busy { is_busy_at at self.old.lanes ≡ true }
        requires turn { turn ≡ turn_at self.old }
        requires awaits { Awaits self.old at next }
        ensures leads { (number : ℕ) (machine : Op) → IsBusyAt self.old at number machine → Leads self.old at number machine next self.new }
        ensures sound { IsSound self.new }
    {
        match next {
            Step::Send(call) => self.ask(at, turn, &call),
            Step::Wait => {}
            Step::Done(answer) => self.end(at, answer),
        }
    }

    /// The operation of the lane at a place has its answer.
    fn end(&mut self, at: usize, answer: Answer)
        requires within { at < length self.old.lanes }
        ensures { EndsAs self.old at answer self.new }
    {
        self.lanes[at].end(answer);
    }

    /// The call is made, or reaches its operation as a refusal.
    fn ask(&mut self, at: usize, turn: Turn, call: &Call)
        requires within { at < length self.old.lanes }
        requires busy { is_busy_at at self.old.lanes ≡ true }
        requires turn { turn ≡ turn_at self.old }
        requires awaits { AwaitsCall self.old at call.now }
        ensures asks { (number : ℕ) (machine : Op) → IsBusyAt self.old at number machine → Asks self.old at number machine call.now self.new }
        ensures sound { IsSound self.new }
    {
        let lane = self.number_at(at);
        let Err(fault) = self.make(lane, turn, call) else {
            return;
        };
        self.refuse(at, turn, fault);
    }

    /// The call waits for a lane, under the xid of the turn.
    fn make(&mut self, lane: u8, turn: Turn, call: &Call) -> Result<(), Fault>
        requires bound { IsBound self.old }
        requires room { has_room self.old ≡ true }
        requires spells { IsSpellable call.now }
        requires turn { turn ≡ turn_at self.old }
        ensures made { OnOk result (Makes self.old lane call.now self.new) }
        ensures fault { IfErr result (IsUnmade self.old) }
        ensures err { OnErr result (self.new ≡ self.old) }
    {
        self.may_make()?;
        let proc = procedure_of(call);
        let Ok(bytes) = self.spell(proc, call) else {
            return Err(Fault::Memory);
        };
        let purpose = Purpose {
            lane,
            proc,
            sent: turn,
        };
        self.put(purpose, bytes)
    }

    /// The record of a call of this procedure under the next xid. Its arguments are written behind its head, and not copied.
    fn spell(&self, proc: u32, call: &Call) -> Result<Record, Memory>
        requires { IsSpellable call.now }
        ensures { IfOk result (SpellsCall self.now proc call.now) }
    {
        let mut writer = self.calls.begin(NFS_PROGRAM, proc)?;
        write_arguments(&mut writer, call)?;
        writer.finish_record(self.alloc)
    }

    /// The call of a record waits for a purpose.
    fn put(&mut self, purpose: Purpose, bytes: Record) -> Result<(), Fault>
        requires bound { IsBound self.old }
        requires may { check_of self.old.calls ≡ Ok tt }
        requires spelled { IsRecord self.old.calls.cred (next_xid self.old.calls) bytes }
        ensures ok { OnOk result ((args : List ℕ) → IsRecordOf self.old purpose.proc args bytes → PutsCall self.old purpose args self.new) }
        ensures fault { IfErr result (λ fault. fault ≡ faults.Memory) }
        ensures err { OnErr result (self.new ≡ self.old) }
    {
        self.calls.is_sound();
        let Ok(_xid) = self.calls.put_checked(bytes, purpose) else {
            return Err(Fault::Memory);
        };
        self.moments += 1;
        Ok(())
    }

    /// Spent exactly if as many calls were made as may be.
    fn may_make(&self) -> Result<(), Fault>
        requires room { has_room self.now ≡ true }
        ensures ok { OnOk result (check_of self.now.calls ≡ Ok tt) }
        ensures err { IfErr result (IsSpent self.now) }
    {
        match self.calls.check() {
            Ok(()) => Ok(()),
            Err(_) => Err(Fault::Spent),
        }
    }

    /// A call that isn't made reaches its operation as a refusal, in the same step. No call may be made then.
    fn refuse(&mut self, at: usize, sent: Turn, fault: Fault)
        requires within { at < length self.old.lanes }
        requires busy { is_busy_at at self.old.lanes ≡ true }
        requires turn { sent ≡ turn_at self.old }
        requires unmade { IsUnmade self.old fault }
        requires awaits { AwaitsRefusal self.old at }
        ensures refuses { (number : ℕ) (machine : Op) → IsBusyAt self.old at number machine → Refuses self.old at number machine self.new }
        ensures sound { IsSound self.new }
    {
        steps_hold();
        let turn = self.unmade_turn();
        let came = Came::Refused(fault);
        let next = self.lanes[at].took(self.alloc, self.wsize, sent, &came, turn, &mut self.shelf);
        let Step::Done(answer) = next else {
            return;
        };
        self.end(at, answer);
    }
}

/// Whether the step of an operation waits.
fn waits(next: &Step) -> bool
    ensures { result ≡ waits next.now }
{
    match next {
        Step::Wait => true,
        Step::Send(_) | Step::Done(_) => false,
    }
}

/// The number of a procedure.
fn procedure_of(call: &Call) -> u32
    ensures { result ≡ proc_of call.now }
{
    match call {
        Call::File(call) => file_proc(call),
        Call::Dir(call) => dir_proc(call),
        Call::Mount(call) => mount_proc(call),
    }
}

/// Appends the arguments of a call.
fn write_arguments(w: &mut Writer, call: &Call) -> Result<(), Memory>
    requires { IsSpellable call.now }
    ensures { OnOk result (Wrote (SpellsArguments call.now) w.old w.new) }
{
    match call {
        Call::File(call) => write_file_call(w, call),
        Call::Dir(call) => write_dir_call(w, call),
        Call::Mount(call) => write_mount_call(w, call),
    }
}
