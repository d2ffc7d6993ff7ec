//! Making stable what is pending of a file.

ghost use Rattle.std.specs.Prelude.{◌≡◌, ◌<◌, ◌≤◌, ◌-◌, true, nat_lt, None, take};
ghost use Rattle.std.specs.Bool.{OnTrue};
ghost use Rattle.nfs_file_calls.specs.declared.call.FileCall.TheVariants.{Write};
ghost use Rattle.world_model.specs.declared.message.Call.TheVariants as calls;
ghost use Rattle.write_back.specs.Choice.{chosen};
ghost use Rattle.write_back.specs.Pieces.{piece_under};
ghost use Rattle.write_back.specs.Files.{of_file, all_pending, OnFile, IsFree};
ghost use Rattle.client_shelf.specs.Coming.{reply_of};
ghost use Rattle.commit_verf.specs.Decisions.{decided, verdict_of};
ghost use Rattle.write_back.specs.Changes.{lost};
ghost use Rattle.file_ops.specs.Judging.{after_of};
ghost use Rattle.client_shelf.specs.Learning.{Learns};
ghost use Rattle.file_ops.specs.Rests.{SaveRests, TurnRests};
ghost use Rattle.file_ops.specs.Saves.{answered, told_of, pages_told, pages_after, counts_all, counts_whole, Lands, LandsWhole, refused_by, ended_by, TakesWrite, TakesVerf, TakesCommit, Takes, TakesTold, TakesBusy, TakesFirst, last_next, last_saving, commit_again, commit_repeats, commit_of, less_waiting, may_again, may_commit, told_busy, CopiesPiece, begun, is_sending, is_again, commit_phase, refused_next, may_send, CallsWrite, Sends, Goes, next_sent, saving_sent};

use crate::failing::{drop_pages, note_failed};
use crate::judging::{WriteTold, after_of, commit_told, write_told};
use crate::put_off::MOST_TIMES;
use attr_cache::AttrCache;
use client_shelf::busy::{JUKEBOX, again, fails_busy};
use client_shelf::learning::learn;
use client_shelf::{Came, Repeats, Shelf, Turn};
use commit_verf::{Verdict, decide};
use nfs_file_calls::FileCall;
use nfs_types::{Handle, Verf};
use page_cache::PageCache;
use std::alloc::Global;
use world_model::{Call, Fault};
use write_back::WriteBack;
use xdr_codec::{Blob, Memory};

/// How far a save is.
#[derive(Clone, Copy, Debug, PartialEq, Eq)]
pub enum Phase {
    /// What is pending is sent.
    Sending,
    /// A COMMIT was asked for.
    Committing,
    /// What the server may have lost is sent again.
    Resending,
    /// A second COMMIT was asked for.
    CommittingAgain,
}

/// What a step of a save comes to.
#[derive(Debug, Drop)]
pub(crate) enum SavingStep {
    /// It asks for this call.
    Send(Call),
    /// It waits.
    Wait,
    /// It has ended.
    Ended(Result<(), Fault>),
}

/// Makes stable what was pending of a file when it began.
#[derive(Clone, Copy, Debug)]
pub struct Saving {
    /// The file.
    pub file: Handle,
    /// The number of the last write that it is for.
    pub upto: u64,
    /// How far it is.
    pub phase: Phase,
    /// How many of its calls wait.
    pub waiting: u32,
    /// Why it was refused.
    pub refusal: Option<Fault>,
    /// How often its COMMIT was put off (RFC 1813, NFS3ERR_JUKEBOX), the first one and a further one.
    pub put_off: u8,
}

/// The most calls that wait at once.
const MOST_CALLS: u32 = 32;

impl Saving {
    /// Nothing was sent yet.
    pub(crate) fn begin(file: &Handle, upto: u64) -> Saving
        ensures { result ≡ begun file.now upto }
    {
        Saving {
            file: *file,
            upto,
            phase: Phase::Sending,
            waiting: 0,
            refusal: None,
            put_off: 0,
        }
    }

    /// Goes on: sends the next piece, asks for the COMMIT, waits or ends.
    pub(crate) fn go(
        &mut self,
        alloc: Global,
        wsize: u32,
        turn: Turn,
        by_reply: bool,
        back: &mut WriteBack,
    ) -> SavingStep
        requires size { 1 ≤ wsize }
        requires free { IsFree turn.xid self.old.file back.old }
        ensures { Goes wsize turn.xid turn.room by_reply self.old back.old result self.new back.new }
    {
        if let Some(fault) = self.refusal {
            return refused_next(self.waiting, fault);
        }
        if !self.may_send(turn.room) {
            return SavingStep::Wait;
        }
        self.send(alloc, wsize, turn.xid, by_reply, back)
    }

    /// Whether it waits for calls of its own, so that a step that no reply made possible does nothing. It isn't said of each that
    /// does.
    fn rests(&self, back: &WriteBack) -> bool
        ensures { OnTrue result (SaveRests self.now back.now) }
    {
        match self.refusal {
            Some(_) => self.has_waiting(),
            None => self.rests_unrefused(back),
        }
    }

    /// The same of one that wasn't refused.
    fn rests_unrefused(&self, back: &WriteBack) -> bool
        requires { self.now.refusal ≡ None }
        ensures { OnTrue result (SaveRests self.now back.now) }
    {
        if self.may_send(true) {
            return self.rests_sent(back);
        }
        true
    }

    /// The same of one that may send, if it had something to send.
    fn rests_sent(&self, back: &WriteBack) -> bool
        requires unrefused { self.now.refusal ≡ None }
        requires may { may_send true self.now ≡ true }
        ensures { OnTrue result (SaveRests self.now back.now) }
    {
        if self.has_waiting() {
            return back.is_sent(&self.file, self.upto);
        }
        false
    }

    /// Whether a call of its own waits.
    fn has_waiting(&self) -> bool
        ensures { result ≡ nat_lt 0 self.now.waiting }
    {
        self.waiting > 0
    }

    fn may_send(&self, room: bool) -> bool
        ensures { result ≡ may_send room self.now }
    {
        room && is_sending(self.phase) && self.waiting < MOST_CALLS
    }

    /// Sends the next piece, or goes on if there is none.
    fn send(
        &mut self,
        alloc: Global,
        wsize: u32,
        xid: u32,
        by_reply: bool,
        back: &mut WriteBack,
    ) -> SavingStep
        requires size { 1 ≤ wsize }
        requires free { IsFree xid self.old.file back.old }
        requires few { self.old.waiting < 32 }
        ensures { Sends xid by_reply (chosen self.old.upto wsize (of_file self.old.file back.old)) self.old back.old result self.new back.new }
    {
        match write_call(alloc, &self.file, self.upto, wsize, xid, back) {
            Ok(Some(call)) => {
                self.waiting += 1;
                SavingStep::Send(call)
            }
            Ok(None) => self.sent_all(by_reply),
            Err(_memory) => refused_next(self.waiting, Fault::Memory),
        }
    }

    /// Nothing is left to send.
    fn sent_all(&mut self, by_reply: bool) -> SavingStep
        ensures next { result ≡ next_sent by_reply self.old }
        ensures saving { self.new ≡ saving_sent by_reply self.old }
    {
        if self.waiting > 0 {
            return SavingStep::Wait;
        }
        if is_again(self.phase) && by_reply {
            return SavingStep::Ended(Ok(()));
        }
        self.phase = commit_phase(self.phase);
        self.waiting = 1;
        SavingStep::Send(commit_of(&self.file))
    }

    /// Takes what came of its call, which the step with the turn `sent` made, and goes on.
    pub(crate) fn took(
        &mut self,
        alloc: Global,
        wsize: u32,
        sent: Turn,
        came: &Came<'_>,
        turn: Turn,
        attrs: &mut AttrCache,
        pages: &mut PageCache,
        repeats: &mut Repeats,
        back: &mut WriteBack,
    ) -> SavingStep
        requires size { 1 ≤ wsize }
        requires free { IsFree turn.xid self.old.file back.old }
        requires moment { 1 ≤ turn.moment }
        ensures step { Takes wsize sent turn (reply_of came.now) repeats.old self.old back.old result self.new back.new repeats.new }
        ensures pages { pages.new ≡ pages_after sent.xid (turn.moment - 1) (reply_of came.now) self.old back.old pages.old }
        ensures attrs { Learns self.old.file (after_of (reply_of came.now)) sent.now attrs.old attrs.new }
    {
        learn(attrs, &self.file, &after_of(came), sent.now);
        match self.phase {
            Phase::Sending | Phase::Resending => {
                let moment = turn.moment - 1;
                let told = judge_write(&self.file, sent.xid, came, moment, pages, back);
                self.take_told(alloc, wsize, sent, told, turn, repeats, back)
            }
            Phase::Committing => {
                let told = commit_told(came);
                self.take_first(alloc, wsize, sent, told, turn, repeats, back)
            }
            Phase::CommittingAgain => self.take_last(sent, commit_told(came), turn, repeats),
        }
    }

    /// A WRITE was answered. If the server is busy and nothing was refused, it is made again.
    fn take_told(
        &mut self,
        alloc: Global,
        wsize: u32,
        sent: Turn,
        told: WriteTold,
        turn: Turn,
        repeats: &mut Repeats,
        back: &mut WriteBack,
    ) -> SavingStep
        requires size { 1 ≤ wsize }
        requires free { IsFree turn.xid self.old.file back.old }
        ensures { TakesTold wsize sent turn told repeats.old self.old back.old result self.new back.new repeats.new }
    {
        if self.may_again(told_busy(&told)) {
            return self.take_busy(alloc, wsize, sent, told, turn, repeats, back);
        }
        again(false, sent, turn, repeats);
        self.take_write(alloc, wsize, sent.xid, told, turn, back)
    }

    /// Whether a call is made again if the server is busy.
    fn may_again(&self, busy: bool) -> bool
        ensures { result ≡ may_again busy self.now }
    {
        busy && self.refusal.is_none()
    }

    /// Whether a COMMIT is made again: the server is busy, and COMMITs of this save were put off fewer than three times.
    fn may_commit(&self, told: &Result<Verf, Fault>) -> bool
        ensures { result ≡ may_commit told.now self.now }
    {
        self.may_again(fails_busy(told)) && self.put_off < MOST_TIMES
    }

    /// The WRITE goes on under another xid with the bytes that it has. It doesn't if it was made again too often, or if there is
    /// no memory for them.
    fn take_busy(
        &mut self,
        alloc: Global,
        wsize: u32,
        sent: Turn,
        told: WriteTold,
        turn: Turn,
        repeats: &mut Repeats,
        back: &mut WriteBack,
    ) -> SavingStep
        requires size { 1 ≤ wsize }
        requires free { IsFree turn.xid self.old.file back.old }
        ensures { TakesBusy wsize sent turn told repeats.old self.old back.old result self.new back.new repeats.new }
    {
        let Some(call) = write_again(alloc, &self.file, sent.xid, back) else {
            again(false, sent, turn, repeats);
            let lacks = WriteTold::Fails(Fault::Memory);
            return self.take_write(alloc, wsize, sent.xid, lacks, turn, back);
        };
        if !again(true, sent, turn, repeats) {
            return self.take_write(alloc, wsize, sent.xid, told, turn, back);
        }
        back.renumber(&self.file, sent.xid, turn.xid);
        SavingStep::Send(call)
    }

    /// The piece lands, and the save goes on.
    fn take_write(
        &mut self,
        alloc: Global,
        wsize: u32,
        asked: u32,
        told: WriteTold,
        turn: Turn,
        back: &mut WriteBack,
    ) -> SavingStep
        requires size { 1 ≤ wsize }
        requires free { IsFree turn.xid self.old.file back.old }
        ensures { TakesWrite wsize asked turn.xid turn.room told (less_waiting self.old) back.old result self.new back.new }
    {
        let whole = counts_whole(&self.file, asked, &told, back);
        let refusal = land(&self.file, asked, told, turn.xid, back);
        self.waiting = self.waiting.saturating_sub(1);
        self.refuse(refusal);
        self.go(alloc, wsize, turn, whole, back)
    }

    /// The first refusal stays.
    fn refuse(&mut self, refusal: Option<Fault>)
        ensures { self.new ≡ refused_by refusal self.old }
    {
        if self.refusal.is_none() && refusal.is_some() {
            self.refusal = refusal;
        }
    }

    /// The first COMMIT was answered.
    fn take_first(
        &mut self,
        alloc: Global,
        wsize: u32,
        sent: Turn,
        told: Result<Verf, Fault>,
        turn: Turn,
        repeats: &mut Repeats,
        back: &mut WriteBack,
    ) -> SavingStep
        requires size { 1 ≤ wsize }
        requires free { IsFree turn.xid self.old.file back.old }
        ensures step { TakesFirst (commit_again told sent turn repeats.old self.old) wsize turn told self.old back.old result self.new back.new }
        ensures repeats { repeats.new ≡ commit_repeats told sent turn repeats.old self.old }
    {
        if again(self.may_commit(&told), sent, turn, repeats) {
            self.put_off += 1;
            return SavingStep::Send(commit_of(&self.file));
        }
        self.take_commit(alloc, wsize, told, turn, back)
    }

    /// The second COMMIT was answered.
    fn take_last(
        &mut self,
        sent: Turn,
        told: Result<Verf, Fault>,
        turn: Turn,
        repeats: &mut Repeats,
    ) -> SavingStep
        ensures next { result ≡ last_next (commit_again told sent turn repeats.old self.old) told self.old }
        ensures saving { self.new ≡ last_saving (commit_again told sent turn repeats.old self.old) self.old }
        ensures repeats { repeats.new ≡ commit_repeats told sent turn repeats.old self.old }
    {
        if again(self.may_commit(&told), sent, turn, repeats) {
            self.put_off += 1;
            return SavingStep::Send(commit_of(&self.file));
        }
        self.waiting = self.waiting.saturating_sub(1);
        ended_by(told)
    }

    /// After the first COMMIT.
    fn take_commit(
        &mut self,
        alloc: Global,
        wsize: u32,
        told: Result<Verf, Fault>,
        turn: Turn,
        back: &mut WriteBack,
    ) -> SavingStep
        requires size { 1 ≤ wsize }
        requires free { IsFree turn.xid self.old.file back.old }
        ensures { TakesCommit wsize turn.xid turn.room told (less_waiting self.old) back.old result self.new back.new }
    {
        self.waiting = self.waiting.saturating_sub(1);
        match told {
            Ok(verf) => self.take_verf(alloc, wsize, verf, turn, back),
            Err(fault) => SavingStep::Ended(Err(fault)),
        }
    }

    /// What the server may have lost is sent again.
    fn take_verf(
        &mut self,
        alloc: Global,
        wsize: u32,
        verf: Verf,
        turn: Turn,
        back: &mut WriteBack,
    ) -> SavingStep
        requires size { 1 ≤ wsize }
        requires free { IsFree turn.xid self.old.file back.old }
        ensures { TakesVerf wsize turn.xid turn.room verf self.old back.old result self.new back.new }
    {
        match decide_of(&self.file, self.upto, verf, turn.xid, back) {
            Verdict::AllStable => SavingStep::Ended(Ok(())),
            Verdict::SendAgain(_) => {
                self.phase = Phase::Resending;
                self.go(alloc, wsize, turn, false, back)
            }
        }
    }
}

/// Whether the save of a lane waits for its turn in the order of its file, or for calls of its own.
pub(crate) fn rests_in_turn(lane: u8, saving: &Saving, shelf: &Shelf) -> bool
    ensures { OnTrue result (TurnRests lane saving.now shelf.now) }
{
    if shelf.order.is_first(lane) {
        return saving.rests(&shelf.back);
    }
    true
}

fn is_sending(phase: Phase) -> bool
    ensures { result ≡ is_sending phase }
{
    match phase {
        Phase::Sending | Phase::Resending => true,
        Phase::Committing | Phase::CommittingAgain => false,
    }
}

fn is_again(phase: Phase) -> bool
    ensures { result ≡ is_again phase }
{
    match phase {
        Phase::Resending | Phase::CommittingAgain => true,
        Phase::Sending | Phase::Committing => false,
    }
}

fn commit_phase(phase: Phase) -> Phase
    ensures { result ≡ commit_phase phase }
{
    if is_again(phase) {
        Phase::CommittingAgain
    } else {
        Phase::Committing
    }
}

/// Once refused, it ends as soon as none of its calls waits.
fn refused_next(waiting: u32, fault: Fault) -> SavingStep
    ensures { result ≡ refused_next waiting fault }
{
    if waiting == 0 {
        SavingStep::Ended(Err(fault))
    } else {
        SavingStep::Wait
    }
}

/// Puts the next piece in flight, and makes its call, whose memory is taken before. None if there is no piece. When
/// out of memory nothing is changed.
fn write_call(
    alloc: Global,
    file: &Handle,
    upto: u64,
    wsize: u32,
    xid: u32,
    back: &mut WriteBack,
) -> Result<Option<Call>, Memory>
    requires size { 1 ≤ wsize }
    requires free { IsFree xid file.now back.old }
    ensures { CallsWrite xid upto file.now (chosen upto wsize (of_file file.now back.old)) back.old back.new result }
{
    let room = Vec::with_capacity(alloc, wsize as usize)?;
    let Some(piece) = back.next_to_send(file, upto, wsize, xid)? else {
        return Ok(None);
    };
    let (offset, how) = (piece.offset, piece.how);
    let bytes = back.last_bytes(file, room);
    Ok(Some(write_of(file, offset, how, bytes)))
}

/// The WRITE of these bytes.
fn write_of(file: &Handle, offset: u64, how: u32, bytes: Blob) -> Call
    ensures { result ≡ calls.File (Write file.now offset how bytes) }
{
    Call::File(FileCall::Write {
        file: *file,
        offset,
        how,
        bytes,
    })
}

/// The WRITE of what is in flight under an xid, once more. None if nothing is, or there is no memory for it.
fn write_again(alloc: Global, file: &Handle, asked: u32, back: &WriteBack) -> Option<Call>
    ensures { CopiesPiece (piece_under asked (of_file file.now back.now).pieces) file.now result }
{
    let piece = back.in_flight(file, asked)?;
    match Blob::copy(alloc, piece.bytes) {
        Ok(bytes) => Some(write_of(file, piece.offset, piece.how, bytes)),
        Err(_memory) => None,
    }
}

/// The COMMIT of a whole file.
fn commit_of(file: &Handle) -> Call
    ensures { result ≡ commit_of file.now }
{
    Call::File(FileCall::Commit {
        file: *file,
        offset: 0,
        count: 0,
    })
}

/// Whether a WRITE was refused because the server is busy.
fn told_busy(told: &WriteTold) -> bool
    ensures { result ≡ told_busy told.now }
{
    match told {
        WriteTold::Done { .. } => false,
        WriteTold::Refused(status) => *status == JUKEBOX,
        WriteTold::Fails(_) => false,
    }
}

/// After the second COMMIT.
fn ended_by(told: Result<Verf, Fault>) -> SavingStep
    ensures { result ≡ ended_by told }
{
    match told {
        Ok(_) => SavingStep::Ended(Ok(())),
        Err(fault) => SavingStep::Ended(Err(fault)),
    }
}

/// Takes a COMMIT's verifier. Nothing else is in flight than before.
fn decide_of(file: &Handle, upto: u64, verf: Verf, xid: u32, back: &mut WriteBack) -> Verdict
    requires { IsFree xid file.now back.old }
    ensures verdict { result ≡ verdict_of (lost verf upto (of_file file.now back.old).segments) }
    ensures segments { OnFile back.old back.new file.now (decided upto verf (of_file file.now back.old)) }
    ensures total { all_pending back.new ≤ all_pending back.old }
    ensures free { IsFree xid file.now back.new }
{
    decide(back, file, upto, verf)
}

/// What the reply to a WRITE says. Kept pages follow it.
fn judge_write(
    file: &Handle,
    asked: u32,
    came: &Came<'_>,
    moment: u64,
    pages: &mut PageCache,
    back: &WriteBack,
) -> WriteTold
    ensures told { result ≡ told_of asked file.now back.now (reply_of came.now) }
    ensures pages { pages.new ≡ pages_told file.now (answered asked file.now back.now).offset (answered asked file.now back.now).bytes moment (told_of asked file.now back.now (reply_of came.now)) pages.old }
{
    match back.in_flight(file, asked) {
        Some(piece) => {
            let told = write_told(came, piece.how, piece.bytes.len());
            note_write(file, piece.offset, piece.bytes, told, moment, pages);
            told
        }
        None => {
            let told = write_told(came, 0, 0);
            note_write(file, 0, &[], told, moment, pages);
            told
        }
    }
}

/// Kept pages follow what was written.
fn note_write(
    file: &Handle,
    offset: u64,
    bytes: &[u8],
    told: WriteTold,
    moment: u64,
    pages: &mut PageCache,
)
    ensures { pages.new ≡ pages_told file.now offset bytes.now moment told pages.old }
{
    match told {
        WriteTold::Done { wcc, count, .. } => {
            pages.wrote(file, &wcc, offset, first_bytes(bytes, count), moment);
        }
        WriteTold::Refused(_) => drop_pages(file, moment, pages),
        WriteTold::Fails(fault) => note_failed(file, &fault, moment, pages),
    }
}

/// Whether a reply counts all the bytes that its WRITE carried.
fn counts_whole(file: &Handle, asked: u32, told: &WriteTold, back: &WriteBack) -> bool
    ensures { result ≡ counts_whole asked file.now told.now back.now }
{
    match back.in_flight(file, asked) {
        Some(piece) => counts_all(told, piece.bytes.len()),
        None => counts_all(told, 0),
    }
}

/// Whether it counts so many.
fn counts_all(told: &WriteTold, size: usize) -> bool
    ensures { result ≡ counts_all told.now size }
{
    match *told {
        WriteTold::Done { count, .. } => count as usize >= size,
        WriteTold::Refused(_) => false,
        WriteTold::Fails(_) => false,
    }
}

fn first_bytes(bytes: &[u8], count: u32) -> &[u8]
    ensures { result.now ≡ take count bytes.now }
{
    if count as usize >= bytes.len() {
        return bytes;
    }
    &bytes[..count as usize]
}

/// A piece is in flight no more: whether that is a refusal. Under another xid nothing is in flight that wasn't.
fn land(file: &Handle, asked: u32, told: WriteTold, xid: u32, back: &mut WriteBack) -> Option<Fault>
    requires { IsFree xid file.now back.old }
    ensures lands { Lands asked file.now told back.old back.new result }
    ensures whole { LandsWhole told (piece_under asked (of_file file.now back.old).pieces) result }
    ensures total { all_pending back.new ≤ all_pending back.old }
    ensures free { IsFree xid file.now back.new }
{
    match told {
        WriteTold::Done {
            count,
            committed,
            verf,
            ..
        } => match back.acked(file, asked, count, committed, verf) {
            Ok(()) => None,
            Err(_memory) => Some(Fault::Memory),
        },
        WriteTold::Refused(status) => {
            back.refused(file, asked, status);
            Some(Fault::Nfs(status))
        }
        WriteTold::Fails(fault) => {
            back.returned(file, asked);
            Some(fault)
        }
    }
}
