//! What is pending of one file.

ghost use Rattle.std.specs.Prelude.{◌≡◌, ◌+◌, ◌^◌, ◌<◌, ◌-◌, ◌≤◌, ◌↔◌, [], ℕ, List, None, IsTrue, length, IsOk, OnOk, OnErr, IfSome, nat_le, min, if◌then◌else◌};
ghost use Rattle.std.specs.Bool.{OnTrue};
ghost use Rattle.std.specs.Option.{option_map};
ghost use Rattle.write_back.specs.declared.change.Change.TheVariants as by;
ghost use Rattle.write_back.specs.Choice.{chosen, may_go, IsPut, NoneGo};
ghost use Rattle.write_back.specs.Cursor.{place_of};
ghost use Rattle.write_back.specs.Effects.{IsAnswer, IsOfHeld};
ghost use Rattle.write_back.specs.Ages.{kept_by, written_by, gone_by, parts_by, parts_in, pending_by, Gains, IsUnknown, Lessens, Loses, Raises, SameKept, Takes};
ghost use Rattle.write_back.specs.Segments.{added};
ghost use Rattle.write_back.specs.Changes.{changed, count_all_changed};
ghost use Rattle.write_back.specs.Landing.{at_xid, landed, landed_part, changed_part, with_change, with_cut, with_xid};
ghost use Rattle.write_back.specs.Pieces.{nothing, end_of_sent, last_of, pending_of, piece_under};
ghost use Rattle.write_back.specs.Sound.{IsAbove, most_pending};
ghost use Rattle.write_back.specs.Walk.{first_that};

use crate::ages::Ages;
use crate::change::Change;
use crate::in_flight;
use crate::sent::SentPiece;
use crate::spans::Spans;
use nfs_types::Handle;
use std::alloc::Global;
use std::marker::Model;
use xdr_codec::{Blob, Memory};

/// What is pending of one file: the newest bytes, and what is in flight. At most 4,194,304 bytes are.
#[derive(Drop)]
pub struct FileBytes {
    spans: Spans,
    sent: Vec<SentPiece>,
    /// How many bytes are in flight.
    flying: u64,
    /// No segment that begins before this place may be sent.
    resume: u64,
    /// No segment that begins before this place, and whose number is at most `passed_upto`, may be sent.
    passed: u64,
    passed_upto: u64,
}

impl Model for FileBytes {
    ghost use Rattle.write_back.specs.Pieces.{FilePending};
    ghost use Rattle.write_back.specs.Cursor.{IsResumed};

    ghost Value = { FilePending };

    ghost view = { λ f. record { segments = f.spans; pieces = f.sent.items } };

    ghost invariant = { λ f. IsResumed (record { segments = f.spans; pieces = f.sent.items }) f.flying f.resume f.passed_upto f.passed };
}

impl FileBytes {
    /// Nothing is pending.
    pub fn new(alloc: Global) -> FileBytes
        ensures { result ≡ nothing }
    {
        FileBytes {
            spans: Spans::new(alloc),
            sent: Vec::new(alloc),
            flying: 0,
            resume: 0,
            passed: 0,
            passed_upto: 0,
        }
    }

    /// Whether nothing is pending.
    pub fn is_empty(&self) -> bool
        ensures { IsTrue result ↔ (self.now ≡ nothing) }
    {
        self.spans.is_empty() && self.sent.is_empty()
    }

    /// Whether nothing is in flight.
    pub fn is_quiet(&self) -> bool
        ensures { IsTrue result ↔ (self.now.pieces ≡ []) }
    {
        self.sent.is_empty()
    }

    /// How many bytes are pending.
    pub fn pending(&self) -> u64
        ensures count { result ≡ pending_of self.now }
        ensures most { result ≤ most_pending }
    {
        self.spans.own() + self.flying
    }

    /// The newest bytes.
    pub fn spans(&self) -> &Spans
        ensures { result.now ≡ self.now.segments }
    {
        &self.spans
    }

    /// New bytes of the file, at least one. When out of memory nothing is changed.
    pub fn add(
        &mut self,
        alloc: Global,
        ages: &mut Ages,
        file: &Handle,
        offset: u64,
        bytes: &Blob,
        number: u64,
    ) -> Result<(), Memory>
        requires some { 0 < length bytes.now }
        requires last { offset + length bytes.now ≤ 2 ^ 63 - 1 }
        requires room { pending_of self.old + length bytes.now ≤ most_pending }
        requires newest { IsAbove number self.old }
        requires unknown { IsUnknown number ages.old }
        requires fresh { pending_by number self.old ≡ 0 }
        ensures takes { OnOk result (Takes number file.now self.old self.new ages.old ages.new) }
        ensures same { OnErr result (SameKept ages.old ages.new) }
        ensures ok { OnOk result (self.new ≡ record { segments = added offset bytes.now number self.old.segments; pieces = self.old.pieces }) }
        ensures err { OnErr result (self.new ≡ self.old) }
    {
        let size = bytes.len() as u64;
        let older = self.spans.covered(alloc, offset, offset + size)?;
        ages.enter(number, file, size)?;
        if let Err(memory) = self.spans.put(alloc, offset, bytes, number) {
            ages.lessen(number, size);
            return Err(memory);
        }
        ages.lessen_parts(older.as_slice());
        self.resume = self.resume.min(offset);
        self.passed = before_new(self.passed, self.passed_upto, offset, number);
        Ok(())
    }

    /// Puts a piece in flight: whether there is one. When out of memory nothing is changed.
    pub fn send(
        &mut self,
        alloc: Global,
        ages: &mut Ages,
        upto: u64,
        room: usize,
        xid: u32,
    ) -> Result<bool, Memory>
        requires some { 0 < room }
        requires free { piece_under xid self.old.pieces ≡ None }
        requires room { (file : List ℕ) (n : ℕ) → kept_by ages.old file n ≤ 2 ^ 63 + most_pending }
        ensures gains { Gains self.old self.new ages.old ages.new }
        ensures ok { OnOk result (IsPut xid (chosen upto room self.old) self.old self.new result) }
        ensures err { OnErr result (self.new ≡ self.old) }
    {
        let Some(first) = self.first_to_go(upto) else {
            return Ok(false);
        };
        let piece = self
            .spans
            .gather(alloc, first, upto, room, xid, &self.sent)?;
        let (end, size) = (piece.end(), piece.len());
        self.sent.push(piece)?;
        if let Err(memory) = self.spans.split(alloc, end, false) {
            self.sent.pop();
            return Err(memory);
        }
        raise_last(self.sent.as_slice(), ages);
        self.spans.change(first, end, Change::Send);
        self.flying += size;
        Ok(true)
    }

    /// Where the first segment begins that may go.
    fn first_to_go(&mut self, upto: u64) -> Option<u64>
        ensures same { self.new ≡ self.old }
        ensures told { result ≡ option_map (λ e. e.0) (first_that (may_go self.old.pieces upto) 0 self.old.segments) }
        ensures small { IfSome result (λ at. at < 2 ^ 63) }
    {
        let Some(resume) = self.spans.first_ready(self.resume) else {
            self.resume = u64::MAX;
            self.passed = u64::MAX;
            return None;
        };
        self.resume = resume;
        let from = passed_before(self.passed, self.passed_upto, self.resume, upto);
        self.passed_upto = upto;
        self.passed = self.spans.first_waiting(from, upto);
        self.spans.first_to_go(self.passed, upto, &self.sent)
    }

    /// Whether it is known without a walk that no segment with a number up to `upto` may go. It isn't known of all that
    /// have none.
    pub fn is_sent(&self, upto: u64) -> bool
        ensures { OnTrue result (NoneGo upto self.now) }
    {
        is_past_all(passed_before(self.passed, self.passed_upto, self.resume, upto))
    }

    /// The piece that was sent last.
    pub fn last_sent(&self) -> Option<&SentPiece>
        ensures { option_map (λ p. p.now) result ≡ last_of self.now.pieces }
    {
        self.sent.last()
    }

    /// The piece in flight under an xid.
    pub fn sent(&self, xid: u32) -> Option<&SentPiece>
        ensures { option_map (λ p. p.now) result ≡ piece_under xid self.now.pieces }
    {
        in_flight::under(&self.sent, xid)
    }

    /// The piece in flight under one xid is so under another.
    pub fn renumber(&mut self, xid: u32, to: u32)
        requires free { piece_under to self.old.pieces ≡ None }
        ensures { self.new ≡ with_xid xid to self.old }
    {
        in_flight::renumber(&mut self.sent, xid, to);
    }

    /// The server has the first bytes of a piece. When out of memory the piece is as before it was sent.
    pub fn acked(
        &mut self,
        alloc: Global,
        ages: &mut Ages,
        xid: u32,
        count: u32,
        change: Change,
    ) -> Result<(), Memory>
        requires { IsAnswer change }
        ensures loses { Loses self.old self.new ages.old ages.new }
        ensures ok { OnOk result (self.new ≡ at_xid (landed_part change count) xid self.old) }
        ensures err { OnErr result (self.new ≡ at_xid (landed by.Return) xid self.old) }
        ensures whole { IfSome (piece_under xid self.old.pieces) (λ piece. length piece.bytes ≤ count → IsOk result) }
    {
        let Some(piece) = in_flight::take_out(&mut self.sent, xid) else {
            return Ok(());
        };
        ages.lessen_parts(piece.parts());
        self.flying -= piece.len();
        self.resume = self.resume.min(piece.offset());
        self.passed = self.passed.min(piece.offset());
        land_part(&mut self.spans, alloc, ages, &piece, count, change)
    }

    /// A piece is in flight no more, and its bytes are changed.
    pub fn ended(&mut self, ages: &mut Ages, xid: u32, change: Change)
        requires { IsAnswer change }
        ensures loses { Loses self.old self.new ages.old ages.new }
        ensures after { self.new ≡ at_xid (landed change) xid self.old }
    {
        if let Some(piece) = in_flight::take_out(&mut self.sent, xid) {
            ages.lessen_parts(piece.parts());
            self.flying -= piece.len();
            let start = piece.offset();
            self.resume = self.resume.min(start);
            self.passed = self.passed.min(start);
            change_between(&mut self.spans, ages, start, piece.end(), change);
        }
    }

    /// Changes every segment, and counts those that went or have another kind of state.
    pub fn change(&mut self, ages: &mut Ages, change: Change) -> u64
        requires { IsOfHeld change }
        ensures loses { Loses self.old self.new ages.old ages.new }
        ensures after { self.new ≡ with_change change self.old }
        ensures count { result ≡ count_all_changed change self.old.segments }
    {
        self.resume = 0;
        self.passed = 0;
        self.spans.lessen_gone(0, u64::MAX, change, ages);
        self.spans.change_all(change)
    }

    /// Bytes at a place and after it go, of segments with a number up to another. Nothing is in flight.
    pub fn cut(&mut self, ages: &mut Ages, size: u64, upto: u64)
        requires { self.old.pieces ≡ [] }
        ensures loses { Loses self.old self.new ages.old ages.new }
        ensures after { self.new ≡ with_cut size upto self.old }
    {
        self.spans.lessen_cut(size, upto, ages);
        self.spans.cut(size, upto);
    }

    /// Nothing of it is kept any more. Nothing is in flight.
    pub fn leave(&self, ages: &mut Ages)
        requires { self.now.pieces ≡ [] }
        ensures { Lessens (λ n. pending_by n self.now) ages.old ages.new }
    {
        self.spans.lessen_gone(0, u64::MAX, Change::Clear, ages);
    }
}

/// A place before which nothing waits with a number up to `upto`: the one for another number if that is no less,
/// else the one before which nothing waits at all.
fn passed_before(passed: u64, passed_upto: u64, resume: u64, upto: u64) -> u64
    ensures { result ≡ (if nat_le upto passed_upto then passed else resume) }
{
    if upto <= passed_upto { passed } else { resume }
}

/// Whether each segment begins before a place.
fn is_past_all(place: u64) -> bool
    ensures { OnTrue result (place ≡ place_of None) }
{
    place == u64::MAX
}

/// Such a place once bytes with a number were added at an offset.
fn before_new(passed: u64, passed_upto: u64, offset: u64, number: u64) -> u64
    ensures { result ≡ (if nat_le number passed_upto then min passed offset else passed) }
{
    if number <= passed_upto {
        passed.min(offset)
    } else {
        passed
    }
}

/// The bytes of the piece that was sent last are pending once more.
fn raise_last(sent: &[SentPiece], ages: &mut Ages)
    requires room { (file : List ℕ) (n : ℕ) → kept_by ages.old file n + parts_by n (parts_in (last_of sent.now)) < 2 ^ 64 }
    ensures { Raises (λ n. parts_by n (parts_in (last_of sent.now))) ages.old ages.new }
{
    if let Some(piece) = sent.last() {
        ages.raise_parts(piece.parts());
    }
}

/// Changes the segments that begin between two places, the second left out. What is kept of the writes loses the bytes
/// that go.
fn change_between(spans: &mut Spans, ages: &mut Ages, low: u64, high: u64, change: Change)
    requires { low ≤ high }
    ensures after { spans.new ≡ changed change low high spans.old }
    ensures less { Lessens (λ n. gone_by change low high n spans.old) ages.old ages.new }
{
    spans.lessen_gone(low, high, change, ages);
    spans.change(low, high, change);
}

/// The first bytes of a piece that is in flight no more are changed, and the others are as before they were sent. When
/// out of memory all of them are.
fn land_part(
    spans: &mut Spans,
    alloc: Global,
    ages: &mut Ages,
    piece: &SentPiece,
    count: u32,
    change: Change,
) -> Result<(), Memory>
    ensures fewer { (n : ℕ) → written_by n spans.new ≤ written_by n spans.old }
    ensures less { Lessens (λ n. written_by n spans.old - written_by n spans.new) ages.old ages.new }
    ensures ok { OnOk result (spans.new ≡ changed_part change count piece.now spans.old) }
    ensures err { OnErr result (spans.new ≡ changed by.Return piece.now.offset (end_of_sent piece.now) spans.old) }
    ensures whole { length piece.now.bytes ≤ count → IsOk result }
{
    let (start, end) = (piece.offset(), piece.end());
    if piece.len() <= count as u64 {
        change_between(spans, ages, start, end, change);
        return Ok(());
    }
    let middle = start + count as u64;
    if let Err(memory) = spans.split(alloc, middle, true) {
        spans.change(start, end, Change::Return);
        return Err(memory);
    }
    change_between(spans, ages, start, middle, change);
    spans.change(middle, end, Change::Return);
    Ok(())
}
