//! The bytes that were written and that the server hasn't made stable.

ghost use Rattle.std.specs.Prelude.{◌≡◌, ◌↔◌, ◌+◌, ◌-◌, ◌^◌, ◌<◌, ◌≤◌, ℕ, List, [], Err, None, IsOk, IsSome, IsTrue, length, OnOk, OnErr, IfOk, IfSome};
ghost use Rattle.std.specs.Bool.{OnTrue};
ghost use Rattle.std.specs.Borrow.{sem};
ghost use Rattle.std.specs.Option.{option_map};
ghost use Rattle.std.specs.Vec.{vec_capacity};
ghost use Rattle.write_back.specs.declared.piece.AddFault.TheVariants.{Full};
ghost use Rattle.write_back.specs.declared.change.Change.TheVariants as by;
ghost use Rattle.write_back.specs.Segments.{shown, last_end};
ghost use Rattle.write_back.specs.Changes.{count_all_changed};
ghost use Rattle.write_back.specs.Pieces.{nothing, last_of, bytes_sent, piece_under};
ghost use Rattle.write_back.specs.Choice.{chosen, some_go, NoneGo};
ghost use Rattle.write_back.specs.Effects.{IsAnswer, IsOfHeld};
ghost use Rattle.write_back.specs.Sound.{IsSound, most_pending};
ghost use Rattle.write_back.specs.Places.{PutsBytes, Lands, ChangesAll, Cuts};
ghost use Rattle.write_back.specs.Waits.{AreSound};
ghost use Rattle.write_back.specs.Landing.{landed, landed_part, at_xid, acked_by, with_change, with_cut, with_xid};
ghost use Rattle.write_back.specs.Files.{Pending, of_file, OnFile, all_pending, with_bytes, IsNewest, TellsOldest, HasNoPiece, IsFree, PutsPiece, SendsPiece, ShowsBytes, ShowsPiece, ShowsSent};

use crate::ages::Ages;
use crate::change::Change;
use crate::file_bytes::FileBytes;
use crate::piece::{AddFault, Piece};
use crate::sent::SentPiece;
use nfs_types::{Handle, Verf};
use std::alloc::Global;
use std::collections::BTreeMap;
use std::marker::Model;
use xdr_codec::{Blob, Memory};

/// The most bytes that may be pending.
const MOST: u64 = 4_194_304;

/// The bytes that were written and that the server hasn't made stable, by file.
#[derive(Drop)]
pub struct WriteBack {
    alloc: Global,
    files: BTreeMap<Handle, FileBytes>,
    /// How many bytes are pending in all.
    total: u64,
    /// The writes that have pending bytes.
    ages: Ages,
}

impl Model for WriteBack {
    ghost use Rattle.write_back.specs.Files.{Pending};
    ghost use Rattle.write_back.specs.Ages.{IsKnown};

    ghost Value = { Pending };

    ghost view = { λ w. w.files.entries };

    ghost invariant = { λ w. IsKnown w.files.entries w.total w.ages };
}

impl WriteBack {
    ghost use Rattle.write_back.specs.Ends.{ends_so};

    /// Nothing is pending. It takes no memory.
    pub fn new(alloc: Global) -> WriteBack
        ensures { result ≡ [] }
    {
        WriteBack {
            alloc,
            files: BTreeMap::new(alloc),
            total: 0,
            ages: Ages::new(alloc),
        }
    }

    /// Adds bytes that were written to a file, with a number. What is pending there and isn't in flight is gone; what
    /// is in flight stays so. No bytes add nothing. Full exactly if with them more than 4,194,304 bytes would be
    /// pending, those in flight among them. After Full and Memory nothing is changed. The number is above all earlier
    /// ones, and the offset plus the length is at most 2^63 - 1. Bytes that the blob shares
    /// aren't copied, unless they are less than half of the memory that is kept for them.
    pub fn add(
        &mut self,
        file: &Handle,
        offset: u64,
        bytes: &Blob,
        seq: u64,
    ) -> Result<(), AddFault>
        requires newest { IsNewest seq self.old }
        requires last { offset + length bytes.now ≤ 2 ^ 63 - 1 }
        ensures full { (result ≡ Err Full) ↔ (most_pending < all_pending self.old + length bytes.now) }
        ensures ok { OnOk result (OnFile self.old self.new file.now (with_bytes offset bytes.now seq (of_file file.now self.old))) }
        ensures places { OnOk result (PutsBytes offset bytes.now seq (of_file file.now self.old) (of_file file.now self.new)) }
        ensures total { OnOk result (all_pending self.new ≤ all_pending self.old + length bytes.now) }
        ensures err { OnErr result (self.new ≡ self.old) }
    {
        let size = bytes.len() as u64;
        if self.total + size > MOST {
            return Err(AddFault::Full);
        }
        if size == 0 {
            return Ok(());
        }
        self.lay(file, offset, bytes, seq)?;
        Ok(())
    }

    /// Lays bytes, at least one, over those of a file. When out of memory nothing is changed.
    fn lay(&mut self, file: &Handle, offset: u64, bytes: &Blob, seq: u64) -> Result<(), Memory>
        requires some { 0 < length bytes.now }
        requires last { offset + length bytes.now ≤ 2 ^ 63 - 1 }
        requires room { all_pending self.old + length bytes.now ≤ most_pending }
        requires newest { IsNewest seq self.old }
        ensures ok { OnOk result (OnFile self.old self.new file.now (with_bytes offset bytes.now seq (of_file file.now self.old))) }
        ensures total { OnOk result (all_pending self.new ≤ all_pending self.old + length bytes.now) }
        ensures err { OnErr result (self.new ≡ self.old) }
    {
        if let Some(of) = self.files.get_mut(file) {
            let before = of.pending();
            of.add(self.alloc, &mut self.ages, file, offset, bytes, seq)?;
            self.total = self.total - before + of.pending();
            return Ok(());
        }
        let mut of = FileBytes::new(self.alloc);
        of.add(self.alloc, &mut self.ages, file, offset, bytes, seq)?;
        let size = of.pending();
        if let Err(error) = self.files.insert(*file, of) {
            self.ages.lessen(seq, size);
            return Err(error.into());
        }
        self.total += size;
        Ok(())
    }

    /// Puts a piece of a file in flight under an xid, and shows it. It begins at the lowest offset of a segment that
    /// may go: one that the server doesn't have, with a number up to `upto`, which shares no place with what is in
    /// flight. It goes on through segments that touch it, may go and are to be sent alike, until it has `wsize` bytes.
    /// None exactly if no segment may go. When out of memory nothing is changed. `wsize` is at least 1, and nothing
    /// is in flight under that xid.
    pub fn next_to_send(
        &mut self,
        file: &Handle,
        upto: u64,
        wsize: u32,
        xid: u32,
    ) -> Result<Option<Piece<'_>>, Memory>
        requires room { 1 ≤ wsize }
        requires free { IsFree xid file.now self.old }
        ensures* ends { sem 𝓛 (ends_so self.entry (λ new. SendsPiece xid upto (chosen upto wsize (of_file file.now self.old)) self.old new file.now result)) }
        ensures shown { IfOk result (ShowsPiece xid (chosen upto wsize (of_file file.now self.old))) }
    {
        if !self.send(file, upto, wsize, xid)? {
            return Ok(None);
        }
        Ok(self.last_sent(file))
    }

    /// Puts a piece in flight: whether there is one. When out of memory nothing is changed.
    fn send(&mut self, file: &Handle, upto: u64, wsize: u32, xid: u32) -> Result<bool, Memory>
        requires room { 1 ≤ wsize }
        requires free { IsFree xid file.now self.old }
        ensures puts { OnOk result (PutsPiece xid upto (chosen upto wsize (of_file file.now self.old)) self.old self.new file.now) }
        ensures told { IfOk result (λ done. done ≡ some_go (chosen upto wsize (of_file file.now self.old))) }
        ensures err { OnErr result (self.new ≡ self.old) }
    {
        let Some(of) = self.files.get_mut(file) else {
            return Ok(false);
        };
        let before = of.pending();
        let done = of.send(self.alloc, &mut self.ages, upto, wsize as usize, xid)?;
        self.total = self.total - before + of.pending();
        Ok(done)
    }

    /// The piece of a file that was sent last.
    fn last_sent(&self, file: &Handle) -> Option<Piece<'_>>
        ensures { ShowsSent (last_of (of_file file.now self.now).pieces) result }
    {
        let piece = self.files.get(file)?.last_sent()?;
        Some(shown_piece(piece))
    }

    /// The bytes of the piece of a file that was sent last, none if none was. Those that come of one segment aren't
    /// copied if they can be shared, else they are into room that was taken for them.
    pub fn last_bytes(&self, file: &Handle, room: Vec<u8>) -> Blob
        requires empty { room.items ≡ [] }
        requires fits { length (bytes_sent (last_of (of_file file.now self.now).pieces)) ≤ vec_capacity room }
        ensures { result ≡ bytes_sent (last_of (of_file file.now self.now).pieces) }
    {
        match self.last_piece(file) {
            Some(piece) => piece.blob(self.alloc, room),
            None => Blob::of(room),
        }
    }

    /// The piece of a file that was sent last, with its parts.
    fn last_piece(&self, file: &Handle) -> Option<&SentPiece>
        ensures { option_map (λ p. p.now) result ≡ last_of (of_file file.now self.now).pieces }
    {
        self.files.get(file)?.last_sent()
    }

    /// The piece of a file that is in flight under an xid. None if there is none.
    pub fn in_flight(&self, file: &Handle, xid: u32) -> Option<Piece<'_>>
        ensures { ShowsSent (piece_under xid (of_file file.now self.now).pieces) result }
    {
        let piece = self.files.get(file)?.sent(xid)?;
        Some(shown_piece(piece))
    }

    /// Whether nothing of a file is in flight.
    pub fn is_quiet(&self, file: &Handle) -> bool
        ensures { IsTrue result ↔ HasNoPiece file.now self.now }
    {
        match self.files.get(file) {
            Some(of) => of.is_quiet(),
            None => true,
        }
    }

    /// Whether it is known without a walk that none of a file's segments with a number up to `upto` may go. It isn't known of
    /// all files that have none.
    pub fn is_sent(&self, file: &Handle, upto: u64) -> bool
        ensures { OnTrue result (NoneGo upto (of_file file.now self.now)) }
    {
        match self.files.get(file) {
            Some(of) => of.is_sent(upto),
            None => true,
        }
    }

    /// The server has the first `count` bytes of a piece: under this verifier if `committed` is 0, else they are
    /// stable and pending no more (RFC 1813, section 3.3.7). The others are as before they were sent, and what newer
    /// bytes cover is pending no more. When out of memory all of the piece is as before it was sent; a whole count
    /// takes no memory. An unknown xid changes nothing.
    pub fn acked(
        &mut self,
        file: &Handle,
        xid: u32,
        count: u32,
        committed: u32,
        verf: Verf,
    ) -> Result<(), Memory>
        ensures ok { OnOk result (OnFile self.old self.new file.now (at_xid (landed_part (acked_by committed verf) count) xid (of_file file.now self.old))) }
        ensures err { OnErr result (OnFile self.old self.new file.now (at_xid (landed by.Return) xid (of_file file.now self.old))) }
        ensures places { OnOk result (IfSome (piece_under xid (of_file file.now self.old).pieces) (λ piece. Lands piece count (acked_by committed verf) by.Return (of_file file.now self.old) (of_file file.now self.new))) }
        ensures err_places { OnErr result (IfSome (piece_under xid (of_file file.now self.old).pieces) (λ piece. Lands piece 0 by.Return by.Return (of_file file.now self.old) (of_file file.now self.new))) }
        ensures total { all_pending self.new ≤ all_pending self.old }
        ensures whole { IfSome (piece_under xid (of_file file.now self.old).pieces) (λ piece. length piece.bytes ≤ count → IsOk result) }
    {
        let change = acked_by(committed, verf);
        let Some(of) = self.files.get_mut(file) else {
            return Ok(());
        };
        let before = of.pending();
        let done = of.acked(self.alloc, &mut self.ages, xid, count, change);
        self.total = self.total - before + of.pending();
        self.tidy(file);
        done
    }

    /// The server has refused a piece with this status: its bytes may be sent again, but for those that newer bytes
    /// cover, which are pending no more. An unknown xid changes nothing.
    pub fn refused(&mut self, file: &Handle, xid: u32, status: u32)
        ensures segments { OnFile self.old self.new file.now (at_xid (landed (by.Refuse status)) xid (of_file file.now self.old)) }
        ensures places { IfSome (piece_under xid (of_file file.now self.old).pieces) (λ piece. Lands piece 0 (by.Refuse status) (by.Refuse status) (of_file file.now self.old) (of_file file.now self.new)) }
        ensures total { all_pending self.new ≤ all_pending self.old }
    {
        self.ended(file, xid, Change::Refuse(status));
    }

    /// A piece is as before it was sent, but for the bytes that newer ones cover, which are pending no more. An unknown
    /// xid changes nothing.
    pub fn returned(&mut self, file: &Handle, xid: u32)
        ensures segments { OnFile self.old self.new file.now (at_xid (landed by.Return) xid (of_file file.now self.old)) }
        ensures places { IfSome (piece_under xid (of_file file.now self.old).pieces) (λ piece. Lands piece 0 by.Return by.Return (of_file file.now self.old) (of_file file.now self.new)) }
        ensures total { all_pending self.new ≤ all_pending self.old }
    {
        self.ended(file, xid, Change::Return);
    }

    /// A piece is in flight no more, and its bytes are changed.
    fn ended(&mut self, file: &Handle, xid: u32, change: Change)
        requires { IsAnswer change }
        ensures segments { OnFile self.old self.new file.now (at_xid (landed change) xid (of_file file.now self.old)) }
        ensures places { IfSome (piece_under xid (of_file file.now self.old).pieces) (λ piece. Lands piece 0 change change (of_file file.now self.old) (of_file file.now self.new)) }
        ensures total { all_pending self.new ≤ all_pending self.old }
    {
        if let Some(of) = self.files.get_mut(file) {
            let before = of.pending();
            of.ended(&mut self.ages, xid, change);
            self.total = self.total - before + of.pending();
            self.tidy(file);
        }
    }

    /// A piece is in flight under another xid. The condition is that a piece is in flight under the first and none
    /// under the second.
    pub fn renumber(&mut self, file: &Handle, xid: u32, to: u32)
        requires there { IsSome (piece_under xid (of_file file.now self.old).pieces) }
        requires free { IsFree to file.now self.old }
        ensures pieces { OnFile self.old self.new file.now (with_xid xid to (of_file file.now self.old)) }
        ensures total { all_pending self.new ≡ all_pending self.old }
    {
        let Some(of) = self.files.get_mut(file) else {
            return;
        };
        of.renumber(xid, to);
    }

    /// What the server has under this verifier is stable, up to a number, and pending no more (RFC 1813, section 4.8).
    pub fn settle(&mut self, file: &Handle, verf: Verf, upto: u64)
        ensures segments { OnFile self.old self.new file.now (with_change (by.Settle verf upto) (of_file file.now self.old)) }
        ensures places { ChangesAll (by.Settle verf upto) (of_file file.now self.old) (of_file file.now self.new) }
        ensures total { all_pending self.new ≤ all_pending self.old }
    {
        self.change(file, Change::Settle(verf, upto));
        self.tidy(file);
    }

    /// What the server has, up to a number, is to be sent again, as stable. How many segments that is.
    pub fn mark_again(&mut self, file: &Handle, upto: u64) -> u64
        ensures segments { OnFile self.old self.new file.now (with_change (by.MarkAgain upto) (of_file file.now self.old)) }
        ensures places { ChangesAll (by.MarkAgain upto) (of_file file.now self.old) (of_file file.now self.new) }
        ensures total { all_pending self.new ≤ all_pending self.old }
        ensures count { result ≡ count_all_changed (by.MarkAgain upto) (of_file file.now self.old).segments }
    {
        self.change(file, Change::MarkAgain(upto))
    }

    /// Every segment of a file is changed. How many went or have another kind of state.
    fn change(&mut self, file: &Handle, change: Change) -> u64
        requires { IsOfHeld change }
        ensures segments { OnFile self.old self.new file.now (with_change change (of_file file.now self.old)) }
        ensures places { ChangesAll change (of_file file.now self.old) (of_file file.now self.new) }
        ensures total { all_pending self.new ≤ all_pending self.old }
        ensures count { result ≡ count_all_changed change (of_file file.now self.old).segments }
    {
        let Some(of) = self.files.get_mut(file) else {
            return 0;
        };
        let before = of.pending();
        let count = of.change(&mut self.ages, change);
        self.total = self.total - before + of.pending();
        count
    }

    /// Writes the newest pending byte of a file over each place of `buf` that has one. The first place of `buf` is at
    /// `offset`.
    pub fn overlay(&self, file: &Handle, offset: u64, buf: &mut [u8])
        ensures { buf.new ≡ shown (of_file file.now self.now).segments offset buf.old }
    {
        if let Some(of) = self.files.get(file) {
            of.spans().overlay(offset, buf);
        }
    }

    /// Where the last pending byte of a file ends. None if it has none.
    pub fn end(&self, file: &Handle) -> Option<u64>
        ensures { result ≡ last_end (of_file file.now self.now).segments }
    {
        self.files.get(file)?.spans().end()
    }

    /// The pending bytes of a file at `size` and after it go, of numbers up to `upto`. The condition is that nothing of
    /// the file is in flight.
    pub fn cut(&mut self, file: &Handle, size: u64, upto: u64)
        requires { HasNoPiece file.now self.old }
        ensures segments { OnFile self.old self.new file.now (with_cut size upto (of_file file.now self.old)) }
        ensures places { Cuts size upto (of_file file.now self.old) (of_file file.now self.new) }
        ensures total { all_pending self.new ≤ all_pending self.old }
    {
        if let Some(of) = self.files.get_mut(file) {
            let before = of.pending();
            of.cut(&mut self.ages, size, upto);
            self.total = self.total - before + of.pending();
            self.tidy(file);
        }
    }

    /// No byte of a file is pending any more. The condition is that nothing of the file is in flight.
    pub fn give_up(&mut self, file: &Handle)
        requires { HasNoPiece file.now self.old }
        ensures bytes { OnFile self.old self.new file.now nothing }
        ensures total { all_pending self.new ≤ all_pending self.old }
    {
        if let Some(of) = self.files.remove(file) {
            of.leave(&mut self.ages);
            self.total -= of.pending();
        }
    }

    /// How many bytes are pending in all, those in flight among them. At most 4,194,304 are. The pending bytes of each file
    /// are sound:
    /// - its segments share no place, nor do its pieces in flight;
    /// - each byte in flight is the newest of its place, or stands under one that wasn't sent yet.
    pub fn pending(&self) -> u64
        ensures count { result ≡ all_pending self.now }
        ensures most { result ≤ most_pending }
        ensures sound { (file : List ℕ) → IsSound (of_file file self.now) }
    {
        self.total
    }

    /// What holds at any time: a fact for proofs.
    pub fn is_sound(&self)
        ensures { AreSound self.now }
    {
        let _files = self.files.iter();
    }

    /// The file of the least number that is pending. None exactly if nothing is.
    pub fn oldest(&self) -> Option<Handle>
        ensures file { TellsOldest self.now result }
        ensures nothing { (result ≡ None) ↔ (all_pending self.now ≡ 0) }
    {
        self.is_sound();
        self.ages.first()
    }

    /// Whether nothing of a file is pending.
    fn has_nothing(&self, file: &Handle) -> bool
        ensures { IsTrue result ↔ (of_file file.now self.now ≡ nothing) }
    {
        match self.files.get(file) {
            None => true,
            Some(of) => of.is_empty(),
        }
    }

    /// Keeps no entry of a file of which nothing is pending.
    fn tidy(&mut self, file: &Handle)
        ensures bytes { OnFile self.old self.new file.now (of_file file.now self.old) }
        ensures total { all_pending self.new ≤ all_pending self.old }
    {
        if self.has_nothing(file) {
            self.give_up(file);
        }
    }
}

/// The change of bytes that the server has: they are stable if `committed` is at least 1 (RFC 1813, section 3.3.7).
fn acked_by(committed: u32, verf: Verf) -> Change
    ensures { result ≡ acked_by committed verf }
{
    if committed > 0 {
        Change::Store
    } else {
        Change::Ack(verf)
    }
}

/// A piece as it is to be sent.
fn shown_piece(piece: &SentPiece) -> Piece<'_>
    ensures { ShowsBytes piece.now result }
{
    Piece {
        offset: piece.offset(),
        bytes: piece.bytes(),
        how: piece.how(),
    }
}
