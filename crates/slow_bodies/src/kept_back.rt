//! Pending bytes behind a test of each call's conditions.

ghost use Rattle.std.specs.Prelude.{◌↔◌, IsTrue};
ghost use Rattle.write_back.specs.Files.{HasNoPiece, IsFree};

use crate::piece::{OwnPiece, copied};
use commit_verf::{Verdict, decide};
use nfs_types::{Handle, Verf};
use std::alloc::Global;
use std::marker::Model;
use write_back::{AddFault, WriteBack};
use xdr_codec::{Blob, Memory};

/// No write ends past this place, and there are no more writes than this.
const FARTHEST: u64 = 1 << 32;

/// The xids are this one to the last.
pub const FIRST_XID: u32 = 7;

/// The last xid.
pub const LAST_XID: u32 = 10;

/// `WriteBack`, with a number for each write and xids from 7 to 10. A call whose condition isn't met changes nothing.
#[derive(Drop)]
pub struct KeptBack {
    alloc: Global,
    back: WriteBack,
    number: u64,
}

impl Model for KeptBack {
    ghost use Rattle.write_back.specs.Files.{Pending};
    ghost use Rattle.write_back.specs.Numbers.{AllUpTo};

    ghost Value = { Pending };

    ghost view = { λ k. k.back };

    ghost invariant = { λ k. AllUpTo k.number k.back };
}

impl KeptBack {
    /// Nothing is pending.
    pub fn new(alloc: Global) -> KeptBack {
        KeptBack {
            alloc,
            back: WriteBack::new(alloc),
            number: 0,
        }
    }

    /// The number of the last write.
    pub fn number(&self) -> u64 {
        self.number
    }

    /// Adds bytes, with the next number.
    pub fn add(&mut self, file: &Handle, offset: u64, bytes: &Blob) -> Result<(), AddFault> {
        let size = bytes.len() as u64;
        if offset > FARTHEST || size > FARTHEST || self.number > FARTHEST {
            return Err(AddFault::Full);
        }
        self.number += 1;
        self.back.add(file, offset, bytes, self.number)
    }

    /// Puts a piece in flight, if the xid is one and free.
    pub fn next_to_send(
        &mut self,
        file: &Handle,
        upto: u64,
        wsize: u32,
        xid: u32,
    ) -> Result<Option<OwnPiece>, Memory> {
        if wsize == 0 || !is_xid(xid) || !self.is_free(file, xid) {
            return Ok(None);
        }
        let shown = self.back.next_to_send(file, upto, wsize, xid)?;
        Ok(copied(self.alloc, shown)?)
    }

    /// The piece in flight under an xid.
    pub fn in_flight(&self, file: &Handle, xid: u32) -> Result<Option<OwnPiece>, Memory> {
        Ok(copied(self.alloc, self.back.in_flight(file, xid))?)
    }

    /// The server has the first bytes of a piece.
    pub fn acked(
        &mut self,
        file: &Handle,
        xid: u32,
        count: u32,
        committed: u32,
        verf: Verf,
    ) -> Result<(), Memory> {
        self.back.acked(file, xid, count, committed, verf)
    }

    /// The server has refused a piece.
    pub fn refused(&mut self, file: &Handle, xid: u32, status: u32) {
        self.back.refused(file, xid, status);
    }

    /// A piece is as before it was sent.
    pub fn returned(&mut self, file: &Handle, xid: u32) {
        self.back.returned(file, xid);
    }

    /// A piece gets another xid: whether there is a piece, and the other is one and free.
    pub fn renumber(&mut self, file: &Handle, xid: u32, to: u32) -> bool {
        if !is_xid(to) || self.is_free(file, xid) || !self.is_free(file, to) {
            return false;
        }
        self.back.renumber(file, xid, to);
        true
    }

    /// What the server has under a verifier is stable.
    pub fn settle(&mut self, file: &Handle, verf: Verf, upto: u64) {
        self.back.settle(file, verf, upto);
    }

    /// What the server has is to be sent again.
    pub fn mark_again(&mut self, file: &Handle, upto: u64) -> u64 {
        self.back.mark_again(file, upto)
    }

    /// What the verifier of a COMMIT tells.
    pub fn decide(&mut self, file: &Handle, upto: u64, verf: Verf) -> Verdict {
        decide(&mut self.back, file, upto, verf)
    }

    /// Writes the newest bytes over each place that has one.
    pub fn overlay(&self, file: &Handle, offset: u64, buf: &mut [u8]) {
        self.back.overlay(file, offset, buf);
    }

    /// Where the last byte of a file ends.
    pub fn end(&self, file: &Handle) -> Option<u64> {
        self.back.end(file)
    }

    /// Bytes from a size on go: whether nothing of the file is in flight.
    pub fn cut(&mut self, file: &Handle, size: u64, upto: u64) -> bool {
        if !self.is_quiet(file) {
            return false;
        }
        self.back.cut(file, size, upto);
        true
    }

    /// All bytes of a file go: whether nothing of it is in flight.
    pub fn give_up(&mut self, file: &Handle) -> bool {
        if !self.is_quiet(file) {
            return false;
        }
        self.back.give_up(file);
        true
    }

    /// How many bytes are pending.
    pub fn pending(&self) -> u64 {
        self.back.pending()
    }

    /// The file of the least number.
    pub fn oldest(&self) -> Option<Handle> {
        self.back.oldest()
    }

    /// Whether nothing of a file is in flight.
    pub fn is_quiet(&self, file: &Handle) -> bool
        ensures { IsTrue result ↔ HasNoPiece file.now self.now }
    {
        self.back.is_quiet(file)
    }

    /// Whether nothing of a file is in flight under an xid.
    fn is_free(&self, file: &Handle, xid: u32) -> bool
        ensures { IsTrue result ↔ IsFree xid file.now self.now }
    {
        self.back.in_flight(file, xid).is_none()
    }
}

/// Whether a row may use an xid.
fn is_xid(xid: u32) -> bool {
    FIRST_XID <= xid && xid <= LAST_XID
}
