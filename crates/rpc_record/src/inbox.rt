//! Bytes that came, and the record that is put together from them.

ghost use Rattle.std.specs.Prelude.{◌≡◌, ◌≤◌, ◌<◌, ◌++◌, [], ℕ, List, length, IfOk};
ghost use Rattle.std.specs.Bool.{OnTrue};
ghost use Rattle.rpc_record.specs.declared.gather.Phase.TheVariants as phases;
ghost use Rattle.rpc_record.specs.Gather.{resumes, unbegun};
ghost use Rattle.rpc_record.specs.Honest.{HonestOver};
ghost use Rattle.rpc_record.specs.Stream.{now_in};
ghost use Rattle.rpc_record.specs.Shown.{Fills, HasCauseFilled, IsDone};

use crate::gather::{Gather, Phase};
use crate::line::Line;
use outside::{Received, Wire, WireRead};
use std::alloc::Global;
use std::marker::Model;
use xdr_codec::Memory;

/// The bytes that are asked for at once.
const ROOM: usize = 131_072;

/// Bytes that came, and the record that is put together from them. A byte goes from the wire into the buffer and from
/// there into the record, and no further.
#[derive(Debug, Drop)]
pub(crate) struct Inbox {
    gather: Gather,
    buffer: Vec<u8>,
    at: usize,
    end: usize,
}

impl Model for Inbox {
    ghost use Rattle.std.specs.Prelude.{◌≤◌, length, take, drop};
    ghost use Rattle.rpc_record.specs.Shown.{Waiting};

    ghost Value = { Waiting };

    ghost view = { λ i. record { gather = i.gather; unread = drop i.at (take i.end i.buffer.items) } };

    ghost invariant = { λ i. (i.at ≤ i.end) × (i.end ≤ length i.buffer.items) };
}

/// Makes the buffer if there is none yet. When out of memory there is none, and the answer is false.
fn open(buffer: &mut Vec<u8>) -> bool
    ensures { OnTrue result (0 < length buffer.new.items) }
{
    if buffer.len() > 0 {
        return true;
    }
    buffer.resize(ROOM, 0).is_ok()
}

impl Inbox {
    /// No byte yet.
    pub(crate) fn new(alloc: Global) -> Inbox
        ensures { result ≡ record { gather = unbegun; unread = [] } }
    {
        Inbox {
            gather: Gather::new(alloc),
            buffer: Vec::new(alloc),
            at: 0,
            end: 0,
        }
    }

    /// Where in a record the bytes that were taken end.
    pub(crate) fn phase(&self) -> Phase
        ensures { result ≡ self.now.gather.phase }
    {
        self.gather.phase()
    }

    /// Forgets all bytes.
    pub(crate) fn clear(&mut self)
        ensures { self.new ≡ record { gather = unbegun; unread = [] } }
    {
        self.gather.clear();
        self.at = 0;
        self.end = 0;
    }

    /// Hands the record out in place of what rec held, and begins the next.
    pub(crate) fn hand_out(&mut self, rec: &mut Vec<u8>)
        requires { self.old.gather.phase ≡ phases.Whole }
        ensures rec { rec.new.items ≡ self.old.gather.front }
        ensures anew { self.new ≡ record { gather = unbegun; unread = self.old.unread } }
    {
        self.gather.hand_out(rec);
    }

    /// Takes bytes into the record until it ends or none is left. When out of memory the others are kept.
    pub(crate) fn work(&mut self) -> Result<(), Memory>
        ensures same { (more : List ℕ) → resumes self.old.gather (self.old.unread ++ more) ≡ resumes self.new.gather (self.new.unread ++ more) }
        ensures shut { self.old.gather.phase ≡ phases.Long → self.new.gather.phase ≡ phases.Long }
        ensures done { IfOk result (λ x. IsDone self.new.gather.phase self.new.unread) }
    {
        while self.at < self.end {
            if self.gather.is_closed() {
                return Ok(());
            }
            let (front, _) = self.buffer.as_slice().split_at(self.end);
            let (_, unread) = front.split_at(self.at);
            let count = self.gather.take(unread)?;
            self.at += count;
        }
        Ok(())
    }

    /// Waits for bytes, if all that came before were taken, and answers why none came.
    pub(crate) fn fill<W: Wire + Drop>(
        &mut self,
        line: &mut Line<W>,
        wait_ms: u32,
    ) -> Option<Received>
        requires patient { 15000 ≤ wait_ms }
        requires empty { self.old.unread ≡ [] }
        ensures gather { self.new.gather ≡ self.old.gather }
        ensures got { Fills (now_in W.told line.old) (now_in W.told line.new) self.new.unread result }
        ensures honest { HonestOver W.told W.honest line.old → HonestOver W.told W.honest line.new }
        ensures cause { HasCauseFilled line.old.faults line.new.faults result }
    {
        self.at = 0;
        self.end = 0;
        if !open(&mut self.buffer) {
            return Some(Received::Memory);
        }
        match line.read(wait_ms, self.buffer.as_mut_slice()) {
            WireRead::Got(n) => {
                self.end = n;
                None
            }
            WireRead::Silent => Some(Received::Silent),
            WireRead::Failed => Some(Received::Failed),
            WireRead::Memory => Some(Received::Memory),
        }
    }
}
