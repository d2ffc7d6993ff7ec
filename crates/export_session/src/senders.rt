//! Calls that come as datagrams, each answered to the port that it came from.

ghost use Rattle.std.specs.Prelude.{◌≡◌, ◌∷◌, Some};
ghost use Rattle.outside.specs.declared.datagrams.DatagramEntry.TheVariants.{Came};
ghost use Rattle.export_session.specs.declared.next.End.TheVariants.{Served};
ghost use Rattle.export_session.specs.declared.next.Next.TheVariants.{Stop};
ghost use Rattle.export_session.specs.Senders.{DoesAll, SendsAimed, SendsTo, TurnsTo, TalksTo};

use crate::next::{End, Next};
use crate::serving::Serving;
use limits::WAIT_MS;
use outside::{Arrived, Datagrams, LinkFault};

/// How many waits may fail or be silent, or replies not be sent.
const MOST_MISSED: u32 = 65_536;

impl Serving {
    /// Serves whoever sends datagrams. It ends well once the calls were answered, and else
    /// - after 65,536 waits that failed or were silent, and replies that couldn't be sent;
    /// - after as many records that are no call;
    /// - by lack of memory.
    pub fn serve_datagrams<D: Datagrams>(&mut self, datagrams: &mut D) -> End
        ensures talks { DoesAll (D.told datagrams.old) (D.told datagrams.new) (TalksTo (Some result) self.old self.new) }
        ensures served { result ≡ Served → self.new.calls ≡ 0 }
    {
        for _ in 0..MOST_MISSED {
            if let Some(end) = self.serve_senders(datagrams) {
                return end;
            }
        }
        End::Lost
    }

    /// Answers what comes until a wait fails or is silent, or a reply can't be sent; how serving ends, if it does.
    fn serve_senders<D: Datagrams>(&mut self, datagrams: &mut D) -> Option<End>
        ensures talks { DoesAll (D.told datagrams.old) (D.told datagrams.new) (TalksTo result self.old self.new) }
        ensures served { result ≡ Some Served → self.new.calls ≡ 0 }
    {
        let mut record = Vec::new(self.alloc);
        for _ in 0..u64::MAX {
            match self.serve_datagram(datagrams, &mut record) {
                Next::Wait => {}
                Next::Close => return None,
                Next::Stop(end) => return Some(end),
            }
        }
        None
    }

    /// Waits for a datagram, and answers it.
    fn serve_datagram<D: Datagrams>(&mut self, datagrams: &mut D, record: &mut Vec<u8>) -> Next
        ensures turns { DoesAll (D.told datagrams.old) (D.told datagrams.new) (TurnsTo result self.old self.new) }
        ensures served { result ≡ Stop Served → self.new.calls ≡ 0 }
    {
        match datagrams.receive(WAIT_MS, record) {
            Arrived::From(port) => self.answer_to(datagrams, port, record.as_slice()),
            Arrived::Silent => Next::Close,
            Arrived::Failed => Next::Close,
            Arrived::Memory => Next::Stop(End::Memory),
        }
    }

    /// Answers a record to the port that it came from, and counts it.
    fn answer_to<D: Datagrams>(&mut self, datagrams: &mut D, port: u16, record: &[u8]) -> Next
        ensures turns { DoesAll (D.told datagrams.old) (D.told datagrams.new) (λ es. TurnsTo result self.old self.new (Came port record.now ∷ es)) }
        ensures served { result ≡ Stop Served → self.new.calls ≡ 0 }
    {
        match self.reply_to(record) {
            Ok(Some(reply)) => self.send_to(datagrams, port, reply.bytes()),
            Ok(None) => self.count_stray(),
            Err(_) => Next::Stop(End::Memory),
        }
    }

    /// Sends a reply to a port, and counts the call.
    fn send_to<D: Datagrams>(&mut self, datagrams: &mut D, port: u16, reply: &[u8]) -> Next
        ensures sends { DoesAll (D.told datagrams.old) (D.told datagrams.new) (SendsTo port reply.now result self.old self.new) }
        ensures served { result ≡ Stop Served → self.new.calls ≡ 0 }
    {
        match datagrams.aim(port) {
            Ok(()) => self.send_aimed(datagrams, reply),
            Err(LinkFault::Failed) => Next::Close,
            Err(LinkFault::Memory) => Next::Stop(End::Memory),
        }
    }

    /// Sends a reply to the port that was aimed at, and counts the call.
    fn send_aimed<D: Datagrams>(&mut self, datagrams: &mut D, reply: &[u8]) -> Next
        ensures sends { DoesAll (D.told datagrams.old) (D.told datagrams.new) (SendsAimed reply.now result self.old self.new) }
        ensures served { result ≡ Stop Served → self.new.calls ≡ 0 }
    {
        match datagrams.send(reply) {
            Ok(()) => self.count_call(),
            Err(LinkFault::Failed) => Next::Close,
            Err(LinkFault::Memory) => Next::Stop(End::Memory),
        }
    }
}
