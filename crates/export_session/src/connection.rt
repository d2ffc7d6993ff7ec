//! Calls that come over a link, one record after another.

ghost use Rattle.std.specs.Prelude.{◌≡◌, ◌∷◌, Some};
ghost use Rattle.world_model.specs.declared.entry.Entry.TheVariants.{Delivered};
ghost use Rattle.export_session.specs.declared.next.End.TheVariants.{Served, Lost};
ghost use Rattle.export_session.specs.declared.next.Next.TheVariants.{Stop};
ghost use Rattle.export_session.specs.Goes.{GoesOnAs};
ghost use Rattle.export_session.specs.Talk.{Does, Sends, TurnsTo, TalksTo};

use crate::next::{End, Next};
use crate::serving::Serving;
use limits::WAIT_MS;
use nfs_types::NFS_PROGRAM;
use outside::{Link, LinkFault, Received};
use portmap_calls::{PORTMAP_PROGRAM, read_mapping};
use rpc_message::read_call;
use xdr_codec::Record;

impl Serving {
    /// Answers what comes over a link until it fails or is silent, which is None; or how serving ends. After the last port that
    /// a client asks for no more is waited for: the client keeps that connection open during its session, and the next one
    /// couldn't be taken.
    pub fn serve_connection<L: Link>(&mut self, link: &mut L) -> Option<End>
        ensures talks { Does (L.told link.old) (L.told link.new) (TalksTo result self.old self.new) }
        ensures served { result ≡ Some Served → self.new.calls ≡ 0 }
        ensures lost { result ≡ Some Lost → self.new.strays ≡ 0 }
    {
        let mut record = Vec::new(self.alloc);
        for _ in 0..u64::MAX {
            match self.serve_record(link, &mut record) {
                Next::Wait => {}
                Next::Close => return None,
                Next::Stop(end) => return Some(end),
            }
        }
        None
    }

    /// Waits for a record, and answers it.
    fn serve_record<L: Link>(&mut self, link: &mut L, record: &mut Vec<u8>) -> Next
        ensures turns { Does (L.told link.old) (L.told link.new) (TurnsTo result self.old self.new) }
        ensures served { result ≡ Stop Served → self.new.calls ≡ 0 }
        ensures lost { result ≡ Stop Lost → self.new.strays ≡ 0 }
    {
        match link.receive(WAIT_MS, record) {
            Received::Whole => self.answer(link, record.as_slice()),
            Received::Silent => Next::Close,
            Received::Failed => Next::Close,
            Received::Memory => Next::Stop(End::Memory),
        }
    }

    /// Answers a record, and counts it.
    fn answer<L: Link>(&mut self, link: &mut L, record: &[u8]) -> Next
        ensures turns { Does (L.told link.old) (L.told link.new) (λ es. TurnsTo result self.old self.new (Delivered record.now ∷ es)) }
        ensures served { result ≡ Stop Served → self.new.calls ≡ 0 }
        ensures lost { result ≡ Stop Lost → self.new.strays ≡ 0 }
    {
        match self.reply_to(record) {
            Ok(Some(reply)) => {
                let next = self.send(link, reply.bytes());
                close_after(record, next)
            }
            Ok(None) => self.count_stray(),
            Err(_) => Next::Stop(End::Memory),
        }
    }

    /// Sends a reply, and counts the call.
    fn send<L: Link>(&mut self, link: &mut L, reply: &[u8]) -> Next
        ensures sends { Does (L.told link.old) (L.told link.new) (Sends reply.now result self.old self.new) }
        ensures served { result ≡ Stop Served → self.new.calls ≡ 0 }
        ensures lost { result ≡ Stop Lost → self.new.strays ≡ 0 }
    {
        match Record::copy(self.alloc, reply) {
            Ok(record) => self.send_record(link, &record),
            Err(_) => Next::Stop(End::Memory),
        }
    }

    /// Sends the record of a reply, and counts the call.
    fn send_record<L: Link>(&mut self, link: &mut L, record: &Record) -> Next
        ensures sends { Does (L.told link.old) (L.told link.new) (Sends record.now result self.old self.new) }
        ensures served { result ≡ Stop Served → self.new.calls ≡ 0 }
        ensures lost { result ≡ Stop Lost → self.new.strays ≡ 0 }
    {
        match link.send(record) {
            Ok(()) => self.count_call(),
            Err(LinkFault::Failed) => Next::Close,
            Err(LinkFault::Memory) => Next::Stop(End::Memory),
        }
    }
}

/// How it goes on after a call whose reply was sent: behind the last port that a client asks for the connection is closed.
fn close_after(record: &[u8], next: Next) -> Next
    ensures { GoesOnAs next result }
{
    match next {
        Next::Wait if asks_for_nfs(record) => Next::Close,
        next => next,
    }
}

/// Whether a record asks the port mapper for NFS.
fn asks_for_nfs(record: &[u8]) -> bool {
    let Ok((head, args)) = read_call(record) else {
        return false;
    };
    match read_mapping(args) {
        Ok(wanted) => head.prog == PORTMAP_PROGRAM && wanted.prog == NFS_PROGRAM,
        Err(_) => false,
    }
}
