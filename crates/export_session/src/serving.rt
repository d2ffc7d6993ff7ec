//! What is served, and how many calls are still to be answered.

ghost use Rattle.std.specs.Prelude.{◌≡◌, ◌-◌, [], IfOk, OnOk, OnErr};
ghost use Rattle.export_serve.specs.Serving.{StepsOnce};
ghost use Rattle.export_session.specs.declared.next.End.TheVariants.{Served, Lost};
ghost use Rattle.export_session.specs.declared.next.Next.TheVariants.{Stop};
ghost use Rattle.export_session.specs.Answers.{answer_to, serves, LeftOut};
ghost use Rattle.export_session.specs.Goes.{IsCalm, IsCounted};

use crate::next::{End, Next};
use export_fs::Export;
use export_serve::Service;
use std::alloc::Global;
use std::marker::Model;
use xdr_codec::{Blob, Memory};

/// How many records that are no call are read at most.
const MOST_STRAYS: u32 = 65_536;

/// An export that is served at a port, and what it may still do.
#[derive(Drop)]
pub struct Serving {
    pub(crate) alloc: Global,
    service: Service,
    port: u16,
    calls: u32,
    strays: u32,
}

impl Model for Serving {
    ghost use Rattle.export_session.specs.Answers.{ServingView};

    ghost Value = { ServingView };

    ghost view = { λ s. record { port = s.port; service = s.service; calls = s.calls; strays = s.strays } };
}

impl Serving {
    /// Serving of so many calls by an export at that port. Of records that are no call 65,536 may come.
    pub fn new(alloc: Global, fs: Export, port: u16, calls: u32) -> Serving
        ensures { result ≡ record { port = port; service = record { export = fs; kept = [] }; calls = calls; strays = 65536 } }
    {
        Serving {
            alloc,
            service: Service::new(alloc, fs),
            port,
            calls,
            strays: MOST_STRAYS,
        }
    }

    /// The answer to a record: of the port mapper, or else of the service. None if the record is no call.
    pub(crate) fn reply_to(&mut self, rec: &[u8]) -> Result<Option<Blob>, Memory>
        ensures answers { IfOk result (λ reply. reply ≡ answer_to self.old rec.now) }
        ensures serves { OnOk result (self.new ≡ serves self.old rec.now) }
        ensures steps { IfOk result (λ reply. StepsOnce rec.now self.old.service self.new.service) }
        ensures memory { OnErr result (LeftOut rec.now self.old self.new) }
    {
        match portmap_calls::answer(self.alloc, rec, self.port) {
            Ok(Some(reply)) => Ok(Some(reply)),
            Ok(None) => self.service.serve(rec),
            Err(fault) => Err(fault),
        }
    }

    /// Counts a call whose reply was sent.
    pub(crate) fn count_call(&mut self) -> Next
        ensures counts { self.new ≡ record self.old { calls = self.old.calls - 1 } }
        ensures served { result ≡ Stop Served → self.new.calls ≡ 0 }
        ensures lost { result ≡ Stop Lost → self.new.strays ≡ 0 }
        ensures goes_on { IsCounted result }
    {
        self.calls = self.calls.saturating_sub(1);
        if self.calls == 0 {
            Next::Stop(End::Served)
        } else {
            Next::Wait
        }
    }

    /// Counts a record that is no call.
    pub(crate) fn count_stray(&mut self) -> Next
        ensures counts { self.new ≡ record self.old { strays = self.old.strays - 1 } }
        ensures served { result ≡ Stop Served → self.new.calls ≡ 0 }
        ensures lost { result ≡ Stop Lost → self.new.strays ≡ 0 }
        ensures goes_on { IsCalm result }
    {
        self.strays = self.strays.saturating_sub(1);
        if self.strays == 0 {
            Next::Stop(End::Lost)
        } else {
            Next::Wait
        }
    }
}
