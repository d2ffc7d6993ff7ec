//! The core of the client.

ghost use Rattle.std.specs.Prelude.{◌≡◌, ◌≤◌, ◌<◌, ◌+◌, ◌-◌, ◌^◌, length, IfOk, option_map};
ghost use Rattle.std.specs.Borrow.{sem};
ghost use Rattle.op_machines.specs.Fits.{Fits};
ghost use Rattle.client_core.specs.Ends.{ends_as};
ghost use Rattle.client_core.specs.Fresh.{AreSizes, IsFresh};
ghost use Rattle.client_core.specs.Lanes.{AnsweredFrom};
ghost use Rattle.client_core.specs.Numbers.{IsIdle};
ghost use Rattle.client_core.specs.View.{IsSound};
ghost use Rattle.client_core.specs.Steps.{Begins, Hears, WereSent, SendsBy, call_sent, FailsBy, AnswersBy, lost};

use crate::lane::Purpose;
use crate::setup::Setup;
use crate::work::Work;
use op_machines::Machine;
use page_cache::PageCache;
use rpc_retry::Waiting;
use std::alloc::Global;
use std::marker::Model;
use world_model::Answer;
use xdr_codec::{Lent, Memory};

/// Sixteen lanes, each with one operation under way, over one shelf and one table of calls.
#[derive(Drop)]
pub struct Core {
    work: Work,
}

impl Model for Core {
    ghost use Rattle.client_core.specs.contracts.work.Work.{the_row as work_row};
    ghost use Rattle.client_core.specs.View.{View, IsSound};

    ghost Value = { View };

    ghost coded = { work_row.coded };

    ghost view = { λ c. c.work };

    ghost invariant = { λ c. IsSound c.work };
}

impl Core {
    /// No operation is under way, and nothing is kept but the pages of the set-up. Both sizes are 1 to 65,536, and one of READ
    /// above 4,096 is whole pages.
    pub fn new(alloc: Global, setup: Setup) -> Result<Core, Memory>
        requires first { 1 ≤ setup.first_xid }
        requires last { setup.first_xid + setup.limit ≤ 2 ^ 32 - 1 }
        requires sizes { AreSizes setup }
        ensures { IfOk result (IsFresh setup) }
    {
        let work = Work::new(alloc, setup)?;
        Ok(Core { work })
    }

    /// What holds at any time: at most sixteen lanes have an operation and 32 calls wait, and each number of a write, moment and
    /// xid is given out once. A fact for proofs.
    pub fn is_sound(&self)
        ensures sound { IsSound self.now }
        ensures few { length self.now.calls.calls ≤ 32 }
    {
        self.work.calls_are_few();
    }

    /// Begins an operation in a lane of 1 to 16 that has none. A reading of the clock below an earlier one counts as the greatest
    /// earlier one. In a lost session it is answered `Lost` at once.
    pub fn begin(&mut self, lane: u8, machine: Machine, now: u64)
        requires fits { Fits machine }
        requires idle { IsIdle lane self.old.lanes }
        requires few { self.old.begun < 2 ^ 32 }
        ensures { Begins self.old lane machine now self.new }
    {
        self.work.begin(lane, machine, now);
    }

    /// The call whose record is sent next, with its purpose and how often it was sent; none in a lost session.
    pub fn next_send(&mut self) -> Option<&Waiting<Purpose>>
        ensures* ends { sem 𝓛 (ends_as self.entry (SendsBy self.old (option_map (λ call. call.now.bytes) result))) }
        ensures lends { option_map (λ call. call.now) result ≡ call_sent self.old }
    {
        self.work.next_send()
    }

    /// Takes a record, once each call that waits was sent: whether it was a reply to one of them. The operation that made the
    /// call makes the first step, then the others go on as far as they can. If the record can be shared on, answers may share it.
    pub fn take(&mut self, rec: &Lent<'_>) -> bool
        requires sent { WereSent self.old.calls.calls }
        ensures { Hears self.old rec.now result self.new }
    {
        self.work.take(rec)
    }

    /// The attempts that run have ended; false exactly if a call was given up, and then the session is lost.
    pub fn failed(&mut self) -> bool
        ensures { FailsBy self.old result self.new }
    {
        self.work.failed()
    }

    /// The session is lost: each operation that has no answer is answered `Lost`, and so is each later one.
    pub fn lose(&mut self)
        ensures { self.new ≡ lost self.old }
    {
        self.work.lose();
    }

    /// The answer of a lane, which is idle then. None exactly if it has none.
    pub fn answer(&mut self, lane: u8) -> Option<Answer>
        ensures { AnswersBy self.old lane result self.new }
    {
        self.work.answer(lane)
    }

    /// The least number of a lane with an answer that wasn't fetched. To ask this takes less than to ask for the answer of each lane.
    pub fn least_answered(&self) -> Option<u8>
        ensures { AnsweredFrom result self.now.lanes }
    {
        self.work.least_answered()
    }

    /// The pages that are kept at the end.
    pub fn into_pages(self) -> PageCache
        ensures { result ≡ self.shelf.pages }
    {
        self.work.into_pages()
    }
}
