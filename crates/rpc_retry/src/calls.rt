//! The calls that wait, in order of making.

ghost use Rattle.std.specs.Prelude.{◌≡◌, ◌+◌, ◌-◌, ◌≤◌, ◌^◌, length, [], ◌∷◌, ◌++◌, None, Ok, OnOk, OnErr, IfOk, IfSome, IfNone, option_map, List, ℕ};
ghost use Rattle.std.specs.Borrow.{sem};
ghost use Rattle.rpc_message.specs.Call.{xid_at, call_head_bytes, SpellsCallHead};
ghost use Rattle.rpc_retry.specs.Held.{Held, next_xid, KeepsSettings};
ghost use Rattle.rpc_retry.specs.Sound.{IsRecord, IsSound};
ghost use Rattle.rpc_retry.specs.Waiting.{made_call, first_due, sent, sent_call, first_given_up, waiting_at};
ghost use Rattle.rpc_retry.specs.Put.{check_of, AnswersPut, call_head, call_bytes};
ghost use Rattle.rpc_retry.specs.Take.{Takes, TakesPurpose, after_taking, IfDropped};
ghost use Rattle.rpc_retry.specs.Records.{KeepsRecords, IsGone};
ghost use Rattle.rpc_retry.specs.Runs.{Done, Runs, Story, SentApart, DoesMake, DoesGive, DoesTake, DoesAnswer, DoesFail};
ghost use Rattle.rpc_retry.specs.Fail.{answer_after, after_failure, ShowsAttempts};

use crate::answers::{AfterFailure, PutFault, PutRefusal, Taken};
use crate::table::{fail_all, oldest_given_up, place_of_due};
use crate::waiting::Waiting;
use indexmap::IndexMap;
use limits::CALLS_IN_FLIGHT;
use nfs_types::PROGRAM_VERSION;
use rpc_message::{CallHead, Cred, KeptCred, read_reply, write_call_by, xid_of};
use std::alloc::Global;
use std::marker::Model;
use xdr_codec::{Memory, Record, Writer};

/// The bytes of a record for which there is room from the beginning: those of a call without data are fewer, mostly.
const ROOM: usize = 512;

/// The calls that wait, in order of making, each for a purpose.
#[derive(Drop)]
pub struct Calls<P> {
    alloc: Global,
    first_xid: u32,
    limit: u32,
    cred: KeptCred,
    made: u32,
    calls: IndexMap<u32, Waiting<P>>,
}

impl<P> Model for Calls<P> {
    ghost use Rattle.rpc_retry.specs.Held.{Held};
    ghost use Rattle.rpc_retry.specs.Sound.{IsSound};

    ghost Value = { Held P };

    ghost view = { λ c. record { first_xid = c.first_xid; limit = c.limit; cred = c.cred; made = c.made; calls = c.calls.entries } };

    ghost invariant = { λ c. IsSound (record { first_xid = c.first_xid; limit = c.limit; cred = c.cred; made = c.made; calls = c.calls.entries }) };
}

impl<P: Drop> Calls<P> {
    ghost use Rattle.rpc_retry.specs.Ends.{ends_with};

    /// No calls yet. The first has this xid; at most so many can be made. The first xid is at least 1, and with the
    /// limit added at most 2^32 - 1.
    pub fn new(alloc: Global, first_xid: u32, limit: u32, cred: Cred) -> Calls<P>
        requires first { 1 ≤ first_xid }
        requires last { first_xid + limit ≤ 2 ^ 32 - 1 }
        ensures { result ≡ record { first_xid = first_xid; limit = limit; cred = cred; made = 0; calls = [] } }
    {
        Calls::with_cred(alloc, first_xid, limit, KeptCred::of(cred))
    }

    /// As `new`, by a credential whose spelling may be kept.
    pub fn with_cred(alloc: Global, first_xid: u32, limit: u32, cred: KeptCred) -> Calls<P>
        requires first { 1 ≤ first_xid }
        requires last { first_xid + limit ≤ 2 ^ 32 - 1 }
        ensures { result ≡ record { first_xid = first_xid; limit = limit; cred = cred; made = 0; calls = [] } }
    {
        Calls {
            alloc,
            first_xid,
            limit,
            cred,
            made: 0,
            calls: IndexMap::new(alloc),
        }
    }

    /// The xid of the call that is made next.
    pub fn next_xid(&self) -> u32
        ensures { result ≡ next_xid self.now }
    {
        self.first_xid + self.made
    }

    /// How many calls were made.
    pub fn made(&self) -> u32
        ensures { result ≡ self.now.made }
    {
        self.made
    }

    /// How many calls wait, at most 32.
    pub fn waiting(&self) -> usize
        ensures { result ≡ length self.now.calls }
    {
        self.calls.len()
    }

    /// Its bounds: a fact for proofs.
    pub fn is_sound(&self)
        ensures { IsSound self.now }
    {
        let _first = self.first_xid;
    }

    /// What became of the call of each xid, if they came from no calls by what the calls below do: a fact for proofs.
    /// - It was never made; or
    /// - it waits, was sent as often as its attempts count, always with the same record, and no reply to it was taken; or
    /// - one reply was taken, and it waits no more.
    pub fn have_stories(&self)
        ensures { (ds : List Done) → Runs ds self.now → (xid : ℕ) → Story ds self.now xid }
    {}

    /// Between two transmissions of a call the attempts that ran have failed. An attempt of a call that waits runs
    /// exactly if it was sent since the last failure. A fact for proofs.
    pub fn are_sent_apart(&self)
        ensures { (ds : List Done) → Runs ds self.now → (xid : ℕ) → SentApart ds self.now xid }
    {}

    /// Whether a call can be made now. Spent exactly if the calls made equal the limit; else Crowded exactly if
    /// 32 calls wait.
    pub fn check(&self) -> Result<(), PutRefusal>
        ensures { result ≡ check_of self.now }
    {
        if self.made == self.limit {
            return Err(PutRefusal::Spent);
        }
        if self.calls.len() == CALLS_IN_FLIGHT {
            return Err(PutRefusal::Crowded);
        }
        Ok(())
    }

    /// Makes a call of version 3 of a program (RFC 5531, section 9), and answers its xid. The call is due. Spent and
    /// Crowded come as of `check`, in that order. After a refusal nothing is changed.
    pub fn put(&mut self, prog: u32, proc: u32, args: &[u8], purpose: P) -> Result<u32, PutFault>
        ensures answer { AnswersPut self.old (check_of self.old) result }
        ensures settings { KeepsSettings self.old self.new }
        ensures made { OnOk result (self.new.made ≡ self.old.made + 1) }
        ensures calls { OnOk result (self.new.calls ≡ self.old.calls ++ (next_xid self.old, made_call (call_bytes self.old.cred (next_xid self.old) prog proc args.now) purpose) ∷ []) }
        ensures spelled { IfOk result (λ xid. SpellsCallHead (call_head xid prog proc) args.now (call_bytes self.old.cred xid prog proc args.now)) }
        ensures records { KeepsRecords self.old self.new.calls }
        ensures step { IfOk result (λ xid. DoesMake self.old xid (call_bytes self.old.cred (next_xid self.old) prog proc args.now) self.new) }
        ensures err { OnErr result (self.new ≡ self.old) }
    {
        self.check()?;
        let bytes = self.spell(prog, proc, args)?;
        let xid = self.put_checked(bytes, purpose)?;
        Ok(xid)
    }

    /// The record of the next call, up to its arguments: they are appended to it, and `put_checked` takes it.
    pub fn begin(&self, prog: u32, proc: u32) -> Result<Writer, Memory>
        ensures head { IfOk result (λ w. w ≡ call_head_bytes (call_head (next_xid self.now) prog proc) self.now.cred) }
        ensures spelled { OnOk result ((args : List ℕ) → SpellsCallHead (call_head (next_xid self.now) prog proc) args (call_bytes self.now.cred (next_xid self.now) prog proc args)) }
    {
        let head = CallHead {
            xid: self.next_xid(),
            prog,
            vers: PROGRAM_VERSION,
            proc,
        };
        let mut record = Writer::record(self.alloc, ROOM)?;
        write_call_by(&mut record, &head, &self.cred)?;
        Ok(record)
    }

    /// As `put`, of a call that may be made, by `check`, and whose record is spelled already: the record is taken as it is, and not
    /// copied. The xid of the call; an error is want of memory.
    pub fn put_checked(&mut self, bytes: Record, purpose: P) -> Result<u32, Memory>
        requires may { check_of self.old ≡ Ok tt }
        requires spelled { IsRecord self.old.cred (next_xid self.old) bytes }
        ensures answer { IfOk result (λ xid. xid ≡ next_xid self.old) }
        ensures settings { KeepsSettings self.old self.new }
        ensures made { OnOk result (self.new.made ≡ self.old.made + 1) }
        ensures calls { OnOk result (self.new.calls ≡ self.old.calls ++ (next_xid self.old, made_call bytes purpose) ∷ []) }
        ensures records { KeepsRecords self.old self.new.calls }
        ensures step { IfOk result (λ xid. DoesMake self.old xid bytes self.new) }
        ensures err { OnErr result (self.new ≡ self.old) }
    {
        let xid = self.next_xid();
        self.calls.insert(xid, Waiting::new(bytes, purpose))?;
        self.made += 1;
        Ok(xid)
    }

    /// Lends the oldest call that is due, so that its record is sent, and counts one attempt for it: it is due no more. None exactly
    /// if none is due.
    pub fn next_send(&mut self) -> Option<&Waiting<P>>
        ensures* ends { sem 𝓛 (ends_with P.row self.entry (sent self.old.calls)) }
        ensures lends { option_map (λ call. call.now) result ≡ option_map (λ e. sent_call e.1) (first_due self.old.calls) }
        ensures gives { option_map (λ call. call.now.bytes) result ≡ option_map (λ e. e.1.bytes) (first_due self.old.calls) }
        ensures records { KeepsRecords self.old (sent self.old.calls) }
        ensures step { DoesGive self.old (option_map (λ call. call.now.bytes) result) }
    {
        let at = place_of_due(&self.calls)?;
        let call = &mut self.calls[at];
        call.send();
        Some(call)
    }

    /// Takes the reply to a call that waits, which waits no more (RFC 5531, section 9). Dropped exactly if the
    /// record has fewer than 4 bytes or its first word is no xid that waits; nothing is changed then.
    pub fn take<'a>(&mut self, rec: &'a [u8]) -> Taken<'a, P>
        ensures answer { Takes self.old.calls rec.entry.now result }
        ensures settings { KeepsSettings self.old self.new }
        ensures made { self.new.made ≡ self.old.made }
        ensures calls { self.new.calls ≡ after_taking (xid_at rec.entry.now) self.old.calls }
        ensures step { DoesAnswer self.old result self.new }
        ensures gone { IsGone result self.new.calls }
        ensures records { KeepsRecords self.old self.new.calls }
        ensures dropped { IfDropped result (self.new ≡ self.old) }
    {
        match self.take_purpose(rec) {
            Some((xid, purpose)) => Taken::Took {
                xid,
                purpose,
                body: read_reply(rec),
            },
            None => Taken::Dropped,
        }
    }

    /// As `take`, for a caller that reads the record itself: the xid of the call, and what it was made for. None exactly if
    /// `take` drops the record.
    pub fn take_purpose(&mut self, rec: &[u8]) -> Option<(u32, P)>
        ensures answer { TakesPurpose self.old.calls rec.now result }
        ensures settings { KeepsSettings self.old self.new }
        ensures made { self.new.made ≡ self.old.made }
        ensures calls { self.new.calls ≡ after_taking (xid_at rec.now) self.old.calls }
        ensures step { IfSome result (λ took. DoesTake self.old took.0 self.new) }
        ensures gone { IfSome result (λ took. waiting_at took.0 self.new.calls ≡ None) }
        ensures records { KeepsRecords self.old self.new.calls }
        ensures dropped { IfNone result (self.new ≡ self.old) }
    {
        let Some(xid) = xid_of(rec) else {
            return None;
        };
        match self.calls.shift_remove(&xid) {
            Some(call) => Some((xid, call.purpose)),
            None => None,
        }
    }

    /// Ends the attempt that runs of each call that waits (RFC 5531, section 5). GivenUp exactly if one of them has
    /// ended its fourth attempt, and then with the xid of the oldest: it waits on, and none becomes due. Else Resend,
    /// and all are due.
    pub fn failed(&mut self) -> AfterFailure
        ensures answer { result ≡ answer_after (first_given_up self.old.calls) }
        ensures attempts { ShowsAttempts self.old.calls result }
        ensures settings { KeepsSettings self.old self.new }
        ensures made { self.new.made ≡ self.old.made }
        ensures calls { self.new.calls ≡ after_failure self.old.calls }
        ensures step { DoesFail self.old self.new }
        ensures records { KeepsRecords self.old self.new.calls }
    {
        match oldest_given_up(&self.calls) {
            Some(xid) => {
                fail_all(&mut self.calls, false);
                AfterFailure::GivenUp(xid)
            }
            None => {
                fail_all(&mut self.calls, true);
                AfterFailure::Resend
            }
        }
    }

    /// The record of the next call.
    #[tactic(auto, using(xdr_codec::proofs::Written::finished))]
    fn spell(&self, prog: u32, proc: u32, args: &[u8]) -> Result<Record, Memory>
        ensures bytes { IfOk result (λ bytes. bytes ≡ call_bytes self.now.cred (next_xid self.now) prog proc args.now) }
        ensures spelled { IfOk result (λ bytes. SpellsCallHead (call_head (next_xid self.now) prog proc) args.now bytes) }
    {
        let mut record = self.begin(prog, proc)?;
        record.raw(args)?;
        record.finish_record(self.alloc)
    }
}
