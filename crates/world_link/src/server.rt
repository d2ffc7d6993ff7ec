//! The server's side of the simulated world.

ghost use Rattle.std.specs.Prelude.{⊤, ◌≡◌, ◌≤◌, ◌<◌, ◌++◌, ◌∷◌, [], None, Some, unwrap_or, length, take, IfOk, IfSome, OnOk, OnErr};
ghost use Rattle.export_fs.specs.Spelling.{HasSpellingReply};
ghost use Rattle.export_fs.specs.Executed.{executed};
ghost use Rattle.export_fs.specs.Partial.{IsWrite, partly_executed};
ghost use Rattle.export_serve.specs.Spelling.{RepliesTo, reply_bytes};
ghost use Rattle.export_serve.specs.declared.request.Asked.TheVariants as askings;
ghost use Rattle.world_model.specs.declared.message.Call.{Call};
ghost use Rattle.world_model.specs.Messages.{SpellsReply};
ghost use Rattle.world_model.specs.Rules.{most_bytes};
ghost use Rattle.world_link.specs.Refused as refusals;
ghost use Rattle.world_link.specs.Handling as handling;
ghost use Rattle.world_link.specs.Going.{Goes};
ghost use Rattle.world_link.specs.Honest.{IsAsked, IsBound, IsAnswer, MayAnswer, StaysHonest};
ghost use Rattle.world_link.specs.Ends.{ends_of};
ghost use Rattle.world_link.specs.Routes.{AnswersAt, IsAskedBy, KeepsEnds, MayAnswerTo};
ghost use Rattle.world_link.specs.View.{served};

use crate::broken::Broken;
use crate::directive::{PartialWrite, RequestId};
use crate::held::Held;
use crate::kept::Kept;
use crate::manner::{Manner, PLAIN};
use crate::refused::refused_by;
use crate::routed::{Routed, Told};
use export_fs::{Export, handles_fit};
use export_serve::{Asked, asked, spelled};
use limits::RECORD_BYTES;
use nfs_file_calls::FileCall;
use std::alloc::Global;
use std::collections::{BTreeMap, VecDeque};
use world_model::{Call, Entry, Reply};
use xdr_codec::{Blob, Memory};

/// The export, what is told of it and of the link, and the records that came and that are on their way back.
#[derive(Drop)]
pub(crate) struct Server {
    pub(crate) alloc: Global,
    pub(crate) export: Export,
    /// What is told, each entry with the end that caused it.
    pub(crate) told: Vec<Told>,
    /// Beside some of the entries, how their WRITEs broke off.
    pub(crate) partials: Vec<Broken>,
    /// The records that were sent, by their names.
    pub(crate) sent: BTreeMap<RequestId, Kept>,
    /// The replies that are ready, the first one first.
    pub(crate) ready: VecDeque<Routed>,
    /// The replies that wait for turns, in order of transmission.
    pub(crate) held: Vec<Held>,
}

impl Server {
    /// Handles what a record from that end asks for, and gives the record of the reply, if there is one.
    #[tactic(auto, using(crate::proofs::TurnStaysHonest::asked_serve))]
    pub(crate) fn handle(
        &mut self,
        manner: &Manner,
        end: u8,
        asked: Asked,
    ) -> Result<Option<Blob>, Memory>
        ensures done { IfOk result (λ reply. (served self.new, reply) ≡ handling.done manner.now (served self.old) asked) }
        ensures goes { Goes (served self.old) (served self.new) }
        ensures stays { IsBound manner.now.limit → IsAsked (served self.old).entries asked → StaysHonest (served self.old) (served self.new) }
        ensures answers { IsAsked (served self.old).entries asked → IfOk result (MayAnswer (served self.new).entries) }
        ensures ends { KeepsEnds (IsAskedBy (ends_of self.old).told end asked) (ends_of self.old) (ends_of self.new) }
        ensures answers_to { IsAskedBy (ends_of self.old).told end asked → IfOk result (MayAnswerTo (ends_of self.new).told end) }
    {
        match asked {
            Asked::NoCall => Ok(None),
            Asked::Refuse { xid: _xid, bytes } => match short_enough(bytes) {
                Ok(bytes) => Ok(Some(bytes)),
                Err(memory) => Err(memory),
            },
            Asked::Serve { xid, call } => {
                if manner.lost {
                    return Ok(None);
                }
                match self.serve(manner, end, xid, call) {
                    Ok(bytes) => Ok(Some(bytes)),
                    Err(memory) => Err(memory),
                }
            }
        }
    }

    /// Answers a call from that end, and tells it. When out of memory the call may be executed and told, with its reply lost.
    fn serve(&mut self, manner: &Manner, end: u8, xid: u32, call: Call) -> Result<Blob, Memory>
        ensures told { OnOk result (served self.new ≡ handling.tells (served self.old) xid call (handling.breaks manner.now call) (handling.answered_as manner.now self.old.export call)) }
        ensures reply { IfOk result (λ bytes. bytes ≡ reply_bytes xid (handling.answered_as manner.now self.old.export call).1) }
        ensures goes { Goes (served self.old) (served self.new) }
        ensures stays { IsBound manner.now.limit → IsAsked (served self.old).entries (askings.Serve xid call) → StaysHonest (served self.old) (served self.new) }
        ensures answers { IfOk result (IsAnswer (served self.new).entries) }
        ensures ends { KeepsEnds (IsAskedBy (ends_of self.old).told end (askings.Serve xid call)) (ends_of self.old) (ends_of self.new) }
        ensures answers_to { IfOk result (λ bytes. AnswersAt (ends_of self.new).told end (length (ends_of self.new).told) bytes) }
    {
        match manner.breaks(&call) {
            Some(part) => self.serve_part(part, end, xid, call),
            None => self.serve_whole(manner, end, xid, call),
        }
    }

    /// Answers a WRITE that breaks off, and tells it with what its entry doesn't say. When out of memory the call may be
    /// executed and told, with its reply lost.
    fn serve_part(
        &mut self,
        part: PartialWrite,
        end: u8,
        xid: u32,
        call: Call,
    ) -> Result<Blob, Memory>
        requires write { IsWrite call }
        requires fails { 0 < part.status }
        ensures told { OnOk result (served self.new ≡ handling.tells (served self.old) xid call (Some part) (partly_executed self.old.export call part.bytes part.status)) }
        ensures reply { IfOk result (λ bytes. bytes ≡ reply_bytes xid (partly_executed self.old.export call part.bytes part.status).1) }
        ensures goes { Goes (served self.old) (served self.new) }
        ensures stays { IsAsked (served self.old).entries (askings.Serve xid call) → StaysHonest (served self.old) (served self.new) }
        ensures answers { IfOk result (IsAnswer (served self.new).entries) }
        ensures ends { KeepsEnds (IsAskedBy (ends_of self.old).told end (askings.Serve xid call)) (ends_of self.old) (ends_of self.new) }
        ensures answers_to { IfOk result (λ bytes. AnswersAt (ends_of self.new).told end (length (ends_of self.new).told) bytes) }
    {
        handles_fit(&call);
        self.told.reserve(1)?;
        self.partials.reserve(1)?;
        let reply = self.export.execute_partial(&call, part.bytes, part.status)?;
        let bytes = reply_record(self.alloc, xid, &reply);
        let at = self.told.len();
        self.partials.push(Broken { at, part }).unwrap();
        let entry = Entry::Executed { xid, call, reply };
        self.told.push(Told { end, entry }).unwrap();
        bytes
    }

    /// Answers a call that doesn't break off, and tells it. When out of memory the call may be executed and told, with
    /// its reply lost.
    fn serve_whole(
        &mut self,
        manner: &Manner,
        end: u8,
        xid: u32,
        call: Call,
    ) -> Result<Blob, Memory>
        ensures told { OnOk result (served self.new ≡ handling.tells (served self.old) xid call None (handling.handled None manner.now self.old.export call)) }
        ensures reply { IfOk result (λ bytes. bytes ≡ reply_bytes xid (handling.handled None manner.now self.old.export call).1) }
        ensures goes { Goes (served self.old) (served self.new) }
        ensures stays { IsBound manner.now.limit → IsAsked (served self.old).entries (askings.Serve xid call) → StaysHonest (served self.old) (served self.new) }
        ensures answers { IfOk result (IsAnswer (served self.new).entries) }
        ensures ends { KeepsEnds (IsAskedBy (ends_of self.old).told end (askings.Serve xid call)) (ends_of self.old) (ends_of self.new) }
        ensures answers_to { IfOk result (λ bytes. AnswersAt (ends_of self.new).told end (length (ends_of self.new).told) bytes) }
    {
        handles_fit(&call);
        self.told.reserve(1)?;
        let reply = answer(self.alloc, &mut self.export, manner, &call)?;
        let bytes = reply_record(self.alloc, xid, &reply);
        let entry = Entry::Executed { xid, call, reply };
        self.told.push(Told { end, entry }).unwrap();
        bytes
    }

    /// A further copy of a transmission is executed plainly, and its reply is ready. A transmission that wasn't made
    /// has none.
    fn copy(&mut self, sending: &RequestId) -> Result<(), Memory>
        ensures ok { OnOk result (served self.new ≡ handling.copied (served self.old) sending.now) }
        ensures goes { Goes (served self.old) (served self.new) }
        ensures stays { StaysHonest (served self.old) (served self.new) }
        ensures ends { KeepsEnds (⊤) (ends_of self.old) (ends_of self.new) }
    {
        match self.sent.get(sending) {
            Some(rec) => {
                let asked = asked(self.alloc, rec.bytes())?;
                let end = rec.end();
                let reply = self.handle(&PLAIN, end, asked)?;
                self.make_ready(end, reply)
            }
            None => Ok(()),
        }
    }

    /// The copies are executed in order.
    pub(crate) fn copy_all(&mut self, sendings: &[RequestId]) -> Result<(), Memory>
        ensures ok { OnOk result (served self.new ≡ handling.all_copied (served self.old) sendings.now) }
        ensures goes { Goes (served self.old) (served self.new) }
        ensures stays { StaysHonest (served self.old) (served self.new) }
        ensures ends { KeepsEnds (⊤) (ends_of self.old) (ends_of self.new) }
    {
        for sending in sendings {
            self.copy(sending)?;
        }
        Ok(())
    }

    /// A reply is ready for that end, if there is one. When out of memory nothing is changed.
    pub(crate) fn make_ready(&mut self, end: u8, reply: Option<Blob>) -> Result<(), Memory>
        ensures ok { OnOk result (served self.new ≡ handling.readied (served self.old) reply) }
        ensures err { OnErr result (served self.new ≡ served self.old) }
        ensures goes { Goes (served self.old) (served self.new) }
        ensures ends { KeepsEnds (MayAnswerTo (ends_of self.old).told end reply) (ends_of self.old) (ends_of self.new) }
    {
        if let Some(bytes) = reply {
            self.ready.push_back(Routed { end, bytes })?;
        }
        Ok(())
    }
}

/// The record of a reply.
fn reply_record(alloc: Global, xid: u32, reply: &Reply) -> Result<Blob, Memory>
    requires { HasSpellingReply reply.now }
    ensures exact { IfOk result (λ bytes. bytes ≡ reply_bytes xid reply.now) }
    ensures spells { IfOk result (λ bytes. (call : Call) → RepliesTo call reply.now → SpellsReply xid call reply.now bytes) }
    ensures short { IfOk result (λ bytes. length bytes ≤ most_bytes) }
{
    match spelled(alloc, xid, reply) {
        Ok(bytes) => short_enough(bytes),
        Err(memory) => Err(memory),
    }
}

/// The record. It is Memory if it has more than 131,072 bytes, which no reply has: the client would take no such
/// record.
fn short_enough(bytes: Blob) -> Result<Blob, Memory>
    ensures same { IfOk result (λ short. short ≡ bytes) }
    ensures short { IfOk result (λ short. length short ≤ most_bytes) }
{
    if bytes.bytes().len() > RECORD_BYTES {
        return Err(Memory);
    }
    Ok(bytes)
}

/// The reply to a call: one that fails if its status is given, or else that of the export.
fn answer(alloc: Global, export: &mut Export, manner: &Manner, call: &Call) -> Result<Reply, Memory>
    ensures after { OnOk result (export.new ≡ (handling.handled None manner.now export.old call.now).0) }
    ensures reply { IfOk result (λ reply. reply ≡ (handling.handled None manner.now export.old call.now).1) }
    ensures spelled { IfOk result HasSpellingReply }
    ensures err { OnErr result (export.new ≡ export.old) }
{
    match given(manner, call) {
        Some(reply) => Ok(reply),
        None => execute(alloc, export, manner.limit, call),
    }
}

/// The reply to a call whose status is given.
fn given(manner: &Manner, call: &Call) -> Option<Reply>
    ensures is { result ≡ refusals.refused_by (refusals.status_for manner.now.mount manner.now.answer call.now) call.now }
    ensures spelled { IfSome result HasSpellingReply }
{
    match manner.status_for(call) {
        Some(status) => refused_by(status, call),
        None => None,
    }
}

/// Executes a call, a READ or WRITE with at most so many bytes.
fn execute(
    alloc: Global,
    export: &mut Export,
    limit: Option<u32>,
    call: &Call,
) -> Result<Reply, Memory>
    ensures after { OnOk result (export.new ≡ (executed export.old (handling.shortened limit call.now)).0) }
    ensures reply { IfOk result (λ reply. reply ≡ (executed export.old (handling.shortened limit call.now)).1) }
    ensures spelled { IfOk result HasSpellingReply }
    ensures err { OnErr result (export.new ≡ export.old) }
{
    match limit {
        Some(most) => execute_at_most(alloc, export, most, call),
        None => export.execute(call),
    }
}

fn execute_at_most(
    alloc: Global,
    export: &mut Export,
    most: u32,
    call: &Call,
) -> Result<Reply, Memory>
    ensures after { OnOk result (export.new ≡ (executed export.old (handling.shortened_to most call.now)).0) }
    ensures reply { IfOk result (λ reply. reply ≡ (executed export.old (handling.shortened_to most call.now)).1) }
    ensures spelled { IfOk result HasSpellingReply }
    ensures err { OnErr result (export.new ≡ export.old) }
{
    match shortened(alloc, most, call)? {
        Some(cut) => export.execute(&cut),
        None => export.execute(call),
    }
}

/// A READ or WRITE of at most so many bytes. None if it is another call, which stays as it is.
fn shortened(alloc: Global, most: u32, call: &Call) -> Result<Option<Call>, Memory>
    ensures { IfOk result (λ cut. unwrap_or cut call.now ≡ handling.shortened_to most call.now) }
{
    let Call::File(call) = call else {
        return Ok(None);
    };
    match shortened_file(alloc, most, call)? {
        Some(cut) => Ok(Some(Call::File(cut))),
        None => Ok(None),
    }
}

fn shortened_file(alloc: Global, most: u32, call: &FileCall) -> Result<Option<FileCall>, Memory>
    ensures { IfOk result (λ cut. unwrap_or cut call.now ≡ handling.shortened_file most call.now) }
{
    match call {
        FileCall::Read {
            file,
            offset,
            count,
        } => Ok(Some(FileCall::Read {
            file: *file,
            offset: *offset,
            count: (*count).min(most),
        })),
        FileCall::Write {
            file,
            offset,
            how,
            bytes,
        } => Ok(Some(FileCall::Write {
            file: *file,
            offset: *offset,
            how: *how,
            bytes: front(alloc, bytes.bytes(), most)?,
        })),
        _ => Ok(None),
    }
}

/// The first of the bytes, at most so many.
fn front(alloc: Global, bytes: &[u8], most: u32) -> Result<Blob, Memory>
    ensures { IfOk result (λ front. front ≡ take most bytes.now) }
{
    let most = most as usize;
    if most < bytes.len() {
        let (front, _) = bytes.split_at(most);
        Blob::copy(alloc, front)
    } else {
        Blob::copy(alloc, bytes)
    }
}
