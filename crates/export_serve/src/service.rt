//! An export that answers records.

ghost use Rattle.std.specs.Prelude.{◌≡◌, ◌≢◌, ◌⊎◌, ℕ, List, [], MatchOption, Some, IfOk, OnOk, OnErr};
ghost use Rattle.export_fs.specs.Spelling.{HasSpellingCall};
ghost use Rattle.export_serve.specs.declared.request.Asked.TheVariants.{NoCall, Serve};
ghost use Rattle.export_serve.specs.Asking.{asked_at};
ghost use Rattle.export_serve.specs.Kept.{reply_kept};
ghost use Rattle.export_serve.specs.Serving.{after, reply_of, executes, served, LeftByMemory, StepsOnce};
ghost use Rattle.export_fs.specs.Executed.{executed};
ghost use Rattle.export_fs.specs.Seen.{server_of};
ghost use Rattle.world_model.specs.Service.{Serves};

use crate::asking::asked;
use crate::kept_replies::{KeptReplies, KeptReply};
use crate::request::Asked;
use crate::spelling::spelled;
use export_fs::Export;
use std::alloc::Global;
use std::marker::Model;
use world_model::Call;
use xdr_codec::{Blob, Memory};

/// An export that answers records, and the last 64 replies that it gave: a call that comes again, as one whose reply
/// was lost, is answered so and isn't executed again.
#[derive(Drop)]
pub struct Service {
    alloc: Global,
    export: Export,
    kept: KeptReplies,
}

impl Model for Service {
    ghost use Rattle.export_serve.specs.Serving.{ServiceView};

    ghost Value = { ServiceView };

    ghost view = { λ s. record { export = s.export; kept = s.kept } };
}

impl Service {
    /// A service of the export, which kept no reply yet. It takes no memory.
    pub fn new(alloc: Global, fs: Export) -> Service
        ensures { result ≡ record { export = fs; kept = [] } }
    {
        Service {
            alloc,
            export: fs,
            kept: KeptReplies::new(alloc),
        }
    }

    /// Answers a record; None exactly if it is no call. A record equal to one whose reply is kept executes nothing,
    /// and that reply is the answer. Any other call is refused exactly if `asked` says so, or else executed, as one
    /// step of a server, and its reply is kept.
    ///
    /// If it runs out of memory on a record whose reply wasn't kept, the export may have taken the step of that call.
    /// Then no reply to it is kept, and all else is as it was.
    pub fn serve(&mut self, rec: &[u8]) -> Result<Option<Blob>, Memory>
        ensures left { OnOk result (self.new ≡ (served rec.now self.old).0) }
        ensures answered { IfOk result (λ answer. answer ≡ (served rec.now self.old).1) }
        ensures repeated { (reply : List ℕ) → reply_kept rec.now self.old.kept ≡ Some reply → (self.new ≡ self.old) × IfOk result (λ answer. answer ≡ Some reply) }
        ensures none { IfOk result (λ answer. MatchOption answer (asked_at rec.now ≡ NoCall) (λ bytes. asked_at rec.now ≢ NoCall)) }
        ensures steps { IfOk result (λ answer. StepsOnce rec.now self.old self.new) }
        ensures memory { OnErr result (LeftByMemory rec.now self.old self.new) }
    {
        if let Some(reply) = self.kept.reply_to(rec) {
            return Ok(Some(Blob::copy(self.alloc, reply.bytes())?));
        }
        match asked(self.alloc, rec)? {
            Asked::NoCall => Ok(None),
            Asked::Refuse { bytes, .. } => Ok(Some(bytes)),
            Asked::Serve { xid, call } => Ok(Some(self.execute(rec, xid, &call)?)),
        }
    }

    /// Executes the call that the record asks for, and keeps the reply. When out of memory the call may be executed,
    /// and its reply isn't kept.
    fn execute(&mut self, rec: &[u8], xid: u32, call: &Call) -> Result<Blob, Memory>
        requires spelled { HasSpellingCall call.now }
        requires asks { asked_at rec.now ≡ Serve xid call.now }
        ensures ok { OnOk result (self.new ≡ executes rec.now xid call.now self.old) }
        ensures reply { IfOk result (λ bytes. bytes ≡ reply_of self.old.export xid call.now) }
        ensures serves { IfOk result (λ bytes. Serves (server_of self.old.export) call.now (executed self.old.export call.now).1 (server_of self.new.export)) }
        ensures err { OnErr result ((self.new ≡ self.old) ⊎ (self.new ≡ record self.old { export = after self.old.export call.now })) }
    {
        let record = Blob::copy(self.alloc, rec)?;
        let reply = self.export.execute(call)?;
        let bytes = spelled(self.alloc, xid, &reply)?;
        let answer = Blob::copy(self.alloc, bytes.bytes())?;
        self.kept.keep(KeptReply {
            xid,
            call: record,
            reply: bytes,
        })?;
        Ok(answer)
    }
}
