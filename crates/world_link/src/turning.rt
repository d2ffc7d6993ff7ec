//! The turn of a transmission at the server.

ghost use Rattle.std.specs.Prelude.{⊤, ◌≡◌, position, IfOk, OnOk, OnErr};
ghost use Rattle.world_link.specs.Holding.{are_past};
ghost use Rattle.export_serve.specs.Asking.{asked_at};
ghost use Rattle.world_link.specs.Fates.{no_fate};
ghost use Rattle.world_link.specs.Handling as handling;
ghost use Rattle.world_link.specs.Turning as turning;
ghost use Rattle.world_link.specs.Going.{Goes};
ghost use Rattle.world_link.specs.Honest.{IsBound, IsSent, MayAnswer, StaysHonest};
ghost use Rattle.world_link.specs.Shown.{shown};
ghost use Rattle.world_link.specs.Ends.{ends_of};
ghost use Rattle.world_link.specs.Routes.{Answers, IsSentBy, KeepsEnds, MayAnswerTo};
ghost use Rattle.world_link.specs.View.{served};

use crate::directive::RequestId;
use crate::fate::Fate;
use crate::held::Held;
use crate::manner::Manner;
use crate::plan::Plan;
use crate::routed::Routed;
use crate::server::Server;
use crate::tally::RequestCounts;
use export_serve::asked;
use xdr_codec::{Blob, Memory};

/// What becomes of a record: what the plan says of its name, and `nothing` if it has none or nothing is said.
pub(crate) fn fate_of<'a>(plan: &'a Plan, name: Option<RequestId>, nothing: &'a Fate) -> &'a Fate
    requires { nothing.now ≡ no_fate }
    ensures { result.now ≡ turning.fate_of (shown plan.entry.now) name }
{
    let Some(name) = name else {
        return nothing;
    };
    match plan.fate(&name) {
        Some(fate) => fate,
        None => nothing,
    }
}

/// How a record of that fate is handled in its turn.
pub(crate) fn manner_of(plan: &Plan, fate: &Fate) -> Manner
    ensures { result ≡ turning.manner_of (shown plan.now) fate.now }
{
    Manner {
        lost: fate.is_lost(),
        mount: plan.mount(),
        answer: fate.answer(),
        partial: fate.partial(),
        limit: fate.limit(),
    }
}

impl Server {
    /// The turn of a record from that end, but for the replies that wait for it. When out of memory it may be done in part.
    pub(crate) fn turn(
        &mut self,
        fate: &Fate,
        manner: &Manner,
        turns: &RequestCounts,
        end: u8,
        rec: &[u8],
    ) -> Result<(), Memory>
        ensures ok { OnOk result (served self.new ≡ turning.own_turn manner.now fate.now turns.now.counts (served self.old) rec.now) }
        ensures goes { Goes (served self.old) (served self.new) }
        ensures stays { IsBound manner.now.limit → IsSent (served self.old).entries rec.now → StaysHonest (served self.old) (served self.new) }
        ensures ends { KeepsEnds (IsSentBy (ends_of self.old).told (record { end = end; bytes = rec.now })) (ends_of self.old) (ends_of self.new) }
    {
        self.copy_all(fate.late())?;
        self.happen_all(fate.before())?;
        let reply = self.execute_own(manner, end, rec)?;
        self.happen_all(fate.after())?;
        self.reply(fate, turns, end, reply)
    }

    /// The record's own execution, which gives its reply.
    fn execute_own(&mut self, manner: &Manner, end: u8, rec: &[u8]) -> Result<Option<Blob>, Memory>
        ensures done { IfOk result (λ reply. (served self.new, reply) ≡ handling.done manner.now (served self.old) (asked_at rec.now)) }
        ensures goes { Goes (served self.old) (served self.new) }
        ensures stays { IsBound manner.now.limit → IsSent (served self.old).entries rec.now → StaysHonest (served self.old) (served self.new) }
        ensures answers { IsSent (served self.old).entries rec.now → IfOk result (MayAnswer (served self.new).entries) }
        ensures ends { KeepsEnds (IsSentBy (ends_of self.old).told (record { end = end; bytes = rec.now })) (ends_of self.old) (ends_of self.new) }
        ensures answers_to { IsSentBy (ends_of self.old).told (record { end = end; bytes = rec.now }) → IfOk result (MayAnswerTo (ends_of self.new).told end) }
    {
        let asked = asked(self.alloc, rec)?;
        self.handle(manner, end, asked)
    }

    /// The reply is ready for that end, or it is held, or it never comes.
    fn reply(
        &mut self,
        fate: &Fate,
        turns: &RequestCounts,
        end: u8,
        reply: Option<Blob>,
    ) -> Result<(), Memory>
        ensures ok { OnOk result (served self.new ≡ turning.replied fate.now turns.now.counts (served self.old) reply) }
        ensures goes { Goes (served self.old) (served self.new) }
        ensures stays { MayAnswer (served self.old).entries reply → StaysHonest (served self.old) (served self.new) }
        ensures ends { KeepsEnds (MayAnswerTo (ends_of self.old).told end reply) (ends_of self.old) (ends_of self.new) }
    {
        let Some(bytes) = reply else {
            return Ok(());
        };
        if fate.is_muted() {
            return Ok(());
        }
        if turns.are_past(fate.held()) {
            return self.make_ready(end, Some(bytes));
        }
        self.hold(Routed { end, bytes }, fate.held())
    }

    fn hold(&mut self, reply: Routed, waits: &[RequestId]) -> Result<(), Memory>
        ensures ok { OnOk result (served self.new ≡ turning.held (served self.old) reply.bytes waits.now) }
        ensures goes { Goes (served self.old) (served self.new) }
        ensures err { OnErr result (served self.new ≡ served self.old) }
        ensures ends { KeepsEnds (Answers (ends_of self.old).told reply) (ends_of self.old) (ends_of self.new) }
    {
        let held = Held::new(self.alloc, reply, waits)?;
        self.held.push(held)?;
        Ok(())
    }

    /// The replies that waited for these turns are ready, in order of transmission. When out of memory those that
    /// aren't ready yet are still held.
    pub(crate) fn release(&mut self, turns: &RequestCounts) -> Result<(), Memory>
        ensures ok { OnOk result (served self.new ≡ turning.released turns.now.counts (served self.old)) }
        ensures goes { Goes (served self.old) (served self.new) }
        ensures stays { StaysHonest (served self.old) (served self.new) }
        ensures ends { KeepsEnds (⊤) (ends_of self.old) (ends_of self.new) }
    {
        while let Some(place) = self.first_due(turns) {
            self.ready.reserve(1)?;
            let held = self.held.remove(place);
            self.ready.push_back_reserved(held.into_reply());
        }
        Ok(())
    }

    /// The place of the first reply that waits for none but these turns.
    fn first_due(&self, turns: &RequestCounts) -> Option<usize>
        ensures { result ≡ position (λ held. are_past turns.now.counts held.waits) self.now.held.items }
    {
        self.held.iter().position(|held| held.is_due(turns))
    }
}
