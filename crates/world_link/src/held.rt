//! Replies that wait for turns.

ghost use Rattle.std.specs.Prelude.{◌≡◌, IfOk};
ghost use Rattle.world_link.specs.Holding.{are_past};

use crate::directive::RequestId;
use crate::routed::Routed;
use crate::tally::RequestCounts;
use std::alloc::Global;
use std::marker::Model;
use xdr_codec::Memory;

/// A reply that isn't ready before the turns of some transmissions.
#[derive(Drop)]
pub(crate) struct Held {
    reply: Routed,
    waits: Vec<RequestId>,
}

impl Model for Held {
    ghost use Rattle.world_link.specs.Holding.{HeldReply};

    ghost Value = { HeldReply };

    ghost view = { λ h. record { reply = h.reply; waits = h.waits.items } };
}

impl Held {
    /// The reply, and the transmissions before whose turns it isn't ready.
    pub(crate) fn new(alloc: Global, reply: Routed, waits: &[RequestId]) -> Result<Held, Memory>
        ensures { IfOk result (λ held. held ≡ record { reply = reply; waits = waits.now }) }
    {
        Ok(Held {
            reply,
            waits: Vec::from_slice(alloc, waits)?,
        })
    }

    /// Whether each of the turns was had.
    pub(crate) fn is_due(&self, turns: &RequestCounts) -> bool
        ensures { result ≡ are_past turns.now.counts self.now.waits }
    {
        turns.are_past(self.waits.as_slice())
    }

    /// The reply.
    pub(crate) fn into_reply(self) -> Routed
        ensures { result ≡ self.reply }
    {
        let Held { reply, waits: _ } = self;
        reply
    }
}
