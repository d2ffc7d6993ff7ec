//! What a schedule makes of one transmission.

ghost use Rattle.std.specs.Prelude.{◌≡◌, ◌++◌, [], ◌∷◌, true, Some, OnOk};
ghost use Rattle.world_link.specs.Fates.{no_fate};

use crate::directive::{PartialWrite, RequestId};
use crate::event::Event;
use std::alloc::Global;
use std::marker::Model;
use xdr_codec::Memory;

/// What a schedule makes of one transmission, in the order of its turn. If nothing is said it is executed in its
/// turn, and its reply is ready then.
#[derive(Drop)]
pub struct Fate {
    late: Vec<RequestId>,
    before: Vec<Event>,
    lost: bool,
    answer: Option<u32>,
    partial: Option<PartialWrite>,
    limit: Option<u32>,
    after: Vec<Event>,
    muted: bool,
    held: Vec<RequestId>,
}

impl Model for Fate {
    ghost use Rattle.world_link.specs.Fates.{FateView};

    ghost Value = { FateView };

    ghost view = { λ f. record { late = f.late.items; before = f.before.items; lost = f.lost; answer = f.answer; partial = f.partial; limit = f.limit; after = f.after.items; muted = f.muted; held = f.held.items } };
}

impl Fate {
    /// Nothing is said of the transmission.
    pub(crate) fn new(alloc: Global) -> Fate
        ensures { result ≡ no_fate }
    {
        Fate {
            late: Vec::new(alloc),
            before: Vec::new(alloc),
            lost: false,
            answer: None,
            partial: None,
            limit: None,
            after: Vec::new(alloc),
            muted: false,
            held: Vec::new(alloc),
        }
    }

    /// The transmissions of which a further copy is executed first, in order.
    pub fn late(&self) -> &[RequestId]
        ensures { result.now ≡ self.now.late }
    {
        self.late.as_slice()
    }

    /// The events just before its turn, in order.
    pub fn before(&self) -> &[Event]
        ensures { result.now ≡ self.now.before }
    {
        self.before.as_slice()
    }

    /// Whether it isn't executed.
    pub fn is_lost(&self) -> bool
        ensures { result ≡ self.now.lost }
    {
        self.lost
    }

    /// The status that it is answered with in place of being executed, 1 or above.
    pub fn answer(&self) -> Option<u32>
        ensures { result ≡ self.now.answer }
    {
        self.answer
    }

    /// How it breaks off, if it is a WRITE.
    pub fn partial(&self) -> Option<PartialWrite>
        ensures { result ≡ self.now.partial }
    {
        self.partial
    }

    /// The most bytes that it handles, 1 or above, if it is a READ or WRITE.
    pub fn limit(&self) -> Option<u32>
        ensures { result ≡ self.now.limit }
    {
        self.limit
    }

    /// The events just after it is executed, in order.
    pub fn after(&self) -> &[Event]
        ensures { result.now ≡ self.now.after }
    {
        self.after.as_slice()
    }

    /// Whether its reply never comes.
    pub fn is_muted(&self) -> bool
        ensures { result ≡ self.now.muted }
    {
        self.muted
    }

    /// The transmissions before whose turns its reply isn't ready.
    pub fn held(&self) -> &[RequestId]
        ensures { result.now ≡ self.now.held }
    {
        self.held.as_slice()
    }

    /// A further copy of the transmission is executed first, after those before.
    pub(crate) fn add_late(&mut self, sending: RequestId) -> Result<(), Memory>
        ensures { OnOk result (self.new ≡ record self.old { late = self.old.late ++ sending ∷ [] }) }
    {
        self.late.push(sending)?;
        Ok(())
    }

    /// The event happens before the turn, after those before.
    pub(crate) fn add_before(&mut self, event: Event) -> Result<(), Memory>
        ensures { OnOk result (self.new ≡ record self.old { before = self.old.before ++ event ∷ [] }) }
    {
        self.before.push(event)?;
        Ok(())
    }

    /// It isn't executed.
    pub(crate) fn lose(&mut self)
        ensures { self.new ≡ record self.old { lost = true } }
    {
        self.lost = true;
    }

    /// It is answered with the status.
    pub(crate) fn set_answer(&mut self, status: u32)
        ensures { self.new ≡ record self.old { answer = Some status } }
    {
        self.answer = Some(status);
    }

    /// It breaks off so.
    pub(crate) fn set_partial(&mut self, part: PartialWrite)
        ensures { self.new ≡ record self.old { partial = Some part } }
    {
        self.partial = Some(part);
    }

    /// It handles at most so many bytes.
    pub(crate) fn set_limit(&mut self, most: u32)
        ensures { self.new ≡ record self.old { limit = Some most } }
    {
        self.limit = Some(most);
    }

    /// The event happens after it is executed, after those before.
    pub(crate) fn add_after(&mut self, event: Event) -> Result<(), Memory>
        ensures { OnOk result (self.new ≡ record self.old { after = self.old.after ++ event ∷ [] }) }
    {
        self.after.push(event)?;
        Ok(())
    }

    /// Its reply never comes.
    pub(crate) fn mute(&mut self)
        ensures { self.new ≡ record self.old { muted = true } }
    {
        self.muted = true;
    }

    /// Its reply isn't ready before the turn of that transmission.
    pub(crate) fn add_held(&mut self, turn: RequestId) -> Result<(), Memory>
        ensures { OnOk result (self.new ≡ record self.old { held = self.old.held ++ turn ∷ [] }) }
    {
        self.held.push(turn)?;
        Ok(())
    }
}
