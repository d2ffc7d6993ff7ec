//! A schedule as data.

ghost use Rattle.std.specs.Prelude.{◌≡◌, ◌++◌, [], ◌∷◌, Some, true, Option, OnOk, MatchOption, if◌then◌else◌, ◌==◌};
ghost use Rattle.world_link.specs.Fates.{no_fate};
ghost use Rattle.world_link.specs.Plans.{no_plan, destined, planned};
ghost use Rattle.world_link.specs.Shown.{shown};
ghost use Rattle.world_link.specs.declared.directive.Directive.TheVariants as directives;

use crate::directive::{Directive, PartialWrite, RequestId};
use crate::event::Event;
use crate::fate::Fate;
use std::alloc::Global;
use std::collections::{BTreeMap, BTreeSet};
use xdr_codec::Memory;

/// What the lines of a schedule ask for, but for the objects at the start: the clock, MNT, the dials, and what becomes
/// of each transmission.
#[derive(Drop)]
pub struct Plan {
    alloc: Global,
    tick: u32,
    mount: Option<u32>,
    failing: BTreeSet<u32>,
    fates: BTreeMap<RequestId, Fate>,
}

impl Plan {
    /// Nothing is planned.
    pub(crate) fn new(alloc: Global) -> Plan
        ensures { shown result ≡ no_plan }
    {
        Plan {
            alloc,
            tick: 0,
            mount: None,
            failing: BTreeSet::new(alloc),
            fates: BTreeMap::new(alloc),
        }
    }

    /// Milliseconds from one reading of the clock to the next.
    pub fn tick(&self) -> u32
        ensures { result ≡ (shown self.now).tick }
    {
        self.tick
    }

    /// The status that MNT is answered with, if one is given.
    pub fn mount(&self) -> Option<u32>
        ensures { result ≡ (shown self.now).mount }
    {
        self.mount
    }

    /// Whether the k-th dial fails, counted from 1.
    pub fn fails_dial(&self, k: u32) -> bool
        ensures { result ≡ (shown self.now).fails k }
    {
        self.failing.contains(&k)
    }

    /// What becomes of a transmission. None if nothing is said of it.
    pub fn fate(&self, sending: &RequestId) -> Option<&Fate>
        ensures { MatchOption result ((shown self.now).fate sending.now ≡ no_fate) (λ f. f.now ≡ (shown self.now).fate sending.now) }
    {
        self.fates.get(sending)
    }

    /// Takes over what a line asks for. When out of memory the plan may lack what was said of a transmission.
    pub(crate) fn add(&mut self, directive: Directive) -> Result<(), Memory>
        ensures { OnOk result (shown self.new ≡ planned (shown self.old) directive) }
    {
        match directive {
            Directive::Tick(tick) => {
                self.tick = tick;
                Ok(())
            }
            Directive::Place {
                path: _path,
                file: _file,
            } => Ok(()),
            Directive::Mount(status) => {
                self.mount = Some(status);
                Ok(())
            }
            Directive::NoDial(dial) => self.fail(dial),
            Directive::Before(sending, event) => self.before(sending, event),
            Directive::After(sending, event) => self.after(sending, event),
            Directive::Lose(sending) => self.lose(sending),
            Directive::Mute(sending) => self.mute(sending),
            Directive::Hold { sending, turn } => self.hold(sending, turn),
            Directive::Late { sending, turn } => self.repeat(sending, turn),
            Directive::Answer { sending, status } => self.answer(sending, status),
            Directive::Partial { sending, part } => self.partial(sending, part),
            Directive::Limit { sending, most } => self.limit(sending, most),
        }
    }

    fn fail(&mut self, dial: u32) -> Result<(), Memory>
        ensures { OnOk result (shown self.new ≡ planned (shown self.old) (directives.NoDial dial)) }
    {
        self.failing.insert(dial)?;
        Ok(())
    }

    fn before(&mut self, sending: RequestId, event: Event) -> Result<(), Memory>
        ensures { OnOk result (shown self.new ≡ planned (shown self.old) (directives.Before sending event)) }
    {
        let mut fate = self.take(&sending);
        fate.add_before(event)?;
        self.put(sending, fate)
    }

    fn after(&mut self, sending: RequestId, event: Event) -> Result<(), Memory>
        ensures { OnOk result (shown self.new ≡ planned (shown self.old) (directives.After sending event)) }
    {
        let mut fate = self.take(&sending);
        fate.add_after(event)?;
        self.put(sending, fate)
    }

    fn lose(&mut self, sending: RequestId) -> Result<(), Memory>
        ensures { OnOk result (shown self.new ≡ planned (shown self.old) (directives.Lose sending)) }
    {
        let mut fate = self.take(&sending);
        fate.lose();
        self.put(sending, fate)
    }

    fn mute(&mut self, sending: RequestId) -> Result<(), Memory>
        ensures { OnOk result (shown self.new ≡ planned (shown self.old) (directives.Mute sending)) }
    {
        let mut fate = self.take(&sending);
        fate.mute();
        self.put(sending, fate)
    }

    fn hold(&mut self, sending: RequestId, turn: RequestId) -> Result<(), Memory>
        ensures { OnOk result (shown self.new ≡ planned (shown self.old) (directives.Hold sending turn)) }
    {
        let mut fate = self.take(&sending);
        fate.add_held(turn)?;
        self.put(sending, fate)
    }

    fn repeat(&mut self, sending: RequestId, turn: RequestId) -> Result<(), Memory>
        ensures { OnOk result (shown self.new ≡ planned (shown self.old) (directives.Late sending turn)) }
    {
        let mut fate = self.take(&turn);
        fate.add_late(sending)?;
        self.put(turn, fate)
    }

    fn answer(&mut self, sending: RequestId, status: u32) -> Result<(), Memory>
        ensures { OnOk result (shown self.new ≡ planned (shown self.old) (directives.Answer sending status)) }
    {
        let mut fate = self.take(&sending);
        fate.set_answer(status);
        self.put(sending, fate)
    }

    fn partial(&mut self, sending: RequestId, part: PartialWrite) -> Result<(), Memory>
        ensures { OnOk result (shown self.new ≡ planned (shown self.old) (directives.Partial sending part)) }
    {
        let mut fate = self.take(&sending);
        fate.set_partial(part);
        self.put(sending, fate)
    }

    fn limit(&mut self, sending: RequestId, most: u32) -> Result<(), Memory>
        ensures { OnOk result (shown self.new ≡ planned (shown self.old) (directives.Limit sending most)) }
    {
        let mut fate = self.take(&sending);
        fate.set_limit(most);
        self.put(sending, fate)
    }

    /// Takes out what is said of a transmission.
    fn take(&mut self, sending: &RequestId) -> Fate
        ensures taken { result ≡ (shown self.old).fate sending.now }
        ensures left { shown self.new ≡ destined (shown self.old) sending.now no_fate }
    {
        match self.fates.remove(sending) {
            Some(fate) => fate,
            None => Fate::new(self.alloc),
        }
    }

    /// Puts in what is said of a transmission.
    fn put(&mut self, sending: RequestId, fate: Fate) -> Result<(), Memory>
        ensures { OnOk result (shown self.new ≡ destined (shown self.old) sending fate) }
    {
        self.fates.insert(sending, fate)?;
        Ok(())
    }
}
