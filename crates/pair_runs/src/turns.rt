//! The turns of two clients.

ghost use Rattle.std.specs.Prelude.{◌≡◌, ◌≤◌, ◌<◌, ◌+◌, IfOk, OnOk, max, true, false};
ghost use Rattle.outside.specs.Causes.{Rose};
ghost use Rattle.lane_session.specs.Statuses.{CausedBy, IsSessionStatus};
ghost use Rattle.pair_runs.specs.Clients.{AreOver, AreReady, IsEnding, left_in, status_in};
ghost use Rattle.pair_runs.specs.PairGoing.{PairBy, PairEnds, PairPasses};

use crate::client::Client;
use crate::status::{of_both, of_halt};
use lane_session::Halt;
use outside::{Clock, PairLink, Sink};

/// The clients of a run.
#[derive(Drop)]
pub(crate) struct Pair {
    pub(crate) a: Client,
    pub(crate) b: Client,
}

impl Pair {
    /// The clients take turns until both are done. It answers the status.
    pub(crate) fn finish<P: PairLink, C: Clock, K: Sink>(
        &mut self,
        order: &[u8],
        link: &mut P,
        clock: &mut C,
        out: &mut K,
    ) -> u8
        requires { AreReady self.old }
        ensures ending { IsEnding result }
        ensures sink { result ≡ 5 → Rose (K.faults out.old) (K.faults out.new) }
        ensures honest { P.honest link.old → P.honest link.new }
        ensures goes { PairPasses (C.readings clock.old) (C.readings clock.new) (P.told link.old) (P.told link.new) (K.written out.old) (K.written out.new)
            (PairEnds self.old result) }
    {
        match self.run(order, link, clock, out) {
            Ok(()) => self.status(),
            Err(halt) => of_halt(halt),
        }
    }

    /// The clients take turns in that order, and then one after the other until both are done.
    fn run<P: PairLink, C: Clock, K: Sink>(
        &mut self,
        order: &[u8],
        link: &mut P,
        clock: &mut C,
        out: &mut K,
    ) -> Result<(), Halt>
        requires { AreReady self.old }
        ensures ready { OnOk result (AreReady self.new) }
        ensures over { OnOk result (AreOver self.new) }
        ensures honest { P.honest link.old → P.honest link.new }
        ensures later { K.faults out.old ≤ K.faults out.new }
        ensures cause { CausedBy result (Rose (K.faults out.old) (K.faults out.new)) }
        ensures goes { PairPasses (C.readings clock.old) (C.readings clock.new) (P.told link.old) (P.told link.new) (K.written out.old) (K.written out.new)
            (PairBy self.old self.new result) }
    {
        match self.follow(order, link, clock, out) {
            Ok(()) => self.alternate(link, clock, out),
            Err(halt) => Err(halt),
        }
    }

    /// A turn for each letter.
    fn follow<P: PairLink, C: Clock, K: Sink>(
        &mut self,
        order: &[u8],
        link: &mut P,
        clock: &mut C,
        out: &mut K,
    ) -> Result<(), Halt>
        requires { AreReady self.old }
        ensures ready { OnOk result (AreReady self.new) }
        ensures honest { P.honest link.old → P.honest link.new }
        ensures later { K.faults out.old ≤ K.faults out.new }
        ensures cause { CausedBy result (Rose (K.faults out.old) (K.faults out.new)) }
        ensures goes { PairPasses (C.readings clock.old) (C.readings clock.new) (P.told link.old) (P.told link.new) (K.written out.old) (K.written out.new)
            (PairBy self.old self.new result) }
    {
        for letter in order {
            match self.turn_of(*letter, link, clock, out) {
                Ok(()) => {}
                Err(halt) => return Err(halt),
            }
        }
        Ok(())
    }

    /// A turn of the client of that letter.
    fn turn_of<P: PairLink, C: Clock, K: Sink>(
        &mut self,
        letter: u8,
        link: &mut P,
        clock: &mut C,
        out: &mut K,
    ) -> Result<(), Halt>
        requires { AreReady self.old }
        ensures ready { OnOk result (AreReady self.new) }
        ensures honest { P.honest link.old → P.honest link.new }
        ensures later { K.faults out.old ≤ K.faults out.new }
        ensures cause { CausedBy result (Rose (K.faults out.old) (K.faults out.new)) }
        ensures goes { PairPasses (C.readings clock.old) (C.readings clock.new) (P.told link.old) (P.told link.new) (K.written out.old) (K.written out.new)
            (PairBy self.old self.new result) }
    {
        if letter == b'a' {
            match self.a.turn(link, clock, out) {
                Ok(_) => Ok(()),
                Err(halt) => Err(halt),
            }
        } else {
            match self.b.turn(link, clock, out) {
                Ok(_) => Ok(()),
                Err(halt) => Err(halt),
            }
        }
    }

    /// A turn of a and then one of b, until neither has a line left.
    fn alternate<P: PairLink, C: Clock, K: Sink>(
        &mut self,
        link: &mut P,
        clock: &mut C,
        out: &mut K,
    ) -> Result<(), Halt>
        requires { AreReady self.old }
        ensures ready { OnOk result (AreReady self.new) }
        ensures over { OnOk result (AreOver self.new) }
        ensures honest { P.honest link.old → P.honest link.new }
        ensures later { K.faults out.old ≤ K.faults out.new }
        ensures cause { CausedBy result (Rose (K.faults out.old) (K.faults out.new)) }
        ensures goes { PairPasses (C.readings clock.old) (C.readings clock.new) (P.told link.old) (P.told link.new) (K.written out.old) (K.written out.new)
            (PairBy self.old self.new result) }
    {
        'alternating: loop {
            match self.take_turns(link, clock, out) {
                Ok(went) => {
                    if !went {
                        return Ok(());
                    }
                }
                Err(halt) => return Err(halt),
            }
        }
    }

    /// A turn of each: whether one had a line under way.
    fn take_turns<P: PairLink, C: Clock, K: Sink>(
        &mut self,
        link: &mut P,
        clock: &mut C,
        out: &mut K,
    ) -> Result<bool, Halt>
        requires { AreReady self.old }
        ensures ready { OnOk result (AreReady self.new) }
        ensures over { IfOk result (λ went. went ≡ false → AreOver self.new) }
        ensures less { IfOk result (λ went. went ≡ true → left_in self.new < left_in self.old) }
        ensures honest { P.honest link.old → P.honest link.new }
        ensures later { K.faults out.old ≤ K.faults out.new }
        ensures cause { CausedBy result (Rose (K.faults out.old) (K.faults out.new)) }
        ensures goes { PairPasses (C.readings clock.old) (C.readings clock.new) (P.told link.old) (P.told link.new) (K.written out.old) (K.written out.new)
            (PairBy self.old self.new result) }
    {
        match self.a.turn(link, clock, out) {
            Ok(first) => match self.b.turn(link, clock, out) {
                Ok(second) => Ok(first || second),
                Err(halt) => Err(halt),
            },
            Err(halt) => Err(halt),
        }
    }

    /// The status by the answers of both.
    fn status(&self) -> u8
        requires { AreReady self.now }
        ensures is { result ≡ max (status_in self.now.a.state) (status_in self.now.b.state) }
        ensures range { IsSessionStatus result }
    {
        of_both(self.a.status(), self.b.status())
    }
}
