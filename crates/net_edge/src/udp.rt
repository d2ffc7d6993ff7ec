//! UDP (RFC 768) as datagrams.

ghost use Rattle.std.specs.Prelude.{◌≡◌, ◌≤◌, IfOk};
ghost use Rattle.outside.specs.Datagrams.{HasCauseArrived};
ghost use Rattle.net_edge.specs.Counts.{next_count, CountsArrived};

use crate::datagram::PeerSocket;
use crate::listener::LOOPBACK;
use crate::paced::PacedSocket;
use crate::rounds::{MOST_ROUNDS, Rounds};
use outside::{Arrived, DatagramAdds, Datagrams, Failed, LinkFault};
use std::io;
use std::marker::Model;
use std::net::{Net, SocketAddr, ToSocketAddrs, UdpSocket};
use std::time::Clock;
use world_model::Mark;
use xdr_codec::Memory;

/// Datagrams over UDP to one host, from one port of this machine for as long as the same port of the host is aimed at: a
/// server knows a call that is sent again by the port that it comes from. Or those at a port of the loopback that others
/// know. A contract sees the number of calls that failed or were silent.
#[derive(Drop)]
pub struct UdpDatagrams<'a, R: Net + Clock + AllocGlobal> {
    system: &'a R,
    /// The host that is aimed at; None if others know the port of this side, and the loopback is aimed at.
    host: Option<&'a str>,
    current: Option<PacedSocket>,
    faults: u64,
}

impl<'a, R: Net + Clock + AllocGlobal> Model for UdpDatagrams<'a, R> {
    ghost use Rattle.std.specs.Prelude.{ℕ};

    ghost Value = { ℕ };

    ghost view = { λ d. d.faults };
}

impl<'a, R: Net + Clock + AllocGlobal> UdpDatagrams<'a, R> {
    /// Datagrams to the host of that name or address, not aimed at a port yet. A name is looked up at each aim.
    pub fn new(system: &'a R, host: &'a str) -> UdpDatagrams<'a, R>
        ensures { result ≡ 0 }
    {
        UdpDatagrams {
            system,
            host: Some(host),
            current: None,
            faults: 0,
        }
    }

    /// Datagrams at that port of 127.0.0.1, not aimed at a port yet; at 0 the system chooses one. `Failed` if the system
    /// refuses it, as when another program has the port.
    pub fn bind(system: &'a R, port: u16) -> Result<UdpDatagrams<'a, R>, Failed>
        ensures { IfOk result (λ datagrams. datagrams ≡ 0) }
    {
        match bound(system, port) {
            Ok(socket) => Ok(UdpDatagrams {
                system,
                host: None,
                current: Some(PacedSocket::new(system.alloc(), socket)),
                faults: 0,
            }),
            Err(_) => Err(Failed),
        }
    }

    /// Counts a call that failed or was silent, and gives its answer.
    fn missed<T>(&mut self, answer: T) -> T
        ensures counts { self.new ≡ next_count self.old }
        ensures later { self.old ≤ self.new }
        ensures answer { result ≡ answer }
    {
        self.faults = self.faults.saturating_add(1);
        answer
    }

    /// Counts what came of a wait, if it failed or was silent.
    fn counted(&mut self, arrived: Arrived) -> Arrived
        ensures same { result ≡ arrived }
        ensures cause { HasCauseArrived self.old self.new arrived }
        ensures counts { CountsArrived self.old self.new arrived }
    {
        match arrived {
            Arrived::From(port) => Arrived::From(port),
            Arrived::Silent => self.missed(Arrived::Silent),
            Arrived::Failed => self.missed(Arrived::Failed),
            Arrived::Memory => Arrived::Memory,
        }
    }
}

impl<R: Net + Clock + AllocGlobal> Datagrams for UdpDatagrams<'_, R> {
    ghost use Rattle.std.specs.Prelude.{◌≡◌, ◌≤◌, [], None, IsOk};
    ghost use Rattle.std.specs.Bool.{OnTrue, OnFalse};
    ghost use Rattle.outside.specs.Causes.{HasCause};
    ghost use Rattle.outside.specs.Datagrams.{DatagramsTold, DatagramsTell, DatagramsNote, HasCauseArrived, aimed_as, datagram_as, arrived_as, remarked_as};
    ghost use Rattle.outside.specs.declared.places.DatagramAdds.{DatagramAdds};
    ghost use Rattle.outside.specs.declared.places.DatagramAdds.TheVariants as added;
    ghost use Rattle.outside.specs.Places.{KeepsPlace, PutsLast, TakesLast};
    ghost use Rattle.net_edge.specs.Counts.{CountsFault, CountsArrived};

    // No contract can say what a socket gives or takes.
    ghost told = { λ _. None };

    ghost placed = { λ _. [] };

    ghost faults = { λ count. count };

    // Nothing is known of what stands at the other end.
    ghost honest = { λ _. ⊥ };

    ghost lawful = { λ _ h. absurd h };

    /// Aims at the first of the host's addresses. If the name can't be looked up, or no datagram could go there, it does so
    /// again after a pause, until 15 seconds are over.
    fn aim(&mut self, port: u16) -> Result<(), LinkFault>
        ensures told { DatagramsTell None None (aimed_as port result) }
        ensures cause { HasCause self.old self.new result }
        ensures counts { CountsFault self.old self.new result }
    {
        let current = self.current.take();
        self.current = match self.host {
            Some(host) => aim_at(self.system, current, host, port),
            None => with_port(current, port),
        };
        if self.current.is_some() {
            Ok(())
        } else {
            self.missed(Err(LinkFault::Failed))
        }
    }

    /// Sends one datagram, once enough of those before are answered. Before an aim it is a failure, and so is one that is too long.
    fn send(&mut self, bytes: &[u8]) -> Result<(), LinkFault>
        ensures told { DatagramsTell None None (datagram_as bytes.now result) }
        ensures cause { HasCause self.old self.new result }
        ensures counts { CountsFault self.old self.new result }
    {
        let is_sent = match self.current.as_mut() {
            Some(current) => current.send(bytes),
            None => false,
        };
        if is_sent {
            Ok(())
        } else {
            self.missed(Err(LinkFault::Failed))
        }
    }

    /// Waits for a datagram from the host. Without a socket it is a failure.
    fn receive(&mut self, wait_ms: u32, buf: &mut Vec<u8>) -> Arrived
        requires { 15000 ≤ wait_ms }
        ensures told { DatagramsTell None None (arrived_as buf.new.items result) }
        ensures cause { HasCauseArrived self.old self.new result }
        ensures counts { CountsArrived self.old self.new result }
    {
        let arrived = match self.current.as_mut() {
            Some(current) => current.receive(wait_ms, buf),
            None => Arrived::Failed,
        };
        self.counted(arrived)
    }

    fn tells(&self) -> bool {
        false
    }

    /// Keeps nothing.
    fn note(&mut self, mark: Mark) -> Result<(), Memory>
        ensures told { DatagramsNote None None (remarked_as mark result) }
        ensures cause { self.old ≤ self.new }
        ensures same { self.new ≡ self.old }
        ensures ok { IsOk result }
    {
        Ok(())
    }

    /// There is nothing to forget.
    fn forget_places(&mut self)
        ensures cause { self.new ≡ self.old }
    {}

    /// Keeps nothing.
    fn keep_place(&mut self, _place: DatagramAdds) -> bool
        ensures yes { OnTrue result (KeepsPlace {T = DatagramsTold} None [] [] _place) }
        ensures no { OnFalse result (KeepsPlace {T = DatagramsTold} None [] [] _place) }
        ensures cause { self.new ≡ self.old }
    {
        true
    }

    /// Keeps nothing, and copies nothing.
    fn keep_unsent(&mut self, _rec: &[u8]) -> bool
        ensures yes { OnTrue result (KeepsPlace {T = DatagramsTold} None [] [] (added.Unsent _rec.now)) }
        ensures no { OnFalse result (KeepsPlace {T = DatagramsTold} None [] [] (added.Unsent _rec.now)) }
        ensures cause { self.new ≡ self.old }
    {
        true
    }

    /// Drops the place.
    #[tactic(auto, using(outside::proofs::SetLast::puts_none))]
    fn put_place(&mut self, _place: DatagramAdds)
        ensures placed { PutsLast [] [] _place }
        ensures cause { self.new ≡ self.old }
    {}

    /// There is nothing to give back.
    #[tactic(auto, using(outside::proofs::SetLast::takes_none))]
    fn give_back(&mut self)
        ensures placed { TakesLast {P = DatagramAdds} [] [] }
        ensures cause { self.new ≡ self.old }
    {}
}

/// The socket, aimed at that port.
fn with_port(current: Option<PacedSocket>, port: u16) -> Option<PacedSocket> {
    let mut current = current?;
    current.socket.peer.set_port(port);
    Some(current)
}

/// A socket for that port of the host, if one can be had within the time of a dial: the one that is open, if it is aimed
/// there already, or a new one.
fn aim_at<R: Net + Clock + AllocGlobal>(
    system: &R,
    current: Option<PacedSocket>,
    host: &str,
    port: u16,
) -> Option<PacedSocket> {
    let mut rounds = Rounds::begin(system)?;
    for _ in 0..MOST_ROUNDS {
        if let Some(peer) = first_address(system, host, port) {
            if is_aimed(&current, peer) {
                return current;
            }
            if let Ok(socket) = open_to(system, peer) {
                return Some(PacedSocket::new(system.alloc(), socket));
            }
        }
        rounds.pause()?;
    }
    None
}

/// Whether there is a socket, and it is aimed at that peer.
fn is_aimed(current: &Option<PacedSocket>, peer: SocketAddr) -> bool {
    match current {
        Some(current) => current.socket.peer == peer,
        None => false,
    }
}

/// The first address of that port of the host.
fn first_address<N: Net>(net: &N, host: &str, port: u16) -> Option<SocketAddr> {
    (host, port).to_socket_addrs(net).ok()?.next()
}

/// A new socket for that peer.
fn open_to<N: Net>(net: &N, peer: SocketAddr) -> io::Result<PeerSocket> {
    let any = if peer.is_ipv4() {
        "0.0.0.0:0"
    } else {
        "[::]:0"
    };
    let socket = UdpSocket::bind(net, any)?;
    socket.connect(peer)?;
    Ok(PeerSocket { socket, peer })
}

/// A socket at that port of 127.0.0.1, aimed at the port 0, which no one has.
fn bound<N: Net>(net: &N, port: u16) -> io::Result<PeerSocket> {
    let socket = UdpSocket::bind(net, (LOOPBACK, port))?;
    let mut peer = socket.local_addr()?;
    peer.set_port(0);
    Ok(PeerSocket { socket, peer })
}
