//! TCP (RFC 9293) as a wire.

ghost use Rattle.std.specs.Prelude.{◌≡◌, ◌≤◌};
ghost use Rattle.std.specs.Io.{ReadsAtMost};
ghost use Rattle.net_edge.specs.Counts.{next_count};

use crate::again::{read_again, write_again};
use crate::rounds::{LIMIT_SECS, MOST_ROUNDS, Rounds};
use outside::{LinkFault, Wire, WirePlace, WireRead};
use std::io::{self, ErrorKind, Read};
use std::marker::Model;
use std::net::{Net, OpenStream, SocketAddr, TcpStream, ToSocketAddrs};
use std::time::{Clock, Duration};
use world_model::Mark;
use xdr_codec::Memory;

/// Connections over TCP to one host, one at a time; or a connection that another made, which can't be made anew. A
/// contract sees the number of calls that failed or were silent.
#[derive(Drop)]
pub struct TcpWire<'a, R: Net + Clock> {
    system: &'a R,
    /// The host that is dialed; None if another dialed.
    host: Option<&'a str>,
    stream: Option<R::Stream>,
    /// Whether the last wait on the connection was silent.
    was_silent: bool,
    faults: u64,
}

impl<'a, R: Net + Clock> Model for TcpWire<'a, R> {
    ghost use Rattle.std.specs.Prelude.{ℕ};

    ghost Value = { ℕ };

    ghost view = { λ w. w.faults };
}

impl<'a, R: Net + Clock> TcpWire<'a, R> {
    /// A wire to the host of that name or address, not connected yet. A name is looked up in each round of a dial.
    pub fn new(system: &'a R, host: &'a str) -> TcpWire<'a, R>
        ensures { result ≡ 0 }
    {
        TcpWire {
            system,
            host: Some(host),
            stream: None,
            was_silent: false,
            faults: 0,
        }
    }

    /// A wire over a connection that another made, or over one that is lost already. A dial ends the connection, and is
    /// a failure.
    pub(crate) fn taken(system: &'a R, stream: Option<R::Stream>) -> TcpWire<'a, R>
        ensures { result ≡ 0 }
    {
        TcpWire {
            system,
            host: None,
            stream,
            was_silent: false,
            faults: 0,
        }
    }

    /// Notes a silence. True if the wait before was silent too. The connection is given up then: a server that came back
    /// without it, or that waits for the rest of a record, never answers on it.
    fn is_silent_again(&mut self) -> bool
        ensures { self.new ≡ self.old }
    {
        let again = self.was_silent;
        self.was_silent = true;
        if again {
            self.stream = None;
        }
        again
    }

    /// Counts a call that failed or was silent, and gives its answer.
    fn missed<T>(&mut self, answer: T) -> T
        ensures counts { self.new ≡ next_count self.old }
        ensures later { self.old ≤ self.new }
        ensures answer { result ≡ answer }
    {
        self.faults = self.faults.saturating_add(1);
        answer
    }
}

impl<R: Net + Clock> Wire for TcpWire<'_, R> {
    ghost use Rattle.std.specs.Prelude.{◌≡◌, ◌≤◌, ◌<◌, [], None, length, IfOk, IsOk};
    ghost use Rattle.std.specs.Bool.{OnTrue, OnFalse};
    ghost use Rattle.outside.specs.Causes.{HasCause};
    ghost use Rattle.outside.specs.Sink.{TakesSome};
    ghost use Rattle.outside.specs.Wire.{WireTold, WireTells, WireNotes, GetsSome, IfGot, HasCauseRead, connected_as, wrote_as, read_as, marked_as};
    ghost use Rattle.outside.specs.Places.{KeepsPlace, PutsLast};
    ghost use Rattle.net_edge.specs.Counts.{CountsFault, CountsRead};

    // No contract can say what a connection gives or takes.
    ghost told = { λ _. None };

    ghost placed = { λ _. [] };

    ghost faults = { λ count. count };

    // Nothing is known of what stands at the other end.
    ghost honest = { λ _. ⊥ };

    ghost lawful = { λ _ h. absurd h };

    /// Dials the host's addresses in turn, each for at most 15 seconds. If none of them takes the connection, or the name
    /// can't be looked up, it does so again after a pause. It gives up when 15 seconds are over. The first pause is of 0.1
    /// seconds, and each of at most one second.
    fn connect(&mut self, port: u16) -> Result<(), LinkFault>
        ensures told { WireTells None None (connected_as port result) }
        ensures cause { HasCause self.old self.new result }
        ensures counts { CountsFault self.old self.new result }
    {
        self.was_silent = false;
        self.stream = dial(self.system, self.host, port);
        if self.stream.is_some() {
            Ok(())
        } else {
            self.missed(Err(LinkFault::Failed))
        }
    }

    /// Writes what the system takes within 15 seconds. Without a connection it is a failure.
    fn write(&mut self, bytes: &[u8]) -> Result<usize, LinkFault>
        ensures takes { IfOk result (TakesSome bytes.now) }
        ensures told { WireTells None None (wrote_as bytes.now result) }
        ensures cause { HasCause self.old self.new result }
        ensures counts { CountsFault self.old self.new result }
    {
        if bytes.is_empty() {
            return Ok(0);
        }
        if let Some(stream) = self.stream.as_mut() {
            match write_again(stream, bytes) {
                Ok(count) if count > 0 => return Ok(count),
                _ => {}
            }
        }
        self.missed(Err(LinkFault::Failed))
    }

    /// Reads what comes within the wait. An end of the stream is a failure. So are the second silence in a row on one
    /// connection, and a wait without a connection.
    fn read(&mut self, wait_ms: u32, buf: &mut [u8]) -> WireRead
        requires patient { 15000 ≤ wait_ms }
        requires room { 0 < length buf.old }
        ensures gets { IfGot result (GetsSome buf.new) }
        ensures told { WireTells None None (read_as buf.new result) }
        ensures cause { HasCauseRead self.old self.new result }
        ensures counts { CountsRead self.old self.new result }
    {
        let Some(stream) = self.stream.as_mut() else {
            return self.missed(WireRead::Failed);
        };
        match read_within(stream, wait_ms, buf) {
            Ok(count) if count > 0 => {
                self.was_silent = false;
                WireRead::Got(count)
            }
            Err(error) if is_silence(error.kind()) => {
                if self.is_silent_again() {
                    self.missed(WireRead::Failed)
                } else {
                    self.missed(WireRead::Silent)
                }
            }
            _ => self.missed(WireRead::Failed),
        }
    }

    fn tells(&self) -> bool {
        false
    }

    /// Keeps nothing.
    fn note(&mut self, mark: Mark) -> Result<(), Memory>
        ensures told { WireNotes None None (marked_as mark result) }
        ensures cause { self.old ≤ self.new }
        ensures same { self.new ≡ self.old }
        ensures ok { IsOk result }
    {
        Ok(())
    }

    /// There is nothing to forget.
    fn forget_places(&mut self)
        ensures cause { self.new ≡ self.old }
    {}

    /// Keeps nothing.
    fn keep_place(&mut self, _place: WirePlace) -> bool
        ensures yes { OnTrue result (KeepsPlace {T = WireTold} None [] [] _place) }
        ensures no { OnFalse result (KeepsPlace {T = WireTold} None [] [] _place) }
        ensures cause { self.new ≡ self.old }
    {
        true
    }

    /// Drops the place.
    #[tactic(auto, using(outside::proofs::SetLast::puts_none))]
    fn put_place(&mut self, _place: WirePlace)
        ensures placed { PutsLast [] [] _place }
        ensures cause { self.new ≡ self.old }
    {}
}

/// A connection to the host, if there is a host and one of its addresses takes it within the time of a dial.
fn dial<R: Net + Clock>(system: &R, host: Option<&str>, port: u16) -> Option<R::Stream> {
    let host = host?;
    let mut rounds = Rounds::begin(system)?;
    for _ in 0..MOST_ROUNDS {
        if let Some(stream) = dial_once(system, host, port) {
            return Some(stream);
        }
        rounds.pause()?;
    }
    None
}

/// A connection to the first of the host's addresses that takes it, if one does.
fn dial_once<N: Net>(net: &N, host: &str, port: u16) -> Option<N::Stream> {
    let addresses = (host, port).to_socket_addrs(net).ok()?;
    for address in addresses {
        if let Ok(stream) = open(net, address) {
            return Some(stream);
        }
    }
    None
}

/// A connection to that address.
fn open<N: Net>(net: &N, address: SocketAddr) -> io::Result<N::Stream> {
    let stream = TcpStream::connect_timeout(net, &address, Duration::from_secs(LIMIT_SECS))?;
    prepare(&stream)?;
    Ok(stream)
}

/// Lets what is written go out at once, since a call waits for its reply and a reply is waited for. It bounds how long a write
/// takes, too.
pub(crate) fn prepare<S: OpenStream>(stream: &S) -> io::Result<()> {
    stream.set_nodelay(true)?;
    stream.set_write_timeout(Some(Duration::from_secs(LIMIT_SECS)))
}

/// Reads what comes within so many milliseconds; 0 is the end. If the system interrupts the wait it begins anew.
fn read_within<S: Read + OpenStream>(
    stream: &mut S,
    wait_ms: u32,
    buf: &mut [u8],
) -> io::Result<usize>
    ensures { ReadsAtMost result buf.new }
{
    let wait = Duration::from_millis(u64::from(wait_ms));
    stream.set_read_timeout(Some(wait))?;
    read_again(stream, buf)
}

/// Whether a read of that error got nothing in time.
pub(crate) fn is_silence(kind: ErrorKind) -> bool {
    matches!(kind, ErrorKind::WouldBlock | ErrorKind::TimedOut)
}
