//! A socket whose datagrams wait for the answers to earlier ones.

use crate::datagram::PeerSocket;
use crate::flight::{Flight, PAUSE_MS};
use outside::Arrived;
use std::alloc::Global;

/// The most datagrams that are kept while others wait to be sent.
const MOST_EARLY: usize = 32;

/// A datagram that came while another one waited to be sent, and the port that it came from.
#[derive(Drop)]
struct Early {
    port: u16,
    bytes: Vec<u8>,
}

/// A socket, the datagrams that it sent and that weren't answered yet, and those that came in the meantime.
#[derive(Drop)]
pub(crate) struct PacedSocket {
    pub(crate) socket: PeerSocket,
    alloc: Global,
    flight: Flight,
    early: Vec<Early>,
}

impl PacedSocket {
    /// That socket, which has sent nothing yet.
    pub(crate) fn new(alloc: Global, socket: PeerSocket) -> PacedSocket {
        PacedSocket {
            socket,
            alloc,
            flight: Flight::new(),
            early: Vec::new(alloc),
        }
    }

    /// Whether the system takes the bytes as one datagram, once there is room for it.
    pub(crate) fn send(&mut self, bytes: &[u8]) -> bool {
        self.await_room(bytes.len());
        self.flight.sent(bytes.len());
        self.socket.send(bytes)
    }

    /// The first datagram that was kept, or the next one that comes within the wait. It takes the place of what the buffer
    /// held.
    pub(crate) fn receive(&mut self, wait_ms: u32, buf: &mut Vec<u8>) -> Arrived {
        if !self.early.is_empty() {
            let early = self.early.remove(0);
            *buf = early.bytes;
            return Arrived::From(early.port);
        }
        let arrived = self.socket.receive(wait_ms, buf);
        match arrived {
            Arrived::From(_) => self.flight.came(),
            _ => self.flight = Flight::new(),
        }
        arrived
    }

    /// Waits until a datagram of so many bytes has room beside those that weren't answered yet. If no answer comes in time
    /// these count as lost.
    fn await_room(&mut self, len: usize) {
        for _ in 0..MOST_EARLY {
            if self.flight.has_room(len) {
                return;
            }
            if !self.hear() {
                self.flight = Flight::new();
                return;
            }
        }
    }

    /// Keeps a datagram that comes within the pause. False if none does, or no more are kept.
    fn hear(&mut self) -> bool {
        if self.early.len() >= MOST_EARLY {
            return false;
        }
        let mut bytes = Vec::new(self.alloc);
        let Arrived::From(port) = self.socket.receive(PAUSE_MS, &mut bytes) else {
            return false;
        };
        self.flight.came();
        self.early.push(Early { port, bytes }).is_ok()
    }
}
