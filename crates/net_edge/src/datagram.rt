//! Datagrams (RFC 768) on a socket of the system.

use crate::again::is_interrupted;
use crate::tcp::is_silence;
use outside::Arrived;
use std::io::{self, ErrorKind};
use std::net::{SocketAddr, UdpSocket};
use std::time::Duration;

/// The room for a datagram. None of UDP has more than 65,527 bytes, so each comes whole.
const ROOM: usize = 65_536;

/// The most datagrams of other hosts that one wait drops.
const MOST_DROPPED: u32 = 1_024;

/// A socket, and where it sends to.
#[derive(Drop)]
pub(crate) struct PeerSocket {
    pub(crate) socket: UdpSocket,
    pub(crate) peer: SocketAddr,
}

impl PeerSocket {
    /// Whether the system takes the bytes as one datagram to the peer. One that can't reach the host now is lost, as others
    /// are on their way.
    pub(crate) fn send(&self, bytes: &[u8]) -> bool {
        match send_again(&self.socket, bytes, self.peer) {
            Ok(count) => count == bytes.len(),
            Err(error) => is_unreachable(error.kind()),
        }
    }

    /// Waits for a datagram from the peer's host, whatever port it comes from, which takes the place of what the buffer held.
    /// After a datagram of another host, or the word that no one listens, the wait begins anew.
    pub(crate) fn receive(&self, wait_ms: u32, buf: &mut Vec<u8>) -> Arrived {
        let wait = Duration::from_millis(u64::from(wait_ms));
        if self.socket.set_read_timeout(Some(wait)).is_err() {
            return Arrived::Failed;
        }
        if buf.resize(ROOM, 0).is_err() {
            return Arrived::Memory;
        }
        match self.come(buf.as_mut_slice()) {
            Ok((count, from)) => {
                buf.truncate(count);
                Arrived::From(from.port())
            }
            Err(error) if is_silence(error.kind()) => Arrived::Silent,
            Err(_) => Arrived::Failed,
        }
    }

    /// The next datagram from the peer's host: how many bytes it has, and whence it came.
    fn come(&self, buf: &mut [u8]) -> io::Result<(usize, SocketAddr)> {
        for _ in 0..MOST_DROPPED {
            let (count, from) = receive_again(&self.socket, buf)?;
            if from.ip() == self.peer.ip() {
                return Ok((count, from));
            }
        }
        Err(io::Error::from(ErrorKind::TimedOut))
    }
}

/// Sends a datagram, and does so again as often as the system interrupts it, or tells of an earlier one.
fn send_again(socket: &UdpSocket, bytes: &[u8], peer: SocketAddr) -> io::Result<usize> {
    for _ in 0..u64::MAX {
        match socket.send_to(bytes, peer) {
            Ok(count) => return Ok(count),
            Err(error) => {
                if !is_passing(&error) {
                    return Err(error);
                }
            }
        }
    }
    Err(io::Error::from(ErrorKind::TimedOut))
}

/// Waits for a datagram, and begins anew as often as the system interrupts it, or tells of one that was sent.
fn receive_again(socket: &UdpSocket, buf: &mut [u8]) -> io::Result<(usize, SocketAddr)> {
    for _ in 0..u64::MAX {
        match socket.recv_from(buf) {
            Ok(came) => return Ok(came),
            Err(error) => {
                if !is_passing(&error) {
                    return Err(error);
                }
            }
        }
    }
    Err(io::Error::from(ErrorKind::TimedOut))
}

/// Whether the call may be made again at once: the system interrupted it, or told in its place that no one listened where an
/// earlier datagram went, as while a server starts again.
fn is_passing(error: &io::Error) -> bool {
    is_interrupted(error) || error.kind() == ErrorKind::ConnectionRefused
}

/// Whether there is no way to the host now.
fn is_unreachable(kind: ErrorKind) -> bool {
    matches!(
        kind,
        ErrorKind::HostUnreachable | ErrorKind::NetworkUnreachable | ErrorKind::NetworkDown
    )
}
