//! Sessions with a server over the network.

use crate::ending::SessionEnding;
use net_edge::{StandardInput, StandardOutput, SystemClock, TcpWire, UdpDatagrams};
use port_words::{batch_words, udp_words};
use rpc_record::StreamLink;
use run_ports::run_found;
use udp_link::UdpLink;

/// Runs the words with the server at the host of that name or address, over TCP. Its port mapper is asked over a connection of its
/// own, if the words name one.
pub fn run(rt: &HostRuntime, host: &str, words: &[String]) -> SessionEnding {
    let alloc = rt.alloc();
    let mut source = StandardInput::new(rt.stdin());
    let mut finder = StreamLink::new(alloc, TcpWire::new(rt, host));
    let mut link = StreamLink::new(alloc, TcpWire::new(rt, host));
    let mut clock = SystemClock::new(rt);
    let mut sink = StandardOutput::new(rt.stdout());
    SessionEnding::Ran(run_found(
        alloc,
        words,
        &mut source,
        &mut finder,
        &mut link,
        &mut clock,
        &mut sink,
    ))
}

/// Runs the words with the server at the host over UDP. If they name no sizes of READ and WRITE, these fit in a datagram.
pub fn run_over_udp(rt: &HostRuntime, host: &str, words: &[String]) -> SessionEnding {
    let alloc = rt.alloc();
    let Ok(words) = udp_words(alloc, words) else {
        return SessionEnding::Memory;
    };
    let mut source = StandardInput::new(rt.stdin());
    let mut link = UdpLink::new(UdpDatagrams::new(rt, host));
    let mut clock = SystemClock::new(rt);
    let mut sink = StandardOutput::new(rt.stdout());
    SessionEnding::Ran(nfs_client::run(
        alloc,
        words.as_slice(),
        &mut source,
        &mut link,
        &mut clock,
        &mut sink,
    ))
}

/// Runs the batches on standard input with the server at the host, over TCP. The most calls are those that there can be, if the
/// words name none.
pub fn run_batches(rt: &HostRuntime, host: &str, words: &[String]) -> SessionEnding {
    let alloc = rt.alloc();
    let Ok(words) = batch_words(alloc, words) else {
        return SessionEnding::Memory;
    };
    let mut source = StandardInput::new(rt.stdin());
    let mut link = StreamLink::new(alloc, TcpWire::new(rt, host));
    let mut clock = SystemClock::new(rt);
    let mut sink = StandardOutput::new(rt.stdout());
    SessionEnding::Ran(run_batches::run(
        alloc,
        words.as_slice(),
        &mut source,
        &mut link,
        &mut clock,
        &mut sink,
    ))
}

/// Runs the batches on standard input with the server at the host over UDP.
pub fn run_batches_over_udp(rt: &HostRuntime, host: &str, words: &[String]) -> SessionEnding {
    let alloc = rt.alloc();
    let Ok(words) = udp_words(alloc, words) else {
        return SessionEnding::Memory;
    };
    let Ok(words) = batch_words(alloc, words.as_slice()) else {
        return SessionEnding::Memory;
    };
    let mut source = StandardInput::new(rt.stdin());
    let mut link = UdpLink::new(UdpDatagrams::new(rt, host));
    let mut clock = SystemClock::new(rt);
    let mut sink = StandardOutput::new(rt.stdout());
    SessionEnding::Ran(run_batches::run(
        alloc,
        words.as_slice(),
        &mut source,
        &mut link,
        &mut clock,
        &mut sink,
    ))
}
