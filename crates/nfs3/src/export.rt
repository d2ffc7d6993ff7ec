//! An export that is served over TCP or UDP.

ghost use Rattle.std.specs.Prelude.{◌≡◌};
ghost use Rattle.script_text.specs.Numbers.{number_of};

use crate::connections::serve_connections;
use crate::ending::{Ending, ended};
use export_fs::Export;
use export_session::Serving;
use net_edge::{LoopbackListener, UdpDatagrams};
use script_text::number;
use session_commands::{SessionEnding, refused, schedule_text};
use world_link::read_schedule;

/// What the records of a call go over.
#[derive(Clone, Copy)]
enum Protocol {
    Tcp,
    Udp,
}

/// Serves an export at a port of 127.0.0.1, which the words name, until as many calls were answered as they say. A third
/// word names the file of a schedule: its objects are there at the start, and its other lines have no effect. It is served
/// over UDP if a word `--udp` stands before these, and else over TCP.
pub fn export(rt: &HostRuntime, words: &[String]) -> Ending {
    match words {
        [word, rest @ ..] if word.as_str() == "--udp" => serve_words(rt, Protocol::Udp, rest),
        _ => serve_words(rt, Protocol::Tcp, words),
    }
}

fn serve_words(rt: &HostRuntime, over: Protocol, words: &[String]) -> Ending {
    match words {
        [port, calls] => serve(rt, over, port.as_str(), calls.as_str(), None),
        [port, calls, path] => serve(rt, over, port.as_str(), calls.as_str(), Some(path.as_str())),
        _ => Ending::Session(SessionEnding::Usage),
    }
}

fn serve(rt: &HostRuntime, over: Protocol, port: &str, calls: &str, path: Option<&str>) -> Ending {
    let (Some(port), Some(calls)) = (port_number(port), call_count(calls)) else {
        return Ending::Session(SessionEnding::Usage);
    };
    let serving = match export_of(rt, path) {
        Ok(fs) => Serving::new(rt.alloc(), fs, port, calls),
        Err(ending) => return Ending::Session(ending),
    };
    match over {
        Protocol::Tcp => listen(rt, port, serving),
        Protocol::Udp => listen_to_datagrams(rt, port, serving),
    }
}

/// The port of a word. None exactly if it isn't a number from 1 to 65,535 in decimal digits.
fn port_number(word: &str) -> Option<u16>
    ensures { result ≡ number_of 1 65535 word.now }
{
    let port = number(word.as_bytes(), 1, 65_535)?;
    Some(port as u16)
}

/// The number of calls of a word. None exactly if it isn't a number from 1 to 4,294,967,295 in decimal digits.
fn call_count(word: &str) -> Option<u32>
    ensures { result ≡ number_of 1 4294967295 word.now }
{
    number(word.as_bytes(), 1, u32::MAX)
}

/// The export with the objects that a schedule begins with; without one it is empty.
fn export_of(rt: &HostRuntime, path: Option<&str>) -> Result<Export, SessionEnding> {
    let Some(path) = path else {
        return Export::new(rt.alloc()).map_err(|_| SessionEnding::Memory);
    };
    let text = schedule_text(rt, path)?;
    match read_schedule(rt.alloc(), text.as_slice()) {
        Ok(schedule) => Ok(schedule.export),
        Err(fault) => Err(refused(fault)),
    }
}

/// Listens at the port, says so on standard output, and serves one connection after another.
fn listen(rt: &HostRuntime, port: u16, mut serving: Serving) -> Ending {
    let Ok(mut listener) = LoopbackListener::bind(rt, port) else {
        return Ending::Lost;
    };
    match println!(rt; "listening {port}") {
        Ok(()) => serve_connections(rt.alloc(), &mut serving, &mut listener),
        Err(_) => Ending::Session(SessionEnding::WriteFault),
    }
}

/// Listens at the port, says so on standard output, and serves whoever sends datagrams there.
fn listen_to_datagrams(rt: &HostRuntime, port: u16, mut serving: Serving) -> Ending {
    let Ok(mut datagrams) = UdpDatagrams::bind(rt, port) else {
        return Ending::Lost;
    };
    match println!(rt; "listening {port}") {
        Ok(()) => ended(serving.serve_datagrams(&mut datagrams)),
        Err(_) => Ending::Session(SessionEnding::WriteFault),
    }
}
