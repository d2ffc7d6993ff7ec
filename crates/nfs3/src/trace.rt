//! The trace of a session over a simulated server.

use crate::ending::Ending;
use crate::nowhere::Nowhere;
use net_edge::{StandardInput, StandardOutput};
use outside::LinkFault;
use run_replay::replay;
use script_runs::write_all;
use session_commands::{SessionEnding, refused, schedule_text};
use trace_text::print;
use trace_words::trace_words;
use world_link::{World, WorldLog};
use world_model::Entry;
use world_trace::trace_of;
use xdr_codec::{Blob, Memory};

/// The session ended for lack of memory.
const NO_MEMORY: u8 = 7;

/// The most entries of a trace.
const MOST_ENTRIES: usize = 4096;

/// The most bytes of records that a trace shows as sent, two digits each.
const MOST_SENT: usize = 524_288;

/// Runs the words over the simulated server of the schedule in the file of that name. It writes the trace of what
/// happened in place of the answers.
pub fn trace(rt: &HostRuntime, path: &str, words: &[String]) -> Ending {
    let alloc = rt.alloc();
    let text = match schedule_text(rt, path) {
        Ok(text) => text,
        Err(ending) => return Ending::Session(ending),
    };
    let mut source = StandardInput::new(rt.stdin());
    match replay(alloc, text.as_slice(), words, &mut source, &mut Nowhere) {
        Ok((_, NO_MEMORY)) => Ending::Session(SessionEnding::Memory),
        Ok((world, status)) => tell(rt, world, words, status),
        Err(fault) => Ending::Session(refused(fault)),
    }
}

/// Writes what the world tells of a session that ended with the status; nothing if its words are refused.
fn tell(rt: &HostRuntime, world: World, words: &[String], status: u8) -> Ending {
    match trace_text(rt, world, words) {
        Ok(Told::Text(text)) => Ending::Session(write(rt, &text, status)),
        Ok(Told::TooLong) => Ending::TooLong,
        Ok(Told::Refused) => Ending::Session(SessionEnding::Usage),
        Err(_) => Ending::Session(SessionEnding::Memory),
    }
}

/// What is told of a world.
#[derive(Drop)]
enum Told {
    /// The text of its trace.
    Text(Blob),
    /// The trace is past the limits of a trace.
    TooLong,
    /// The words are of no session.
    Refused,
}

/// Whether a log may have a trace within the limits: it has no more entries, and not more bytes were sent than the text
/// would show.
fn may_be_told(log: &WorldLog) -> bool {
    let mut sent: usize = 0;
    for one in log.told.as_slice() {
        if let Entry::Sent { bytes } = &one.entry {
            sent = sent.saturating_add(bytes.bytes().len());
        }
    }
    log.told.len() <= MOST_ENTRIES && sent <= MOST_SENT
}

/// The text of the trace of a world.
fn trace_text(rt: &HostRuntime, world: World, words: &[String]) -> Result<Told, Memory> {
    let alloc = rt.alloc();
    let Some(given) = trace_words(alloc, words)? else {
        return Ok(Told::Refused);
    };
    let log = world.into_log();
    if !may_be_told(&log) {
        return Ok(Told::TooLong);
    }
    let trace = trace_of(alloc, log, given.root, given.lives, given.noac, given.nocto)?;
    match print(alloc, &trace)? {
        Some(text) => Ok(Told::Text(text)),
        None => Ok(Told::TooLong),
    }
}

/// Writes a text on standard output.
fn write(rt: &HostRuntime, text: &Blob, status: u8) -> SessionEnding {
    let mut sink = StandardOutput::new(rt.stdout());
    match write_all(&mut sink, text.bytes()) {
        Ok(()) => SessionEnding::Ran(status),
        Err(LinkFault::Failed) => SessionEnding::WriteFault,
        Err(LinkFault::Memory) => SessionEnding::Memory,
    }
}
