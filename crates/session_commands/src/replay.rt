//! A session over a simulated server.

use crate::ending::SessionEnding;
use crate::schedule_file::{refused, schedule_text};
use net_edge::{StandardInput, StandardOutput};
use port_words::batch_words;

/// Runs the words over the simulated server of the schedule in the file of that name.
pub fn replay(rt: &HostRuntime, path: &str, words: &[String]) -> SessionEnding {
    let alloc = rt.alloc();
    let text = match schedule_text(rt, path) {
        Ok(text) => text,
        Err(ending) => return ending,
    };
    let mut source = StandardInput::new(rt.stdin());
    let mut sink = StandardOutput::new(rt.stdout());
    match run_replay::replay(alloc, text.as_slice(), words, &mut source, &mut sink) {
        Ok((_, status)) => SessionEnding::Ran(status),
        Err(fault) => refused(fault),
    }
}

/// Runs the batches on standard input over the simulated server of the schedule in the file of that name.
pub fn replay_batches(rt: &HostRuntime, path: &str, words: &[String]) -> SessionEnding {
    let alloc = rt.alloc();
    let text = match schedule_text(rt, path) {
        Ok(text) => text,
        Err(ending) => return ending,
    };
    let Ok(words) = batch_words(alloc, words) else {
        return SessionEnding::Memory;
    };
    let mut source = StandardInput::new(rt.stdin());
    let mut sink = StandardOutput::new(rt.stdout());
    match run_replay::replay_batches(
        alloc,
        text.as_slice(),
        words.as_slice(),
        &mut source,
        &mut sink,
    ) {
        Ok((_, status)) => SessionEnding::Ran(status),
        Err(fault) => refused(fault),
    }
}
