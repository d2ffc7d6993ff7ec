//! The verdict on a given history.

use net_edge::{StandardInput, StandardOutput, file_source};
use session_commands::SessionEnding;
use trace_runs::run_check;

/// The status if a file can't be opened.
const READ_FAULT: u8 = 4;

/// Judges the trace in the file of that name, or on standard input if it is `-`.
pub fn check(rt: &HostRuntime, path: &str) -> SessionEnding {
    let alloc = rt.alloc();
    let mut sink = StandardOutput::new(rt.stdout());
    if path == "-" {
        let mut source = StandardInput::new(rt.stdin());
        return SessionEnding::Ran(run_check(alloc, &mut source, &mut sink));
    }
    match file_source(rt, path) {
        Ok(mut source) => SessionEnding::Ran(run_check(alloc, &mut source, &mut sink)),
        Err(_) => SessionEnding::Ran(READ_FAULT),
    }
}
