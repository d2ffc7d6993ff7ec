//! A session of a script that is made, over a simulated server without a file.

use net_edge::StandardOutput;
use run_replay::replay_made;
use script_text::number;
use session_commands::{SessionEnding, refused};

/// The greatest size of a script that is made.
const MOST: u32 = 10_000;

/// Makes the script of this size, and runs the words with it over the simulated server of an empty schedule. Its clock stands still.
pub fn make(rt: &HostRuntime, size: &str, words: &[String]) -> SessionEnding {
    let alloc = rt.alloc();
    let Some(n) = number(size.as_bytes(), 1, MOST) else {
        return SessionEnding::Usage;
    };
    let mut sink = StandardOutput::new(rt.stdout());
    match replay_made(alloc, n, words, &mut sink) {
        Ok((_, status)) => SessionEnding::Ran(status),
        Err(fault) => refused(fault),
    }
}
