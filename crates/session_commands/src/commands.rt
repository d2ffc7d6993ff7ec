//! Which command of a session the words ask for.

use crate::ending::SessionEnding;
use crate::words::take_word;
use crate::{replay, run};

/// Runs the command that the first word names, `run` or `replay`, on the standard streams. Any other word is `Usage`, and so is
/// `run --fsc`: no pages are kept here.
pub fn session_command(rt: &HostRuntime, mut words: Vec<String>) -> SessionEnding {
    match words.as_slice() {
        [name, batches, _, ..] if name.as_str() == "replay" && batches.as_str() == "--batches" => {
            words.remove(1);
            let path = words.remove(1);
            replay::replay_batches(rt, path.as_str(), words.as_slice())
        }
        [name, _, ..] if name.as_str() == "replay" => {
            let path = words.remove(1);
            replay::replay(rt, path.as_str(), words.as_slice())
        }
        [name, fsc, ..] if name.as_str() == "run" && fsc.as_str() == "--fsc" => {
            SessionEnding::Usage
        }
        [name, _, ..] if name.as_str() == "run" => run_command(rt, words),
        _ => SessionEnding::Usage,
    }
}

/// Runs a session with a server. `--udp` and `--batches` may stand behind the first word, in either order.
fn run_command(rt: &HostRuntime, mut words: Vec<String>) -> SessionEnding {
    let early = take_word(&mut words, "--batches");
    let udp = take_word(&mut words, "--udp");
    let batches = early || (udp && take_word(&mut words, "--batches"));
    if words.len() < 2 {
        return SessionEnding::Usage;
    }
    let host = words.remove(1);
    match (udp, batches) {
        (false, false) => run::run(rt, host.as_str(), words.as_slice()),
        (true, false) => run::run_over_udp(rt, host.as_str(), words.as_slice()),
        (false, true) => run::run_batches(rt, host.as_str(), words.as_slice()),
        (true, true) => run::run_batches_over_udp(rt, host.as_str(), words.as_slice()),
    }
}
