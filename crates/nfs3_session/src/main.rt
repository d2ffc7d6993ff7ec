//! The commands `run` and `replay` of nfs3 alone, which compile sooner than the whole program. Words, output and exit status are
//! those of nfs3.
//! - `nfs3 run HOST WORDS`, with `--udp` and `--batches` before the host, runs scripts with a server.
//! - `nfs3 replay SCHEDULE WORDS`, with `--batches` before the schedule, runs scripts over a simulated server.
#![tactic(auto)]

use net_edge::StandIns;
use session_commands::{SessionEnding, closed, program_words, report, session_command};
use std::process::ExitCode;

fn main(rt: HostRuntime) -> ExitCode {
    let stand_ins = StandIns::open(&rt, &rt.stdin(), &rt.stdout(), &rt.stderr());
    let ending = match &stand_ins {
        Ok(_) => program(&rt),
        Err(stream) => closed(*stream),
    };
    report(&rt, ending);
    ExitCode::from(ending.status())
}

/// Does what the program's words ask for.
fn program(rt: &HostRuntime) -> SessionEnding {
    match program_words(rt) {
        Ok(words) => session_command(rt, words),
        Err(ending) => ending,
    }
}
