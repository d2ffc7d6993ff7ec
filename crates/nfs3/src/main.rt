//! A user-space client of NFS version 3.
//! - `nfs3 run HOST WORDS` runs the script on standard input with the server at HOST over TCP.
//! - `nfs3 run --udp HOST WORDS` does so over UDP, and `nfs3 run --fsc FILE HOST WORDS` over TCP with pages that are kept in FILE.
//!   With `--batches` before the host each of these runs batch after batch.
//! - `nfs3 replay SCHEDULE WORDS` runs over a simulated server, which the file SCHEDULE describes, and with `--batches` before it
//!   batch after batch.
//! - `nfs3 trace SCHEDULE WORDS` prints the history of such a run.
//! - `nfs3 check TRACE` judges a history that is given.
//! - `nfs3 make N WORDS` runs a script that is made over such a server without a file.
//! - `nfs3 pair SCHEDULE SCRIPT` runs two scripts as two clients of a simulated server.
//! - `nfs3 copy HOST EXPORT FROM TO`, one of which begins with `:`, copies a file or a folder to a server or from one.
//! - `nfs3 export PORT CALLS`, with or without a SCHEDULE, serves a test export, over UDP with `--udp` before the port.
//! - `nfs3 fsc-make FILE` makes a file of kept pages. `--pages N` behind a FILE of pages says for how many it is.
#![tactic(auto)]

mod check;
mod connections;
mod copy;
mod ending;
mod export;
mod kept;
mod make;
mod nowhere;
mod page_file;
mod pair;
mod trace;

use crate::copy::Copying;
use crate::ending::Ending;
use copy_scripts::Progress;
use fetch_scripts::Skips;
use net_edge::StandIns;
use session_commands::{
    SessionEnding, closed, program_words, report_status, session_command, take_word,
};
use std::process::ExitCode;

fn main(rt: HostRuntime) -> ExitCode {
    let stand_ins = StandIns::open(&rt, &rt.stdin(), &rt.stdout(), &rt.stderr());
    let ending = match &stand_ins {
        Ok(_) => program(&rt),
        Err(stream) => Ending::Session(closed(*stream)),
    };
    report(&rt, ending);
    ExitCode::from(ending.status())
}

/// Does what the program's words ask for.
fn program(rt: &HostRuntime) -> Ending {
    match program_words(rt) {
        Ok(words) => command(rt, words),
        Err(ending) => Ending::Session(ending),
    }
}

/// Runs the command that the first word names. `replay`, and `run` without kept pages, are those of `session_commands`.
fn command(rt: &HostRuntime, mut words: Vec<String>) -> Ending {
    match words.as_slice() {
        [name, _, ..] if name.as_str() == "trace" => {
            let path = words.remove(1);
            trace::trace(rt, path.as_str(), words.as_slice())
        }
        [name, schedule, script] if name.as_str() == "pair" => {
            Ending::Session(pair::pair(rt, schedule.as_str(), script.as_str()))
        }
        [name, _, ..] if name.as_str() == "make" => {
            let size = words.remove(1);
            Ending::Session(make::make(rt, size.as_str(), words.as_slice()))
        }
        [name, fsc, ..] if name.as_str() == "run" && fsc.as_str() == "--fsc" => {
            words.remove(1);
            run_kept(rt, words)
        }
        [name, _, ..] if name.as_str() == "copy" => Ending::Session(copy_command(rt, words)),
        [name, path] if name.as_str() == "check" => {
            Ending::Session(check::check(rt, path.as_str()))
        }
        [name, words @ ..] if name.as_str() == "export" => export::export(rt, words),
        [name, words @ ..] if name.as_str() == "fsc-make" => page_file::make(rt, words),
        _ => Ending::Session(session_command(rt, words)),
    }
}

/// Runs a session whose pages are kept in the file that the second word names. Behind it `--pages` and a number may stand.
fn run_kept(rt: &HostRuntime, mut words: Vec<String>) -> Ending {
    match words.as_slice() {
        [_, _, sized, _, _, ..] if sized.as_str() == "--pages" => {
            let path = words.remove(1);
            words.remove(1);
            let pages = words.remove(1);
            let host = words.remove(1);
            kept::run_sized(
                rt,
                path.as_str(),
                pages.as_str(),
                host.as_str(),
                words.as_slice(),
            )
        }
        [_, _, sized, ..] if sized.as_str() == "--pages" => Ending::Session(SessionEnding::Usage),
        [_, _, _, ..] => {
            let path = words.remove(1);
            let host = words.remove(1);
            kept::run(rt, path.as_str(), host.as_str(), words.as_slice())
        }
        _ => Ending::Session(SessionEnding::Usage),
    }
}

/// Copies between this machine and a server. `--progress`, `--check` and `--size-only` may stand behind the first word, in any order.
fn copy_command(rt: &HostRuntime, mut words: Vec<String>) -> SessionEnding {
    let mut how = Copying::new(rt);
    for _ in 0..words.len() {
        if !take_option(&mut how, &mut words) {
            break;
        }
    }
    if words.len() < 2 {
        return SessionEnding::Usage;
    }
    let host = words.remove(1);
    copy::copy_over_tcp(rt, host.as_str(), how, words)
}

/// Takes the second word away if it is an option of a copy: whether it was.
fn take_option(how: &mut Copying, words: &mut Vec<String>) -> bool {
    if take_word(words, "--progress") {
        how.progress = Progress::Shown;
        return true;
    }
    if take_word(words, "--check") {
        how.check = true;
        return true;
    }
    if take_word(words, "--size-only") {
        how.skips = Skips::Sizes;
        return true;
    }
    false
}

/// Says on standard error how the program ends. If that can't be written, nothing is said.
fn report(rt: &HostRuntime, ending: Ending) {
    match ending {
        Ending::Session(ending) => session_commands::report(rt, ending),
        Ending::Store => {
            let _ = eprintln!(rt; "nfs3: store");
        }
        Ending::TooLong => {
            let _ = eprintln!(rt; "nfs3: trace 0");
        }
        Ending::Served | Ending::Made | Ending::Lost => report_status(rt, ending.status()),
    }
}
