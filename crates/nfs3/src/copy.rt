//! Copies between this machine and a server.

use copy_scripts::{Progress, server_path};
use copy_targets::Target;
use disk_target::{DiskCheck, DiskTarget};
use disk_tree::DiskTree;
use fetch_scripts::Skips;
use net_edge::{StandardError, SystemClock, TcpWire};
use port_words::batch_words;
use rpc_record::StreamLink;
use session_commands::SessionEnding;
use std::io::IsTerminal;

/// How a copy is made.
#[derive(Clone, Copy)]
pub struct Copying {
    /// Whether progress is told. On a terminal it is.
    pub progress: Progress,
    /// Nothing is written: the two sides are compared.
    pub check: bool,
    /// Which files are passed over.
    pub skips: Skips,
}

impl Copying {
    /// A copy of all files. Progress is told if standard error is a terminal.
    pub fn new(rt: &HostRuntime) -> Copying {
        let progress = if rt.stderr().is_terminal() {
            Progress::Shown
        } else {
            Progress::Hidden
        };
        Copying {
            progress,
            check: false,
            skips: Skips::Nothing,
        }
    }
}

/// Copies what the words say: an export, where from, where to, and the arguments of a session.
pub fn copy_over_tcp(
    rt: &HostRuntime,
    host: &str,
    how: Copying,
    mut words: Vec<String>,
) -> SessionEnding {
    if words.len() < 4 {
        return SessionEnding::Usage;
    }
    let from = words.remove(2);
    let to = words.remove(2);
    let Ok(words) = batch_words(rt.alloc(), words.as_slice()) else {
        return SessionEnding::Memory;
    };
    let words = words.as_slice();
    match (
        from.as_str().strip_prefix(':'),
        to.as_str().strip_prefix(':'),
    ) {
        (None, Some(path)) => up(rt, host, how, words, from.as_str(), path),
        (Some(path), None) => down(rt, host, how, words, path, to.as_str()),
        _ => SessionEnding::Usage,
    }
}

/// Copies to a path of the server, or compares.
fn up(
    rt: &HostRuntime,
    host: &str,
    how: Copying,
    words: &[String],
    from: &str,
    path: &str,
) -> SessionEnding {
    if how.check {
        return compare(rt, host, how, words, path, from);
    }
    match how.skips {
        Skips::Nothing => to_server(rt, host, how.progress, words, from, path),
        Skips::Sizes => SessionEnding::Usage,
    }
}

/// Copies from a path of the server, or compares.
fn down(
    rt: &HostRuntime,
    host: &str,
    how: Copying,
    words: &[String],
    path: &str,
    to: &str,
) -> SessionEnding {
    if how.check {
        return compare(rt, host, how, words, path, to);
    }
    let target = DiskTarget::new(rt, to);
    from_server(rt, host, how, words, path, target)
}

/// Copies a file or a folder to a path of the server.
fn to_server(
    rt: &HostRuntime,
    host: &str,
    progress: Progress,
    words: &[String],
    from: &str,
    to: &str,
) -> SessionEnding {
    let alloc = rt.alloc();
    let to = match server_path(alloc, to) {
        Ok(Some(to)) => to,
        Ok(None) => return SessionEnding::Usage,
        Err(_) => return SessionEnding::Memory,
    };
    let tree = DiskTree::new(rt, alloc, from);
    let mut link = StreamLink::new(alloc, TcpWire::new(rt, host));
    let mut clock = SystemClock::new(rt);
    let mut watch = SystemClock::new(rt);
    let mut out = StandardError::new(rt.stderr());
    let (status, _) = nfs_copy::run(
        alloc, words, tree, to, progress, &mut link, &mut clock, &mut out, &mut watch,
    );
    SessionEnding::Ran(status)
}

/// Compares what stands at a path of the server with what stands at one of this machine.
fn compare(
    rt: &HostRuntime,
    host: &str,
    how: Copying,
    words: &[String],
    path: &str,
    own: &str,
) -> SessionEnding {
    match DiskCheck::new(rt, rt.alloc(), own) {
        Ok(target) => from_server(rt, host, how, words, path, target),
        Err(_) => SessionEnding::Memory,
    }
}

/// Gives what stands at a path of the server to a target.
fn from_server<T: Target + Drop>(
    rt: &HostRuntime,
    host: &str,
    how: Copying,
    words: &[String],
    from: &str,
    target: T,
) -> SessionEnding {
    let alloc = rt.alloc();
    let from = match server_path(alloc, from) {
        Ok(Some(from)) => from,
        Ok(None) => return SessionEnding::Usage,
        Err(_) => return SessionEnding::Memory,
    };
    let mut link = StreamLink::new(alloc, TcpWire::new(rt, host));
    let mut clock = SystemClock::new(rt);
    let mut watch = SystemClock::new(rt);
    let mut out = StandardError::new(rt.stderr());
    let (status, _) = nfs_fetch::run(
        alloc,
        words,
        from,
        how.skips,
        target,
        how.progress,
        &mut link,
        &mut clock,
        &mut out,
        &mut watch,
    );
    SessionEnding::Ran(status)
}
