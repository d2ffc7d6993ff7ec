//! The settings of command lines.

use crate::case::words_of;
use rpc_message::Cred;
use session_words::{Export, Settings, WordsFault, read_words};
use std::alloc::Global;
use std::io;

/// Prints the settings of a command line, but for its modes.
pub fn show(rt: &impl Print, alloc: Global, line: &str) -> io::Result<()> {
    match settings_of(alloc, line) {
        Ok(settings) => show_settings(rt, &settings),
        Err(fault) => show_fault(rt, fault),
    }
}

/// Prints for how long a command line lets attributes be believed, and what goes by them.
pub fn show_modes(rt: &impl Print, alloc: Global, line: &str) -> io::Result<()> {
    match settings_of(alloc, line) {
        Ok(settings) => show_lives(rt, &settings),
        Err(fault) => show_fault(rt, fault),
    }
}

fn show_lives(rt: &impl Print, settings: &Settings) -> io::Result<()> {
    let lives = settings.lives;
    print!(rt; "  reg {} {}", lives.reg_min, lives.reg_max)?;
    print!(rt; " dir {} {}", lives.dir_min, lives.dir_max)?;
    print!(rt; "{}", if settings.noac { " noac" } else { "" })?;
    println!(rt; "{}", if settings.nocto { " nocto" } else { "" })
}

/// The settings of a command line.
fn settings_of(alloc: Global, line: &str) -> Result<Settings, WordsFault> {
    match words_of(alloc, line) {
        Ok(words) => read_words(alloc, words.as_slice()),
        Err(_) => Err(WordsFault::Memory),
    }
}

fn show_fault(rt: &impl Print, fault: WordsFault) -> io::Result<()> {
    match fault {
        WordsFault::Refused => println!(rt; "  refused"),
        WordsFault::Memory => println!(rt; "  out of memory"),
    }
}

fn show_settings(rt: &impl Print, settings: &Settings) -> io::Result<()> {
    show_export(rt, &settings.export)?;
    print!(rt; " mount {} nfs {}", settings.mount_port, settings.nfs_port)?;
    match settings.cred {
        Cred::None => print!(rt; " nobody")?,
        Cred::Sys { machine, uid, gid } => {
            print!(rt; " ")?;
            show_text(rt, machine.bytes())?;
            print!(rt; " {uid} {gid}")?;
        }
    }
    print!(rt; " rsize {} wsize {}", settings.rsize, settings.wsize)?;
    match settings.xid {
        Some(xid) => print!(rt; " calls {} xid {xid}", settings.calls)?,
        None => print!(rt; " calls {}", settings.calls)?,
    }
    println!(rt; "{}", if settings.count { " count" } else { "" })
}

/// Prints a path as it is, and a root in hex; of more than 16 bytes how many there are.
fn show_export(rt: &impl Print, export: &Export) -> io::Result<()> {
    match export {
        Export::Path(path) => {
            print!(rt; "  path ")?;
            show_text(rt, path.bytes())
        }
        Export::Root(root) => {
            print!(rt; "  root ")?;
            if root.bytes().len() > 16 {
                return print!(rt; "of {} bytes", root.bytes().len());
            }
            for byte in root.bytes() {
                print!(rt; "{byte:02x}")?;
            }
            Ok(())
        }
    }
}

fn show_text(rt: &impl Print, bytes: &[u8]) -> io::Result<()> {
    match std::str::from_utf8(bytes) {
        Ok(text) if bytes.len() <= 16 => print!(rt; "{text}"),
        Ok(_) => print!(rt; "of {} bytes", bytes.len()),
        Err(_) => print!(rt; "no text"),
    }
}
