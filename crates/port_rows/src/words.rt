//! Words of a port mapper, of a session over UDP, and of one with batches.

use crate::text::{port_of, words_of};
use port_words::{PortmapFault, batch_words, take_portmap, udp_words, with_ports};
use std::alloc::Global;
use std::io;

/// Prints the port mapper that the words name, and the other words.
pub fn show_portmap(rt: &impl Print, alloc: Global, rest: &str) -> io::Result<()> {
    let Ok(words) = words_of(alloc, rest) else {
        return println!(rt; "  out of memory");
    };
    match take_portmap(alloc, words.as_slice()) {
        Ok(Some(portmap)) => {
            println!(rt; "  port {}", portmap.port)?;
            show_words(rt, portmap.others.as_slice())
        }
        Ok(None) => println!(rt; "  none"),
        Err(PortmapFault::Refused) => println!(rt; "  refused"),
        Err(PortmapFault::Memory) => println!(rt; "  out of memory"),
    }
}

/// Prints words with the ports that stand before them.
pub fn show_with_ports(rt: &impl Print, alloc: Global, rest: &str) -> io::Result<()> {
    let (mount, rest) = rest.split_once(' ').unwrap_or((rest, ""));
    let (nfs, rest) = rest.split_once(' ').unwrap_or((rest, ""));
    let Ok(words) = words_of(alloc, rest) else {
        return println!(rt; "  out of memory");
    };
    match with_ports(alloc, words.as_slice(), port_of(mount), port_of(nfs)) {
        Ok(words) => show_words(rt, words.as_slice()),
        Err(_) => println!(rt; "  out of memory"),
    }
}

/// Prints the words of a session over UDP.
pub fn show_udp(rt: &impl Print, alloc: Global, rest: &str) -> io::Result<()> {
    let Ok(words) = words_of(alloc, rest) else {
        return println!(rt; "  out of memory");
    };
    match udp_words(alloc, words.as_slice()) {
        Ok(words) => show_words(rt, words.as_slice()),
        Err(_) => println!(rt; "  out of memory"),
    }
}

/// Prints the words of a session of batches.
pub fn show_batches(rt: &impl Print, alloc: Global, rest: &str) -> io::Result<()> {
    let Ok(words) = words_of(alloc, rest) else {
        return println!(rt; "  out of memory");
    };
    match batch_words(alloc, words.as_slice()) {
        Ok(words) => show_words(rt, words.as_slice()),
        Err(_) => println!(rt; "  out of memory"),
    }
}

fn show_words(rt: &impl Print, words: &[String]) -> io::Result<()> {
    print!(rt; " ")?;
    for word in words {
        print!(rt; " {}", word.as_str())?;
    }
    println!(rt; "")
}
