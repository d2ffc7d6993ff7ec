//! What is printed.

use outside::{DatagramEntry, MemDatagrams};
use std::io;

/// The most calls that are printed one by one.
const MOST_CALLS: usize = 32;

/// Prints bytes in words of four; of more than 1,024 how many there are.
fn show_bytes(rt: &impl Print, bytes: &[u8]) -> io::Result<()> {
    if bytes.is_empty() {
        return println!(rt; "  no bytes");
    }
    if bytes.len() > 1_024 {
        return println!(rt; "  {} bytes", bytes.len());
    }
    print!(rt; " ")?;
    for (at, byte) in bytes.iter().enumerate() {
        if at % 4 == 0 {
            print!(rt; " ")?;
        }
        print!(rt; "{byte:02x}")?;
    }
    println!(rt; "")
}

/// Prints what the calls of datagrams did; of many calls how many there were.
pub fn show_calls(rt: &impl Print, datagrams: &MemDatagrams) -> io::Result<()> {
    let entries = datagrams.entries();
    if entries.len() > MOST_CALLS {
        return println!(rt; "  {} calls", entries.len());
    }
    for entry in entries {
        show_entry(rt, entry)?;
    }
    Ok(())
}

fn show_entry(rt: &impl Print, entry: &DatagramEntry) -> io::Result<()> {
    match entry {
        DatagramEntry::Aimed { port } => println!(rt; "  aimed {port}"),
        DatagramEntry::Sent { bytes } => {
            print!(rt; "  sent")?;
            show_bytes(rt, bytes.bytes())
        }
        DatagramEntry::Came { port, bytes } => {
            print!(rt; "  came from {port}")?;
            show_bytes(rt, bytes.bytes())
        }
        DatagramEntry::Noted { .. } => println!(rt; "  noted"),
        DatagramEntry::Missed => println!(rt; "  missed"),
    }
}
