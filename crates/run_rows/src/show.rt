//! What is printed.

use std::io;

/// Prints each line of a text.
pub fn show_text(rt: &impl Print, bytes: &[u8]) -> io::Result<()> {
    match std::str::from_utf8(bytes) {
        Ok(text) => {
            for line in text.lines() {
                println!(rt; "  {line}")?;
            }
            Ok(())
        }
        Err(_) => println!(rt; "  no text"),
    }
}

/// Prints how a run ended, and what it wrote.
pub fn show_end(rt: &impl Print, status: u8, written: &[u8]) -> io::Result<()> {
    println!(rt; "  status {status}")?;
    show_text(rt, written)
}
