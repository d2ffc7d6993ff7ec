//! What is printed.

use outside::LinkFault;
use std::io;

/// Prints what a call answered.
pub fn show_answer(rt: &impl Print, answer: Result<(), LinkFault>) -> io::Result<()> {
    match answer {
        Ok(()) => println!(rt; "  ok"),
        Err(LinkFault::Failed) => println!(rt; "  failed"),
        Err(LinkFault::Memory) => println!(rt; "  memory"),
    }
}

/// Prints what a schedule gives beside its world.
pub fn show_begun(rt: &impl Print, tick: u64, order: &[u8]) -> io::Result<()> {
    print!(rt; "  tick {tick}")?;
    if !order.is_empty() {
        print!(rt; " order ")?;
    }
    for letter in order {
        let client = if *letter == b'a' { 'a' } else { 'b' };
        print!(rt; "{client}")?;
    }
    println!(rt; "")
}

/// Prints bytes in words of four.
pub fn show_bytes(rt: &impl Print, bytes: &[u8]) -> io::Result<()> {
    print!(rt; " ")?;
    for (at, byte) in bytes.iter().enumerate() {
        if at % 4 == 0 {
            print!(rt; " ")?;
        }
        print!(rt; "{byte:02x}")?;
    }
    println!(rt; "")
}
