//! Digits of lines.

use std::alloc::Global;

/// The bytes of digits in hex, with or without spaces. None if they aren't digits of whole bytes, or out of memory.
pub fn bytes_of(alloc: Global, text: &str) -> Option<Vec<u8>> {
    let mut digits = String::new(alloc);
    for part in text.split(' ') {
        digits.push_str(part).ok()?;
    }
    hex::decode(alloc, digits.as_str()).ok()
}

/// The number of decimal digits; 0 if they aren't of a number below 2^32.
pub fn number_of(text: &str) -> u32 {
    text.parse::<u32>().unwrap_or(0)
}
