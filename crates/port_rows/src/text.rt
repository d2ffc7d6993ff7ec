//! Texts of lines.

use std::alloc::{AllocError, Global};

/// A line with `[N*TEXT]` as so many copies of the text.
pub fn spread(alloc: Global, line: &str) -> Result<String, AllocError> {
    match parts_of(line) {
        Some((front, count, text, back)) => {
            let mut whole = String::from_str(alloc, front)?;
            for _ in 0..count {
                whole.push_str(text)?;
            }
            whole.push_str(back)?;
            Ok(whole)
        }
        None => String::from_str(alloc, line),
    }
}

/// What stands before the copies, how many there are, the text, and what stands after them.
fn parts_of<'a>(line: &'a str) -> Option<(&'a str, u32, &'a str, &'a str)> {
    let (front, rest) = line.split_once('[')?;
    let (inner, back) = rest.split_once(']')?;
    let (count, text) = inner.split_once('*')?;
    Some((front, number_of(count), text, back))
}

/// The bytes of digits in hex, with or without spaces; none if they aren't digits of whole bytes.
pub fn bytes_of(alloc: Global, text: &str) -> Result<Vec<u8>, AllocError> {
    let mut digits = String::new(alloc);
    for part in text.split(' ') {
        digits.push_str(part)?;
    }
    Ok(hex::decode(alloc, digits.as_str()).unwrap_or(Vec::new(alloc)))
}

/// The number of decimal digits; 0 if they aren't of a number below 2^32.
pub fn number_of(text: &str) -> u32 {
    text.parse::<u32>().unwrap_or(0)
}

/// The number of a port; 0 if it is none.
pub fn port_of(text: &str) -> u16 {
    text.parse::<u16>().unwrap_or(0)
}

/// The words of a line, parted by single spaces.
pub fn words_of(alloc: Global, line: &str) -> Result<Vec<String>, AllocError> {
    let mut words = Vec::new(alloc);
    for word in line.split(' ') {
        words.push(String::from_str(alloc, word)?)?;
    }
    Ok(words)
}
