//! Texts of lines.

use std::alloc::{AllocError, Global};
use xdr_codec::{Memory, Record};

/// The bytes of digits in hex, with or without spaces; none if they aren't digits of whole bytes.
pub fn bytes_of(alloc: Global, text: &str) -> Result<Vec<u8>, AllocError> {
    let mut digits = String::new(alloc);
    for part in text.split(' ') {
        digits.push_str(part)?;
    }
    Ok(hex::decode(alloc, digits.as_str()).unwrap_or(Vec::new(alloc)))
}

/// The record of hex digits, with blanks between them.
pub fn record_of(alloc: Global, text: &str) -> Result<Record, Memory> {
    Record::copy(alloc, bytes_of(alloc, text)?.as_slice())
}

/// The number of a port; 0 if it is none.
pub fn port_of(text: &str) -> u16 {
    text.parse::<u16>().unwrap_or(0)
}
