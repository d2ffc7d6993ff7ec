//! Texts of lines.

ghost use Rattle.made_script.specs.Made.{IsSize};

use std::alloc::{AllocError, Global};

/// The number of decimal digits; 0 if they aren't of a number below 2^32.
pub fn number_of(text: &str) -> u32 {
    text.parse::<u32>().unwrap_or(0)
}

/// The size of a script; 1 if the digits aren't of one.
pub fn size_of(text: &str) -> u32
    ensures { IsSize result }
{
    number_of(text).clamp(1, 10_000)
}

/// The words of a line, parted by single spaces.
pub fn words_of(alloc: Global, line: &str) -> Result<Vec<String>, AllocError> {
    let mut words = Vec::new(alloc);
    for word in line.split(' ') {
        words.push(String::from_str(alloc, word)?)?;
    }
    Ok(words)
}
