//! The words of a line.

use nfs_types::{Handle, Mode};

/// A number below 2^32; 0 for a greater one.
pub(crate) fn small(number: u64) -> u32 {
    u32::try_from(number).unwrap_or(0)
}

/// A number below 256; 0 for a greater one.
pub(crate) fn tiny(number: u64) -> u8 {
    u8::try_from(number).unwrap_or(0)
}

/// The first word of a line, and the rest.
pub(crate) fn first_word(line: &str) -> (&str, &str) {
    line.split_once(' ').unwrap_or((line, ""))
}

/// The numbers of a line; a word that isn't in decimal digits counts as 0.
pub(crate) fn numbers(words: &str) -> [u64; 7] {
    let mut found = [0; 7];
    for (at, word) in words.split_whitespace().enumerate() {
        if at < 7 {
            found[at] = word.parse::<u64>().unwrap_or(0);
        }
    }
    found
}

/// The last word; `-` stands for none.
pub(crate) fn text(words: &str) -> &str {
    match words.split_whitespace().last() {
        Some("-") => "",
        Some(word) => word,
        None => "",
    }
}

/// The file handle of a number below 256.
pub(crate) fn file(number: u64) -> Handle {
    Handle::make(&[tiny(number)]).unwrap_or(Handle::make(&[]).unwrap())
}

/// A word of a line, counted from 0; no text if there are fewer.
pub(crate) fn word_at(words: &str, at: usize) -> &str {
    words.split_whitespace().nth(at).unwrap_or("")
}

/// A number of a line; a word that isn't in decimal digits counts as 0.
pub(crate) fn number_at(words: &str, at: usize) -> u64 {
    word_at(words, at).parse::<u64>().unwrap_or(0)
}

/// The mode of an open.
pub(crate) fn mode_of(word: &str) -> Mode {
    match word {
        "r" => Mode::R,
        "w" => Mode::W,
        "rw" => Mode::RW,
        "c" => Mode::C,
        _ => Mode::X,
    }
}
