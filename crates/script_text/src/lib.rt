//! What the texts of scripts and of schedules have in common: lines, words, and the forms of numbers, bytes and paths.
//!
//! Each reader says exactly which words it takes and what they stand for. So a caller that names a fault in a text can
//! say that it is one.
#![tactic(auto)]

mod digits;
mod lines;
mod numbers;
mod paths;
mod payloads;
mod plain;

pub use lines::{
    first_line, first_text, four_words, is_skipped, is_utf8, next_word, one_word, three_words,
    two_words,
};
pub use numbers::{long_number, number};
pub use paths::{decoded, path, target};
pub use payloads::{byte, contents, payload};
