//! Reads the lines of answers.

use script_text::{first_line, next_word, number};

/// The greatest number of a line.
const LAST_LINE: u32 = 268_435_455;

/// An answer: the number of its line, and its words behind lane and number.
#[derive(Clone, Copy)]
pub(crate) struct Answer<'a> {
    pub(crate) number: u32,
    pub(crate) words: &'a [u8],
}

impl<'a> Answer<'a> {
    /// Whether the operation succeeded.
    pub(crate) fn is_ok(&self) -> bool {
        match next_word(self.words) {
            Some((word, _)) => word == b"ok".as_slice(),
            None => false,
        }
    }

    /// The word behind `ok`, if there is one.
    pub(crate) fn shown(&self) -> Option<&'a [u8]> {
        let (word, rest) = next_word(self.words)?;
        if word != b"ok".as_slice() {
            return None;
        }
        let (shown, _) = next_word(rest)?;
        Some(shown)
    }
}

/// The first answer of a text, and what follows it.
pub(crate) fn next_answer<'a>(text: &'a [u8]) -> Option<(Answer<'a>, &'a [u8])> {
    if text.is_empty() {
        return None;
    }
    let (line, after) = first_line(text);
    let (_, rest) = next_word(line)?;
    let (digits, words) = next_word(rest)?;
    let number = number(digits, 1, LAST_LINE)?;
    Some((Answer { number, words }, after))
}
