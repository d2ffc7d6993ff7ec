//! The words that a program is started with.

use crate::ending::SessionEnding;
use std::alloc::AllocError;
use std::env;
use std::io::ErrorKind;

/// The words behind the program's name. `Err` says how the program ends if they can't be had:
/// - `Memory`: there is no memory for them;
/// - `Usage`: one of them isn't UTF-8, or the system doesn't give them.
pub fn program_words(rt: &HostRuntime) -> Result<Vec<String>, SessionEnding> {
    let args = match env::args(rt) {
        Ok(args) => args,
        Err(error) if error.kind() == ErrorKind::OutOfMemory => return Err(SessionEnding::Memory),
        Err(_) => return Err(SessionEnding::Usage),
    };
    let words: Result<Vec<String>, AllocError> = args.skip(1).collect(rt.alloc());
    words.map_err(|_| SessionEnding::Memory)
}

/// Takes the second word away if it is this one and another one follows: whether it was.
pub fn take_word(words: &mut Vec<String>, word: &str) -> bool {
    let is_there = match words.as_slice() {
        [_, second, _, ..] => second.as_str() == word,
        _ => false,
    };
    if is_there && words.len() > 1 {
        words.remove(1);
    }
    is_there
}
