//! Reads the words of a command.

ghost use Rattle.std.specs.Prelude.{◌≡◌, ◌∷◌, IfSome};
ghost use Rattle.script_text.specs.Lines.{words, one, two, three, four};
ghost use Rattle.nfs_script.specs.Faults.{Gives};
ghost use Rattle.nfs_script.specs.Commands.{wanted, slot_of, offset_of, read_count_of, fill_count_of, bits_of, mode_of, any_path_of, named_path_of, link_target_of, bytes_of, one_byte_of};
ghost use Rattle.nfs_script.specs.Script.{first_of, lane_of};

use crate::fault::{Cause, LineFault};
use limits::GREATEST_LANE;
use nfs_types::Mode;
use script_text::{
    byte, four_words, long_number, next_word, number, one_word, path, payload, target, three_words,
    two_words,
};
use std::alloc::Global;
use world_model::Path;
use xdr_codec::Blob;

/// The greatest slot.
const MOST_SLOT: u32 = 16;

/// The greatest offset and size of an operation, 2^62.
const MOST_OFFSET: u64 = 4_611_686_018_427_387_904;

/// The most bytes of a read.
const MOST_READ: u32 = 65_536;

/// The most bytes of a fill.
const MOST_FILL: u32 = 1_048_576;

/// The six rights of ACCESS (RFC 1813, section 3.3.4).
const ALL_RIGHTS: u32 = 63;

/// The first word and what follows it. This is the fault if there is none.
pub(crate) fn first<'a>(cause: Cause, line: &'a [u8]) -> Result<(&'a [u8], &'a [u8]), LineFault>
    ensures { Gives (λ p. (p.0.now, words p.1.now)) result (first_of cause (words line.entry.now)) }
{
    match next_word(line) {
        Some(first) => Ok(first),
        None => Err(LineFault::Refused(cause)),
    }
}

/// The first two words and what follows them.
pub(crate) fn first_two<'a>(line: &'a [u8]) -> Option<(&'a [u8], &'a [u8], &'a [u8])>
    ensures { IfSome result (λ p. words line.entry.now ≡ p.0.now ∷ p.1.now ∷ words p.2.now) }
{
    let (first_word, rest) = next_word(line)?;
    let (second_word, rest) = next_word(rest)?;
    Some((first_word, second_word, rest))
}

/// The word of a command that has one.
pub(crate) fn one<'a>(line: &'a [u8]) -> Result<&'a [u8], LineFault>
    ensures { Gives (λ w. w.now) result (wanted (one (words line.entry.now))) }
{
    match one_word(line) {
        Some(word) => Ok(word),
        None => Err(LineFault::Refused(Cause::Command)),
    }
}

/// The words of a command that has two.
pub(crate) fn two<'a>(line: &'a [u8]) -> Result<(&'a [u8], &'a [u8]), LineFault>
    ensures { Gives (λ w. (w.0.now, w.1.now)) result (wanted (two (words line.entry.now))) }
{
    match two_words(line) {
        Some(words) => Ok(words),
        None => Err(LineFault::Refused(Cause::Command)),
    }
}

/// The words of a command that has three.
pub(crate) fn three<'a>(line: &'a [u8]) -> Result<(&'a [u8], &'a [u8], &'a [u8]), LineFault>
    ensures { Gives (λ w. (w.0.now, w.1.now, w.2.now)) result (wanted (three (words line.entry.now))) }
{
    match three_words(line) {
        Some(words) => Ok(words),
        None => Err(LineFault::Refused(Cause::Command)),
    }
}

/// The words of a command that has four.
pub(crate) fn four<'a>(
    line: &'a [u8],
) -> Result<(&'a [u8], &'a [u8], &'a [u8], &'a [u8]), LineFault>
    ensures { Gives (λ w. (w.0.now, w.1.now, w.2.now, w.3.now)) result (wanted (four (words line.entry.now))) }
{
    match four_words(line) {
        Some(words) => Ok(words),
        None => Err(LineFault::Refused(Cause::Command)),
    }
}

/// A lane, 1 to 16.
pub(crate) fn lane(word: &[u8]) -> Result<u8, LineFault>
    ensures { Gives (λ n. n) result (lane_of word.now) }
{
    match number(word, 1, GREATEST_LANE) {
        Some(lane) => Ok(lane as u8),
        None => Err(LineFault::Refused(Cause::Lane)),
    }
}

/// A slot, 1 to 16.
pub(crate) fn slot(word: &[u8]) -> Result<u8, LineFault>
    ensures { Gives (λ n. n) result (slot_of word.now) }
{
    match number(word, 1, MOST_SLOT) {
        Some(slot) => Ok(slot as u8),
        None => Err(LineFault::Refused(Cause::Slot)),
    }
}

/// An offset or a size, up to 2^62.
pub(crate) fn offset(word: &[u8]) -> Result<u64, LineFault>
    ensures { Gives (λ n. n) result (offset_of word.now) }
{
    match long_number(word, 0, MOST_OFFSET) {
        Some(offset) => Ok(offset),
        None => Err(LineFault::Refused(Cause::Number)),
    }
}

/// How many bytes are read, up to 65,536.
pub(crate) fn read_count(word: &[u8]) -> Result<u32, LineFault>
    ensures { Gives (λ n. n) result (read_count_of word.now) }
{
    match number(word, 0, MOST_READ) {
        Some(count) => Ok(count),
        None => Err(LineFault::Refused(Cause::Number)),
    }
}

/// How many bytes are filled, 1 to 1,048,576.
pub(crate) fn fill_count(word: &[u8]) -> Result<u32, LineFault>
    ensures { Gives (λ n. n) result (fill_count_of word.now) }
{
    match number(word, 1, MOST_FILL) {
        Some(count) => Ok(count),
        None => Err(LineFault::Refused(Cause::Number)),
    }
}

/// Which rights are asked for, 1 to 63.
pub(crate) fn bits(word: &[u8]) -> Result<u32, LineFault>
    ensures { Gives (λ n. n) result (bits_of word.now) }
{
    match number(word, 1, ALL_RIGHTS) {
        Some(bits) => Ok(bits),
        None => Err(LineFault::Refused(Cause::Number)),
    }
}

/// How a file is opened.
pub(crate) fn mode(word: &[u8]) -> Result<Mode, LineFault>
    ensures { Gives (λ m. m) result (mode_of word.now) }
{
    if word == b"r".as_slice() {
        return Ok(Mode::R);
    }
    if word == b"w".as_slice() {
        return Ok(Mode::W);
    }
    if word == b"rw".as_slice() {
        return Ok(Mode::RW);
    }
    if word == b"c".as_slice() {
        return Ok(Mode::C);
    }
    if word == b"x".as_slice() {
        return Ok(Mode::X);
    }
    Err(LineFault::Refused(Cause::Command))
}

/// A path, the root too.
pub(crate) fn any_path(alloc: Global, word: &[u8]) -> Result<Path, LineFault>
    ensures { Gives (λ p. p) result (any_path_of word.now) }
{
    match path(alloc, word)? {
        Some(path) => Ok(path),
        None => Err(LineFault::Refused(Cause::Path)),
    }
}

/// A path other than the root.
pub(crate) fn named_path(alloc: Global, word: &[u8]) -> Result<Path, LineFault>
    ensures { Gives (λ p. p) result (named_path_of word.now) }
{
    let path = any_path(alloc, word)?;
    if path.names().is_empty() {
        return Err(LineFault::Refused(Cause::Path));
    }
    Ok(path)
}

/// What a symbolic link is to lead to.
pub(crate) fn link_target(alloc: Global, word: &[u8]) -> Result<Blob, LineFault>
    ensures { Gives (λ t. t) result (link_target_of word.now) }
{
    match target(alloc, word)? {
        Some(target) => Ok(target),
        None => Err(LineFault::Refused(Cause::Path)),
    }
}

/// 1 to 65,536 bytes in hex digits.
pub(crate) fn bytes(alloc: Global, word: &[u8]) -> Result<Blob, LineFault>
    ensures { Gives (λ b. b) result (bytes_of word.now) }
{
    match payload(alloc, word)? {
        Some(bytes) => Ok(bytes),
        None => Err(LineFault::Refused(Cause::Hex)),
    }
}

/// One byte in hex digits.
pub(crate) fn one_byte(word: &[u8]) -> Result<u8, LineFault>
    ensures { Gives (λ b. b) result (one_byte_of word.now) }
{
    match byte(word) {
        Some(byte) => Ok(byte),
        None => Err(LineFault::Refused(Cause::Hex)),
    }
}
