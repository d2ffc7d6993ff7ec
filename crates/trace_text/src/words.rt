//! The words of a line: bytes in hex, and what they spell.

ghost use Rattle.std.specs.Prelude.{◌≡◌, ◌≤◌, IfOk};
ghost use Rattle.hex.specs.Hex.{decode_of};
ghost use Rattle.script_text.specs.Lines.{words, one, two, three, four};
ghost use Rattle.script_text.specs.Numbers.{number_of};
ghost use Rattle.xdr_codec.specs.Whole.{whole_at};
ghost use Rattle.nfs_types.specs.Fields.{attr_at, verf_at};
ghost use Rattle.trace_text.specs.Words.{Gives, as_handle, as_name, attr_of, attr_or, bytes_of, decoded_or, first_of, handle_of, long_of, name_of, none_of, verf_of, verf_or};

use crate::fault::LineFault;
use hex::FromHexError;
use nfs_types::{Attr, Handle, Name, Verf, read_attr, read_verf};
use script_text::{four_words, long_number, next_word, number, one_word, three_words, two_words};
use std::alloc::Global;
use xdr_codec::{Reader, XdrFault};

/// The bytes of hex digits of either case, and none if the word is `-`.
pub(crate) fn bytes(alloc: Global, word: &[u8]) -> Result<Vec<u8>, LineFault>
    ensures { Gives (λ b. b.items) result (bytes_of word.now) }
{
    if word == b"-".as_slice() {
        return Ok(Vec::new(alloc));
    }
    from_hex(alloc, word)
}

/// The bytes of hex digits of either case.
fn from_hex(alloc: Global, word: &[u8]) -> Result<Vec<u8>, LineFault>
    ensures { Gives (λ b. b.items) result (decoded_or (decode_of word.now)) }
{
    match hex::decode(alloc, word) {
        Ok(bytes) => Ok(bytes),
        Err(FromHexError::OutOfMemory) => Err(LineFault::Memory),
        Err(_) => Err(LineFault::Form),
    }
}

/// A file handle, at most 64 bytes.
pub(crate) fn handle(alloc: Global, word: &[u8]) -> Result<Handle, LineFault>
    ensures { Gives (λ h. h) result (handle_of word.now) }
{
    let bytes = bytes(alloc, word)?;
    as_handle(bytes.as_slice())
}

fn as_handle(bytes: &[u8]) -> Result<Handle, LineFault>
    ensures { Gives (λ h. h) result (as_handle bytes.now) }
{
    match Handle::make(bytes) {
        Some(handle) => Ok(handle),
        None => Err(LineFault::Form),
    }
}

/// A name, 1 to 255 bytes without a slash or a zero.
pub(crate) fn name(alloc: Global, word: &[u8]) -> Result<Name, LineFault>
    ensures { Gives (λ n. n) result (name_of word.now) }
{
    let bytes = bytes(alloc, word)?;
    as_name(bytes.as_slice())
}

/// The name of these bytes.
pub(crate) fn as_name(bytes: &[u8]) -> Result<Name, LineFault>
    ensures { Gives (λ n. n) result (as_name bytes.now) }
{
    match Name::make(bytes) {
        Some(name) => Ok(name),
        None => Err(LineFault::Form),
    }
}

/// A write verifier, 8 bytes.
pub(crate) fn verf(alloc: Global, word: &[u8]) -> Result<Verf, LineFault>
    ensures { Gives (λ v. v) result (verf_of word.now) }
{
    let bytes = bytes(alloc, word)?;
    match whole_verf(bytes.as_slice()) {
        Ok(verf) => Ok(verf),
        Err(_) => Err(LineFault::Form),
    }
}

fn whole_verf(bytes: &[u8]) -> Result<Verf, XdrFault>
    ensures { result ≡ whole_at verf_at bytes.now }
{
    let mut at = Reader::new(bytes);
    let verf = read_verf(&mut at)?;
    at.end()?;
    Ok(verf)
}

/// The attributes of an object, 84 bytes (RFC 1813, section 2.5, fattr3).
pub(crate) fn attr(alloc: Global, word: &[u8]) -> Result<Attr, LineFault>
    ensures { Gives (λ a. a) result (attr_of word.now) }
{
    let bytes = bytes(alloc, word)?;
    match whole_attr(bytes.as_slice()) {
        Ok(attr) => Ok(attr),
        Err(_) => Err(LineFault::Form),
    }
}

fn whole_attr(bytes: &[u8]) -> Result<Attr, XdrFault>
    ensures { result ≡ whole_at attr_at bytes.now }
{
    let mut at = Reader::new(bytes);
    let attr = read_attr(&mut at)?;
    at.end()?;
    Ok(attr)
}

/// A number of 64 bits.
pub(crate) fn long(word: &[u8]) -> Result<u64, LineFault>
    ensures { Gives (λ n. n) result (long_of word.now) }
{
    match long_number(word, 0, u64::MAX) {
        Some(number) => Ok(number),
        None => Err(LineFault::Form),
    }
}

/// A number from `least` to `most`.
pub(crate) fn ranged(word: &[u8], least: u32, most: u32) -> Result<u32, LineFault>
    ensures value { Gives (λ n. n) result (number_of least most word.now) }
    ensures within { IfOk result (λ n. n ≤ most) }
{
    match number(word, least, most) {
        Some(number) => Ok(number),
        None => Err(LineFault::Form),
    }
}

/// The first word of a line, and what follows it.
pub(crate) fn first<'a>(line: &'a [u8]) -> Result<(&'a [u8], &'a [u8]), LineFault>
    ensures { Gives (λ p. (p.0.now, words p.1.now)) result (first_of (words line.entry.now)) }
{
    match next_word(line) {
        Some(words) => Ok(words),
        None => Err(LineFault::Form),
    }
}

/// No word is left.
pub(crate) fn none(line: &[u8]) -> Result<(), LineFault>
    ensures { Gives (λ u. u) result (none_of (words line.now)) }
{
    match next_word(line) {
        Some(_) => Err(LineFault::Form),
        None => Ok(()),
    }
}

/// The word of a line that has one.
pub(crate) fn one<'a>(line: &'a [u8]) -> Result<&'a [u8], LineFault>
    ensures { Gives (λ w. w.now) result (one (words line.entry.now)) }
{
    match one_word(line) {
        Some(word) => Ok(word),
        None => Err(LineFault::Form),
    }
}

/// The words of a line that has two.
pub(crate) fn two<'a>(line: &'a [u8]) -> Result<(&'a [u8], &'a [u8]), LineFault>
    ensures { Gives (λ w. (w.0.now, w.1.now)) result (two (words line.entry.now)) }
{
    match two_words(line) {
        Some(words) => Ok(words),
        None => Err(LineFault::Form),
    }
}

/// The words of a line that has three.
pub(crate) fn three<'a>(line: &'a [u8]) -> Result<(&'a [u8], &'a [u8], &'a [u8]), LineFault>
    ensures { Gives (λ w. (w.0.now, w.1.now, w.2.now)) result (three (words line.entry.now)) }
{
    match three_words(line) {
        Some(words) => Ok(words),
        None => Err(LineFault::Form),
    }
}

/// The words of a line that has four.
pub(crate) fn four<'a>(
    line: &'a [u8],
) -> Result<(&'a [u8], &'a [u8], &'a [u8], &'a [u8]), LineFault>
    ensures { Gives (λ w. (w.0.now, w.1.now, w.2.now, w.3.now)) result (four (words line.entry.now)) }
{
    match four_words(line) {
        Some(words) => Ok(words),
        None => Err(LineFault::Form),
    }
}
