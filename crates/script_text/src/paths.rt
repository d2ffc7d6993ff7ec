//! Paths, and the texts of links.

ghost use Rattle.std.specs.Prelude.{◌≡◌, ◌<◌, [], ◌∷◌, length, position, IfOk, IfSome, MatchOption, true, false};
ghost use Rattle.std.specs.Option.{option_map, option_map_or};
ghost use Rattle.std.specs.List.{slice_split};
ghost use Rattle.hex.specs.Hex.{hex_digit_value};
ghost use Rattle.script_text.specs.Paths.{escaped, decoded, first_escaped, first_decoded, is_slash, is_path_name, name_of, names_between, path_of, is_target, target_of};

use nfs_types::Name;
use std::alloc::Global;
use world_model::Path;
use xdr_codec::{Blob, Memory};

/// The most bytes of a path, and of what a link leads to.
const MOST_BYTES: usize = 1024;

/// The path that a word stands for. None exactly if it isn't `/` alone or `/` and names parted by single slashes,
/// with 1,024 bytes at most after decoding; a name is a file name other than `.` and `..`.
pub fn path(alloc: Global, text: &[u8]) -> Result<Option<Path>, Memory>
    ensures { IfOk result (λ path. path ≡ path_of text.now) }
{
    let Some((slash, rest)) = text.split_first() else {
        return Ok(None);
    };
    if *slash != b'/' {
        return Ok(None);
    }
    if rest.is_empty() {
        return Ok(Some(Path::of(Vec::new(alloc))));
    }
    match names_between(alloc, rest)? {
        Some(names) => Ok(Some(Path::of(names))),
        None => Ok(None),
    }
}

/// The names between single slashes.
fn names_between(alloc: Global, text: &[u8]) -> Result<Option<Vec<Name>>, Memory>
    ensures { IfOk result (λ names. option_map (λ n. n.items) names ≡ names_between text.now) }
{
    let mut names = Vec::new(alloc);
    let mut bytes = 0;
    let mut rest = Some(text);
    while let Some(pieces) = rest {
        let (piece, after) = first_piece(pieces);
        let Some(name) = name(alloc, piece)? else {
            return Ok(None);
        };
        bytes += name.bytes().len() + 1;
        if bytes > MOST_BYTES {
            return Ok(None);
        }
        names.push(name)?;
        rest = after;
    }
    Ok(Some(names))
}

/// What stands before the first slash, and what stands after it, if there is one.
fn first_piece<'a>(text: &'a [u8]) -> (&'a [u8], Option<&'a [u8]>)
    ensures first { slice_split is_slash text.entry.now ≡ result.0.now ∷ option_map_or (λ rest. slice_split is_slash rest.now) result.1 [] }
    ensures shorter { IfSome result.1 (λ rest. length rest.now < length text.entry.now) }
{
    match slash(text) {
        None => (text, None),
        Some(at) => (&text[..at], Some(&text[at + 1..])),
    }
}

/// The place of the first slash.
fn slash(text: &[u8]) -> Option<usize>
    ensures { result ≡ position is_slash text.now }
{
    text.iter().position(|b| *b == b'/')
}

/// The name that a piece of a path stands for.
fn name(alloc: Global, piece: &[u8]) -> Result<Option<Name>, Memory>
    ensures { IfOk result (λ name. name ≡ name_of piece.now) }
{
    let Some(bytes) = decoded(alloc, piece)? else {
        return Ok(None);
    };
    Ok(path_name(bytes.as_slice()))
}

/// A name other than `.` and `..`.
fn path_name(bytes: &[u8]) -> Option<Name>
    ensures { MatchOption result (is_path_name bytes.now ≡ false) (λ name. (is_path_name bytes.now ≡ true) × (name ≡ bytes.now)) }
{
    if bytes == b".".as_slice() || bytes == b"..".as_slice() {
        return None;
    }
    Name::make(bytes)
}

/// What a link is to lead to. None exactly if the word doesn't stand for 1 to 1,024 bytes without a zero byte.
pub fn target(alloc: Global, text: &[u8]) -> Result<Option<Blob>, Memory>
    ensures { IfOk result (λ target. target ≡ target_of text.now) }
{
    let Some(bytes) = decoded(alloc, text)? else {
        return Ok(None);
    };
    if is_target(bytes.as_slice()) {
        Ok(Some(Blob::of(bytes)))
    } else {
        Ok(None)
    }
}

fn is_target(bytes: &[u8]) -> bool
    ensures { result ≡ is_target bytes.now }
{
    !bytes.is_empty() && bytes.len() <= MOST_BYTES && !bytes.contains(&0)
}

/// The bytes of a text in which `%` and two hex digits stand for one. None exactly if a `%` isn't followed by two hex
/// digits.
pub fn decoded(alloc: Global, text: &[u8]) -> Result<Option<Vec<u8>>, Memory>
    ensures { IfOk result (λ bytes. option_map (λ b. b.items) bytes ≡ decoded text.now) }
{
    let mut bytes = Vec::new(alloc);
    let mut rest = text;
    while !rest.is_empty() {
        let Some((byte, after)) = first_byte(rest) else {
            return Ok(None);
        };
        bytes.push(byte)?;
        rest = after;
    }
    Ok(Some(bytes))
}

/// The byte that the front of a text stands for, and what follows it.
fn first_byte<'a>(text: &'a [u8]) -> Option<(u8, &'a [u8])>
    ensures { option_map (λ p. (p.0, p.1.now)) result ≡ first_decoded text.entry.now }
{
    let (first, rest) = text.split_first()?;
    if *first == b'%' {
        first_escape(rest)
    } else {
        Some((*first, rest))
    }
}

/// The byte that two hex digits stand for at the front of a text, and what follows them.
fn first_escape<'a>(text: &'a [u8]) -> Option<(u8, &'a [u8])>
    ensures { option_map (λ p. (p.0, p.1.now)) result ≡ first_escaped text.entry.now }
{
    let (high, rest) = text.split_first()?;
    let (low, rest) = rest.split_first()?;
    Some((escaped(*high, *low)?, rest))
}

/// The byte of two hex digits.
fn escaped(high: u8, low: u8) -> Option<u8>
    ensures { result ≡ escaped high low }
{
    let high = digit(high)?;
    let low = digit(low)?;
    Some(high * 16 + low)
}

/// The value of a hex digit of either case.
fn digit(b: u8) -> Option<u8>
    ensures { result ≡ hex_digit_value b }
{
    match b {
        b'A'..=b'F' => Some(b - b'A' + 10),
        b'a'..=b'f' => Some(b - b'a' + 10),
        b'0'..=b'9' => Some(b - b'0'),
        _ => None,
    }
}
