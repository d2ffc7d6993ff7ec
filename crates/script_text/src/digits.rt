//! Hex digits as bytes, many at once.

ghost use Rattle.std.specs.Prelude.{◌≡◌, ◌+◌, ◌*◌, ◌≤◌, ◌<◌, length, map};
ghost use Rattle.std.specs.Simd.Lanes.{chunk, put_chunk, Each1};
ghost use Rattle.hex.specs.Hex.{hex_digit_value};
ghost use Rattle.script_text.specs.Digits.{digit_of, pairs_of, IsSeen, Tells};

use std::simd::prelude::*;

/// How many bytes the digits of a vector stand for.
pub(crate) const BLOCK: usize = 16;

/// How many bytes are read in a turn.
const GROUP: usize = 4 * BLOCK;

/// Reads two digits for each byte, by vectors. False exactly if one of them isn't a hex digit; then the bytes are
/// none in particular.
pub(crate) fn read(hex: &[u8], bytes: &mut [u8]) -> bool
    requires some { 16 ≤ length bytes.old }
    requires twice { length hex.now ≡ 2 * length bytes.old }
    ensures { Tells hex.now result bytes.new }
{
    let mut seen = u8x32::splat(0);
    let groups = bytes.len() / GROUP;
    for group in 0..groups {
        seen = read_group(hex, GROUP * group, bytes, seen);
    }
    read_rest(hex, 4 * groups, bytes, seen)
}

/// Reads the digits of the sixty-four bytes from a place on, and answers what was seen of all digits up to there.
#[inline(always)]
fn read_group(hex: &[u8], at: usize, bytes: &mut [u8], seen: u8x32) -> u8x32
    requires fits { at + 64 ≤ length bytes.old }
    requires twice { length hex.now ≡ 2 * length bytes.old }
    requires begun { IsSeen hex.now bytes.old seen at }
    ensures seen { IsSeen hex.now bytes.new result (at + 64) }
    ensures length { length bytes.new ≡ length bytes.old }
{
    let first = read_block(hex, at, bytes);
    let second = read_block(hex, at + 16, bytes);
    let third = read_block(hex, at + 32, bytes);
    let fourth = read_block(hex, at + 48, bytes);
    seen | first | second | third | fourth
}

/// Reads the digits from a block on, and tells whether all were digits. Those of the last sixteen bytes may be read twice.
fn read_rest(hex: &[u8], from: usize, bytes: &mut [u8], before: u8x32) -> bool
    requires some { 16 ≤ length bytes.old }
    requires twice { length hex.now ≡ 2 * length bytes.old }
    requires fits { 16 * from ≤ length bytes.old }
    requires begun { IsSeen hex.now bytes.old before (16 * from) }
    ensures { Tells hex.now result bytes.new }
{
    let mut seen = before;
    for block in from..bytes.len() / BLOCK {
        seen |= read_block(hex, BLOCK * block, bytes);
    }
    let last = bytes.len() - BLOCK;
    seen |= read_block(hex, last, bytes);
    seen.reduce_or() < 16
}

/// Reads the digits of the sixteen bytes from a place on, and answers their values. If each of them is a digit, the bytes are theirs.
#[inline(always)]
fn read_block(hex: &[u8], at: usize, bytes: &mut [u8]) -> u8x32
    requires fits { at + 16 ≤ length bytes.old }
    requires twice { length hex.now ≡ 2 * length bytes.old }
    ensures values { map digit_of result ≡ map hex_digit_value (chunk (2 * at) 32 hex.now) }
    ensures bytes { Each1 (λ value. value < 16) result → bytes.new ≡ put_chunk at bytes.old (pairs_of result) }
    ensures length { length bytes.new ≡ length bytes.old }
{
    let values = values_at(hex, 2 * at);
    joined(values).copy_to_slice(&mut bytes[at..]);
    values
}

/// The values of thirty-two digits from a place on, and 16 or more for each that is none.
#[inline(always)]
fn values_at(hex: &[u8], at: usize) -> u8x32
    requires { at + 32 ≤ length hex.now }
    ensures { map digit_of result ≡ map hex_digit_value (chunk at 32 hex.now) }
{
    let digits = u8x32::from_slice(&hex[at..]);
    let numeral = (digits + u8x32::splat(198)).simd_max(u8x32::splat(6)) - u8x32::splat(246);
    let letter = ((digits - u8x32::splat(1)) | u8x32::splat(32)) - u8x32::splat(86);
    numeral.simd_min(letter)
}

/// The bytes of pairs of values below sixteen, the first of each before the last.
#[inline(always)]
fn joined(values: u8x32) -> u8x16
    requires { length values ≡ 32 }
    ensures { Each1 (λ value. value < 16) values → result ≡ pairs_of values }
{
    ((u16x16::from_le_bytes(values) * u16x16::splat(4097)) >> u16x16::splat(8)).cast::<u8>()
}
