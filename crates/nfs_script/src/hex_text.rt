//! Writes bytes as hex digits.

ghost use Rattle.std.specs.Prelude.{◌≡◌, ◌++◌, ◌*◌, ◌+◌, ◌/◌, ◌%◌, ◌≤◌, ◌∷◌, [], length, replicate, take, OnOk, OnErr};
ghost use Rattle.std.specs.List.{flat_map};
ghost use Rattle.hex.specs.Hex.{encode_lower};
ghost use Rattle.xdr_codec.specs.Spelling.{BeginsWith};
ghost use Rattle.world_model.specs.Transcript.{spaced};

use std::simd::prelude::*;
use xdr_codec::{Memory, Writer};

/// How many bytes are written at a time.
const PIECE: usize = 1024;

/// How many bytes make two vectors.
const BLOCK: usize = 16;

/// How many bytes are written in a turn.
const GROUP: usize = 4 * BLOCK;

/// The digits, each at its number.
const DIGITS: [u8; 16] = *b"0123456789abcdef";

/// Appends the lower-case hex digits of bytes after a space, and nothing if there are no bytes.
#[tactic(auto, using(xdr_codec::proofs::Begins::begins_then, std::proofs::Common::append_assoc, crate::proofs::Hexed::spaced_hex, crate::proofs::Hexed::hex_none))]
pub(crate) fn write_bytes(out: &mut Writer, bytes: &[u8]) -> Result<(), Memory>
    ensures ok { OnOk result (out.new ≡ out.old ++ spaced (encode_lower bytes.now)) }
    ensures err { OnErr result (BeginsWith out.old out.new) }
{
    if bytes.is_empty() {
        return Ok(());
    }
    out.raw(b" ")?;
    write_hex(out, bytes)?;
    Ok(())
}

/// Appends the lower-case hex digits of bytes.
#[tactic(auto, using(xdr_codec::proofs::Begins::begins_then, crate::proofs::Hexed::hex_step, crate::proofs::Hexed::hex_end))]
fn write_hex(out: &mut Writer, bytes: &[u8]) -> Result<(), Memory>
    ensures ok { OnOk result (out.new ≡ out.old ++ encode_lower bytes.now) }
    ensures err { OnErr result (BeginsWith out.old out.new) }
{
    let mut room = [0u8; 2 * PIECE];
    let mut left = bytes;
    while !left.is_empty() {
        let (piece, rest) = left.split_at(left.len().min(PIECE));
        write_through(out, piece, &mut room)?;
        left = rest;
    }
    Ok(())
}

/// Appends the lower-case hex digits of a few bytes by way of a buffer that has room for them.
fn write_through(out: &mut Writer, piece: &[u8], room: &mut [u8]) -> Result<(), Memory>
    requires { 2 * length piece.now ≤ length room.old }
    ensures ok { OnOk result (out.new ≡ out.old ++ encode_lower piece.now) }
    ensures err { OnErr result (out.new ≡ out.old) }
{
    let digits = &mut room[..2 * piece.len()];
    encode(piece, digits);
    out.raw(digits)
}

/// Appends the lower-case hex digits of one byte.
pub(crate) fn write_pair(out: &mut Writer, byte: u8) -> Result<(), Memory>
    ensures ok { OnOk result (out.new ≡ out.old ++ encode_lower (byte ∷ [])) }
    ensures err { OnErr result (out.new ≡ out.old) }
{
    write_through(out, &[byte], &mut [0; 2])
}

/// Writes the lower-case hex digits of bytes into room for just these: by vectors, and of what is left byte by byte.
pub(crate) fn encode(bytes: &[u8], digits: &mut [u8])
    requires { length digits.old ≡ 2 * length bytes.now }
    ensures { digits.new ≡ encode_lower bytes.now }
{
    let factors = digit_factors();
    let groups = bytes.len() / GROUP;
    for group in 0..groups {
        encode_group(bytes, GROUP * group, digits, factors);
    }
    encode_blocks(bytes, 4 * groups, digits, factors);
}

/// Writes the digits of the sixty-four bytes from a place on.
#[inline(always)]
fn encode_group(bytes: &[u8], at: usize, digits: &mut [u8], factors: u16x8)
    requires fits { at + 64 ≤ length bytes.now }
    requires room { length digits.old ≡ 2 * length bytes.now }
    requires begun { take (2 * at) digits.old ≡ encode_lower (take at bytes.now) }
    requires factors { factors ≡ replicate 8 4097 }
    ensures { take (2 * (at + 64)) digits.new ≡ encode_lower (take (at + 64) bytes.now) }
{
    encode_block(bytes, at, digits, factors);
    encode_block(bytes, at + 16, digits, factors);
    encode_block(bytes, at + 32, digits, factors);
    encode_block(bytes, at + 48, digits, factors);
}

/// Writes the digits of the bytes behind so many blocks.
fn encode_blocks(bytes: &[u8], done: usize, digits: &mut [u8], factors: u16x8)
    requires fits { 16 * done ≤ length bytes.now }
    requires room { length digits.old ≡ 2 * length bytes.now }
    requires begun { take (2 * (16 * done)) digits.old ≡ encode_lower (take (16 * done) bytes.now) }
    requires factors { factors ≡ replicate 8 4097 }
    ensures { digits.new ≡ encode_lower bytes.now }
{
    let blocks = bytes.len() / BLOCK;
    for block in done..blocks {
        encode_block(bytes, BLOCK * block, digits, factors);
    }
    encode_rest(bytes, BLOCK * blocks, digits);
}

/// Writes the digits of the sixteen bytes from a place on.
#[inline(always)]
fn encode_block(bytes: &[u8], at: usize, digits: &mut [u8], factors: u16x8)
    requires fits { at + 16 ≤ length bytes.now }
    requires room { length digits.old ≡ 2 * length bytes.now }
    requires begun { take (2 * at) digits.old ≡ encode_lower (take at bytes.now) }
    requires factors { factors ≡ replicate 8 4097 }
    ensures { take (2 * (at + 16)) digits.new ≡ encode_lower (take (at + 16) bytes.now) }
{
    encode_half(bytes, at, digits, factors);
    encode_half(bytes, at + 8, digits, factors);
}

/// Writes the digits of the eight bytes from a place on.
#[inline(always)]
fn encode_half(bytes: &[u8], at: usize, digits: &mut [u8], factors: u16x8)
    requires fits { at + 8 ≤ length bytes.now }
    requires room { length digits.old ≡ 2 * length bytes.now }
    requires begun { take (2 * at) digits.old ≡ encode_lower (take at bytes.now) }
    requires factors { factors ≡ replicate 8 4097 }
    ensures { take (2 * (at + 8)) digits.new ≡ encode_lower (take (at + 8) bytes.now) }
{
    let block = u8x8::from_slice(&bytes[at..]);
    digits_of(block, factors).copy_to_slice(&mut digits[2 * at..]);
}

/// Writes the digits of the bytes from a place on.
fn encode_rest(bytes: &[u8], from: usize, digits: &mut [u8])
    requires fits { from ≤ length bytes.now }
    requires room { length digits.old ≡ 2 * length bytes.now }
    requires begun { take (2 * from) digits.old ≡ encode_lower (take from bytes.now) }
    ensures { digits.new ≡ encode_lower bytes.now }
{
    for at in from..bytes.len() {
        let byte = bytes[at];
        digits[2 * at] = DIGITS[usize::from(byte / 16)];
        digits[2 * at + 1] = DIGITS[usize::from(byte % 16)];
    }
}

/// The digits of eight bytes, the first of each before the last.
#[inline(always)]
fn digits_of(bytes: u8x8, factors: u16x8) -> u8x16
    requires { factors ≡ replicate 8 4097 }
    ensures { result ≡ encode_lower bytes }
{
    let numbers = digit_numbers(bytes, factors);
    u8x16::from_array(DIGITS).swizzle_dyn(numbers)
}

/// The numbers of the digits of eight bytes. A byte times 4,097, in sixteen bits, has the last digit's number in its highest four
/// bits, and the byte in its lowest eight.
#[inline(always)]
fn digit_numbers(bytes: u8x8, factors: u16x8) -> u8x16
    requires { factors ≡ replicate 8 4097 }
    ensures { result ≡ flat_map (λ byte. (byte / 16) ∷ (byte % 16) ∷ []) bytes }
{
    let lanes = bytes.cast::<u16>();
    ((lanes * factors) >> u16x8::splat(4)).to_le_bytes()
}

/// What the bytes are multiplied by. It comes out of line: a multiplication by what LLVM knows would be made three instructions
/// in place of one.
#[inline(never)]
fn digit_factors() -> u16x8
    ensures { result ≡ replicate 8 4097 }
{
    u16x8::splat(4097)
}
