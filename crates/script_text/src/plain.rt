//! The front of a text that is ASCII without a line feed, many bytes at once.

ghost use Rattle.std.specs.Prelude.{◌≡◌, ◌+◌, ◌≤◌, length, map, take, IsTrue};
ghost use Rattle.std.specs.Simd.Lanes.{chunk, Each1};
ghost use Rattle.script_text.specs.Plain.{IsHigh, IsPlain, mark};

use std::simd::prelude::*;

/// How many bytes are looked at together.
const BLOCK: usize = 256;

/// How many bytes at the front of a text are ASCII and no line feed, as far as whole blocks tell.
pub(crate) fn plain_front(text: &[u8]) -> usize
    ensures within { result ≤ length text.now }
    ensures plain { Each1 IsPlain (take result text.now) }
{
    for block in 0..text.len() / BLOCK {
        if !is_plain(text, BLOCK * block) {
            return BLOCK * block;
        }
    }
    text.len() / BLOCK * BLOCK
}

/// Whether the bytes of a block are ASCII and no line feeds.
#[inline(always)]
fn is_plain(text: &[u8], at: usize) -> bool
    requires { at + 256 ≤ length text.now }
    ensures { IsTrue result → Each1 IsPlain (chunk at 256 text.now) }
{
    all_high(least(lowest(text, at), lowest(text, at + 128)))
}

/// The least marks of the bytes of half a block.
#[inline(always)]
fn lowest(text: &[u8], at: usize) -> u8x32
    requires { at + 128 ≤ length text.now }
    ensures plain { Each1 IsHigh result → Each1 IsPlain (chunk at 128 text.now) }
    ensures many { length result ≡ 32 }
{
    let front = least(marked(text, at), marked(text, at + 32));
    let back = least(marked(text, at + 64), marked(text, at + 96));
    least(front, back)
}

/// Thirty-two bytes from a place on, each as a number above 128 exactly if it is ASCII and no line feed.
#[inline(always)]
fn marked(text: &[u8], at: usize) -> u8x32
    requires { at + 32 ≤ length text.now }
    ensures is { result ≡ map mark (chunk at 32 text.now) }
    ensures many { length result ≡ 32 }
{
    u8x32::from_slice(&text[at..]) ^ u8x32::splat(138)
}

/// The least of both, lane by lane.
#[inline(always)]
fn least(a: u8x32, b: u8x32) -> u8x32
    requires a { length a ≡ 32 }
    requires b { length b ≡ 32 }
    ensures high { Each1 IsHigh result → Each1 IsHigh a × Each1 IsHigh b }
    ensures many { length result ≡ 32 }
{
    a.simd_min(b)
}

/// Whether each lane is above 128.
#[inline(always)]
fn all_high(lanes: u8x32) -> bool
    requires { length lanes ≡ 32 }
    ensures { IsTrue result → Each1 IsHigh lanes }
{
    !lanes.simd_lt(u8x32::splat(129)).any()
}
