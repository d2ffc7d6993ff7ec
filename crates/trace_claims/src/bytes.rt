//! The bytes that operations write, place by place.

ghost use Rattle.std.specs.Prelude.{◌≡◌};
ghost use Rattle.trace_claims.specs.Bytes.{byte_of, byte_of_op, byte_from, filled, cut, same_byte, shows};

use crate::operations::Operation;
use world_model::{Entry, Op};

/// The byte that an operation leaves at a place: what a write, fill or put has there, and a zero past the size of a truncate.
#[tactic(auto, unfolding(crate::specs::Bytes::byte_of))]
pub(crate) fn byte_of(entries: &[Entry], began: usize, place: u128) -> Option<u8>
    ensures { result ≡ byte_of entries.now began place }
{
    match entries.get(began) {
        Some(Entry::Began { op, .. }) => byte_of_op(op, place),
        _ => None,
    }
}

fn byte_of_op(op: &Op, place: u128) -> Option<u8>
    ensures { result ≡ byte_of_op op.now place }
{
    match op {
        Op::Write { offset, bytes, .. } => byte_from(bytes.bytes(), u128::from(*offset), place),
        Op::Put { offset, bytes, .. } => byte_from(bytes.bytes(), u128::from(*offset), place),
        Op::Fill {
            offset,
            count,
            byte,
            ..
        } => filled(*offset, *count, *byte, place),
        Op::Truncate { size, .. } => cut(u128::from(*size), place),
        _ => None,
    }
}

/// The byte at a place of bytes that begin at an offset.
#[tactic(auto, unfolding(crate::specs::Bytes::byte_from))]
pub(crate) fn byte_from(bytes: &[u8], offset: u128, place: u128) -> Option<u8>
    ensures { result ≡ byte_from bytes.now offset place }
{
    if place < offset || place - offset >= bytes.len() as u128 {
        return None;
    }
    Some(bytes[(place - offset) as usize])
}

/// The byte at a place of so many equal ones.
fn filled(offset: u64, count: u32, byte: u8, place: u128) -> Option<u8>
    ensures { result ≡ filled offset count byte place }
{
    let first = u128::from(offset);
    if first <= place && place < first + u128::from(count) {
        Some(byte)
    } else {
        None
    }
}

/// A zero from a size on.
fn cut(size: u128, place: u128) -> Option<u8>
    ensures { result ≡ cut size place }
{
    if size <= place { Some(0) } else { None }
}

/// Whether both are there and the same.
pub(crate) fn same_byte(a: Option<u8>, b: Option<u8>) -> bool
    ensures { result ≡ same_byte a b }
{
    match a {
        Some(a) => match b {
            Some(b) => a == b,
            None => false,
        },
        None => false,
    }
}

/// Whether two lists of bytes that begin at an offset both have at a place the byte that the operation which began there leaves.
pub(crate) fn shows(
    entries: &[Entry],
    began: usize,
    now: &[u8],
    stable: &[u8],
    offset: u128,
    place: u128,
) -> bool
    ensures { result ≡ shows entries.now began now.now stable.now offset place }
{
    let byte = byte_of(entries, began, place);
    same_byte(byte_from(now, offset, place), byte)
        && same_byte(byte_from(stable, offset, place), byte)
}
