//! Bytes in hex digits.

ghost use Rattle.std.specs.Prelude.{◌≡◌, ◌≤◌, length, IfOk};
ghost use Rattle.script_text.specs.Payloads.{payload_of, contents_of, byte_of};

use crate::digits::{BLOCK, read};
use hex::FromHexError;
use std::alloc::Global;
use xdr_codec::{Blob, Memory};

/// The most bytes of a payload.
const MOST_BYTES: usize = 65_536;

/// The 1 to 65,536 bytes that hex digits of either case stand for. None exactly if the word stands for none.
pub fn payload(alloc: Global, hex: &[u8]) -> Result<Option<Blob>, Memory>
    ensures { IfOk result (λ bytes. bytes ≡ payload_of hex.now) }
{
    if hex.is_empty() || hex.len() > 2 * MOST_BYTES {
        return Ok(None);
    }
    let few = hex.len() < 2 * BLOCK;
    if few {
        return short_payload(alloc, hex);
    }
    long_payload(alloc, hex)
}

/// The same of few digits.
fn short_payload(alloc: Global, hex: &[u8]) -> Result<Option<Blob>, Memory>
    requires some { 1 ≤ length hex.now }
    requires most { length hex.now ≤ 131072 }
    ensures { IfOk result (λ bytes. bytes ≡ payload_of hex.now) }
{
    match hex::decode(alloc, hex) {
        Ok(bytes) => Ok(Some(Blob::shared(alloc, bytes)?)),
        Err(FromHexError::OutOfMemory) => Err(Memory),
        Err(_) => Ok(None),
    }
}

/// The same of many digits, by vectors.
#[tactic(auto, using(crate::proofs::Hexed::odd_payload, crate::proofs::Hexed::untold_payload))]
fn long_payload(alloc: Global, hex: &[u8]) -> Result<Option<Blob>, Memory>
    requires some { 32 ≤ length hex.now }
    requires most { length hex.now ≤ 131072 }
    ensures { IfOk result (λ bytes. bytes ≡ payload_of hex.now) }
{
    if hex.len() % 2 == 1 {
        return Ok(None);
    }
    let mut bytes = vec![in alloc; 0u8; hex.len() / 2]?;
    let told = read(hex, bytes.as_mut_slice());
    if !told {
        return Ok(None);
    }
    Ok(Some(Blob::shared(alloc, bytes)?))
}

/// What a file holds: a payload, or no bytes if the word is `-`. None exactly if it is neither.
pub fn contents(alloc: Global, hex: &[u8]) -> Result<Option<Blob>, Memory>
    ensures { IfOk result (λ bytes. bytes ≡ contents_of hex.now) }
{
    if hex == b"-".as_slice() {
        return Ok(Some(Blob::of(Vec::new(alloc))));
    }
    payload(alloc, hex)
}

/// The byte that two hex digits stand for. None exactly if the word isn't two hex digits.
pub fn byte(hex: &[u8]) -> Option<u8>
    ensures { result ≡ byte_of hex.now }
{
    let mut byte = [0];
    match hex::decode_to_slice(hex, &mut byte) {
        Ok(()) => Some(byte[0]),
        Err(_) => None,
    }
}
