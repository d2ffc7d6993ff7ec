//! The words of a session over UDP.

ghost use Rattle.std.specs.Prelude.{◌≡◌, ◌++◌, IfOk, map, string_bytes};
ghost use Rattle.port_words.specs.Texts.{missing_size, with_sizes};

use crate::texts::{add, add_all, are_named};
use std::alloc::{AllocError, Global};
use xdr_codec::Memory;

/// The most bytes of a READ or a WRITE if the words give none: a record with them fits in a datagram.
const SIZE: &str = "8192";

/// The words of a session over UDP: with `--rsize 8192` after the first word if none is or begins with `--rsize`, and
/// with `--wsize 8192` likewise. A greater size that is given stays.
pub fn udp_words(alloc: Global, words: &[String]) -> Result<Vec<String>, Memory>
    ensures { IfOk result (λ all. map string_bytes all.items ≡ with_sizes (map string_bytes words.now)) }
{
    let mut all = Vec::new(alloc);
    if let Some((first, rest)) = words.split_first() {
        add(alloc, &mut all, first.as_str())?;
        add_size(alloc, &mut all, words, "--rsize")?;
        add_size(alloc, &mut all, words, "--wsize")?;
        add_all(alloc, &mut all, rest)?;
    }
    Ok(all)
}

/// Adds an option with its size, if no word is or begins with the option.
fn add_size(
    alloc: Global,
    all: &mut Vec<String>,
    words: &[String],
    option: &str,
) -> Result<(), AllocError>
    ensures { IfOk result (λ _. map string_bytes all.new.items ≡ map string_bytes all.old.items ++ missing_size option.now (map string_bytes words.now)) }
{
    if are_named(words, option) {
        return Ok(());
    }
    add(alloc, all, option)?;
    add(alloc, all, SIZE)
}
