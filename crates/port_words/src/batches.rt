//! The words of a session of batches.

ghost use Rattle.std.specs.Prelude.{◌≡◌, ◌++◌, IfOk, map, string_bytes};
ghost use Rattle.port_words.specs.Texts.{missing_calls, with_calls};

use crate::texts::{add, add_all, are_named};
use std::alloc::{AllocError, Global};
use xdr_codec::Memory;

/// The most calls that a session can make.
const CALLS: &str = "2147483647";

/// The words of a session of batches: with `--calls 2147483647` after the first word if none is or begins with `--calls`. A number
/// that is given stays.
pub fn batch_words(alloc: Global, words: &[String]) -> Result<Vec<String>, Memory>
    ensures { IfOk result (λ all. map string_bytes all.items ≡ with_calls (map string_bytes words.now)) }
{
    let mut all = Vec::new(alloc);
    if let Some((first, rest)) = words.split_first() {
        add(alloc, &mut all, first.as_str())?;
        add_calls(alloc, &mut all, words)?;
        add_all(alloc, &mut all, rest)?;
    }
    Ok(all)
}

/// Adds the most calls that there can be, if no word is or begins with the option.
fn add_calls(alloc: Global, all: &mut Vec<String>, words: &[String]) -> Result<(), AllocError>
    ensures { IfOk result (λ _. map string_bytes all.new.items ≡ map string_bytes all.old.items ++ missing_calls (map string_bytes words.now)) }
{
    if are_named(words, "--calls") {
        return Ok(());
    }
    add(alloc, all, "--calls")?;
    add(alloc, all, CALLS)
}
