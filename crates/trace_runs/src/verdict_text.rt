//! What is written of a verdict.

ghost use Rattle.std.specs.Prelude.{◌≡◌, ◌++◌, IfOk, OnOk};
ghost use Rattle.trace_runs.specs.Verdicts.{broken_bytes, number_end, refusal_bytes, rule_word, verdict_bytes};

use itoa::Buffer;
use std::alloc::Global;
use trace_check::Verdict;
use xdr_codec::{Blob, Memory, Writer};

/// `yes`, or `no`, the rule that is broken and how many entries break it.
pub(crate) fn verdict_text(alloc: Global, verdict: Verdict) -> Result<Blob, Memory>
    ensures { IfOk result (λ text. text ≡ verdict_bytes verdict) }
{
    match verdict {
        Verdict::Yes => Blob::copy(alloc, b"yes\n"),
        Verdict::No { rule, entries } => broken_text(alloc, rule, entries),
    }
}

/// `no`, the rule that is broken and how many entries break it.
fn broken_text(alloc: Global, rule: u8, entries: u32) -> Result<Blob, Memory>
    ensures { IfOk result (λ text. text ≡ broken_bytes rule entries) }
{
    let mut out = Writer::new(alloc);
    out.raw(b"no ")?;
    out.raw(rule_word(rule))?;
    write_number(&mut out, entries)?;
    Ok(out.finish())
}

/// `trace` and the number of the line that is refused.
pub(crate) fn refusal_text(alloc: Global, line: u32) -> Result<Blob, Memory>
    ensures { IfOk result (λ text. text ≡ refusal_bytes line) }
{
    let mut out = Writer::new(alloc);
    out.raw(b"trace")?;
    write_number(&mut out, line)?;
    Ok(out.finish())
}

/// A number after a space, and a line feed.
fn write_number(out: &mut Writer, number: u32) -> Result<(), Memory>
    ensures { OnOk result (out.new ≡ out.old ++ number_end number) }
{
    let mut buffer = Buffer::new();
    out.raw(b" ")?;
    out.raw(buffer.format(number).as_bytes())?;
    out.raw(b"\n")
}

/// The word of a rule.
fn rule_word(rule: u8) -> &'static [u8]
    ensures { result.now ≡ rule_word rule }
{
    match rule {
        1 => b"lawful",
        2 => b"once",
        3 => b"fresh",
        4 => b"settled",
        5 => b"read",
        _ => b"short",
    }
}
