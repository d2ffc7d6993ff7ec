//! The top call.

ghost use Rattle.std.specs.Prelude.{◌≡◌, ◌≤◌, ◌⊎◌, ℕ, List, Option, IfOk, length};
ghost use Rattle.outside.specs.Causes.{Rose};
ghost use Rattle.script_runs.specs.Run.{Says};
ghost use Rattle.trace_runs.specs.Verdicts.{EndsSo, IsTold, IsVerdictOf, Tells, refusal_bytes, status_of, verdict_bytes};

use crate::verdict_text::{refusal_text, verdict_text};
use outside::{LinkFault, Sink, Source};
use script_runs::{ReadFault, read_script, write_all};
use std::alloc::Global;
use trace_check::{Verdict, check};
use trace_data::Trace;
use trace_text::{TraceFault, read};
use xdr_codec::{Blob, Memory};

/// It keeps each rule.
const KEEPS: u8 = 0;

/// It breaks a rule.
const BREAKS: u8 = 1;

/// The source failed.
const READ_FAULT: u8 = 4;

/// The sink failed.
const WRITE_FAULT: u8 = 5;

/// Out of memory.
const NO_MEMORY: u8 = 7;

/// The text is refused.
const REFUSED: u8 = 9;

/// What is said, and the status with it.
#[derive(Drop)]
struct Said {
    text: Blob,
    status: u8,
}

/// Reads a trace to the source's end, or 1,048,577 bytes of it, and writes the verdict and a line feed: `yes` with status 0,
/// or with status 1 `no`, the first rule that is broken and the fewest entries that break one. At 9 the text is no trace,
/// and `trace` with the first faulty line is written, 0 for a text that is too long; at 4 the source failed, at 5 the sink;
/// 7 is for lack of memory.
pub fn run_check<S: Source, K: Sink>(alloc: Global, trace: &mut S, out: &mut K) -> u8
    ensures source { result ≡ 4 → Rose (S.faults trace.old) (S.faults trace.new) }
    ensures sink { result ≡ 5 → Rose (K.faults out.old) (K.faults out.new) }
    ensures says { Says (K.written out.old) (K.written out.new) (EndsSo (S.left trace.old) result) }
{
    let text = match read_script(alloc, trace) {
        Ok(text) => text,
        Err(ReadFault::Failed) => return READ_FAULT,
        Err(ReadFault::Memory) => return NO_MEMORY,
    };
    let Ok(said) = judge(alloc, text.as_slice()) else {
        return NO_MEMORY;
    };
    write_said(out, &said)
}

/// Writes what is said, and gives its status; 5 if the sink fails, 7 for lack of memory.
fn write_said<K: Sink>(out: &mut K, said: &Said) -> u8
    ensures sink { result ≡ 5 → (said.now.status ≡ 5) ⊎ Rose (K.faults out.old) (K.faults out.new) }
    ensures read { result ≡ 4 → said.now.status ≡ 4 }
    ensures says { (left : Option (List ℕ)) → Tells left said.now.status said.now.text → Says (K.written out.old) (K.written out.new) (EndsSo left result) }
{
    match write_all(out, said.text.bytes()) {
        Ok(()) => said.status,
        Err(LinkFault::Failed) => WRITE_FAULT,
        Err(LinkFault::Memory) => NO_MEMORY,
    }
}

/// What is said of a text.
fn judge(alloc: Global, text: &[u8]) -> Result<Said, Memory>
    ensures { IfOk result (λ said. IsTold text.now said.status said.text) }
{
    match read(alloc, text) {
        Ok(trace) => judged(alloc, &trace),
        Err(TraceFault::Line(line)) => refused(alloc, line),
        Err(TraceFault::Memory) => Err(Memory),
    }
}

/// The verdict on a history, and its status.
fn judged(alloc: Global, trace: &Trace) -> Result<Said, Memory>
    requires { length trace.now.entries.items ≤ 4096 }
    ensures { IfOk result (λ said. IsVerdictOf trace.now said.status said.text) }
{
    told(alloc, check(alloc, trace)?)
}

/// A verdict and its status.
fn told(alloc: Global, verdict: Verdict) -> Result<Said, Memory>
    ensures { IfOk result (λ said. (said.status ≡ status_of verdict) × (said.text ≡ verdict_bytes verdict)) }
{
    let text = verdict_text(alloc, verdict)?;
    Ok(Said {
        text,
        status: status_of(verdict),
    })
}

/// The status of a verdict.
fn status_of(verdict: Verdict) -> u8
    ensures { result ≡ status_of verdict }
{
    match verdict {
        Verdict::Yes => KEEPS,
        Verdict::No { .. } => BREAKS,
    }
}

/// That a line is of no trace, and the status with it.
fn refused(alloc: Global, line: u32) -> Result<Said, Memory>
    ensures { IfOk result (λ said. (said.status ≡ 9) × (said.text ≡ refusal_bytes line)) }
{
    Ok(Said {
        text: refusal_text(alloc, line)?,
        status: REFUSED,
    })
}
