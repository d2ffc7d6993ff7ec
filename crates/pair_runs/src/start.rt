//! What a run of two clients begins with: their scripts.

ghost use Rattle.std.specs.Prelude.{◌≡◌, ◌≤◌, ◌⊎◌, ◌++◌, All, IfOk, IfErr, length};
ghost use Rattle.outside.specs.Causes.{Rose};
ghost use Rattle.nfs_script.specs.Asked.{IsAskedLine};
ghost use Rattle.nfs_script.specs.RefusalText.{refusal_text};
ghost use Rattle.lane_session.specs.Statuses.{IsCutOff};
ghost use Rattle.script_runs.specs.Run.{Says};
ghost use Rattle.script_runs.specs.Streams.{TakesAll};
ghost use Rattle.pair_ends.specs.Ends.{number_of};
ghost use Rattle.pair_runs.specs.Beginnings.{ReadsOne};
ghost use Rattle.pair_runs.specs.PairRuns.{RefusesOne};
ghost use Rattle.pair_runs.specs.Texts.{label_at};

use crate::client::label;
use crate::status;
use nfs_script::{ParseFault, Script, ScriptFault, parse, refusal_line};
use outside::{LinkFault, Sink, Source};
use pair_ends::Side;
use script_runs::{ReadFault, read_script, write_all};
use std::alloc::Global;
use xdr_codec::{Blob, Memory, Writer};

/// The text of a script, or the status with which the run ends.
pub(crate) fn text_of<S: Source>(alloc: Global, source: &mut S) -> Result<Vec<u8>, u8>
    ensures status { IfErr result (λ status. (status ≡ 4) ⊎ (status ≡ 7)) }
    ensures cause { IfErr result (λ status. status ≡ 4 → Rose (S.faults source.old) (S.faults source.new)) }
    ensures read { IfOk result (λ text. TakesAll (S.left source.old) text.items) }
{
    match read_script(alloc, source) {
        Ok(text) => Ok(text),
        Err(ReadFault::Failed) => Err(status::READ_FAULT),
        Err(ReadFault::Memory) => Err(status::NO_MEMORY),
    }
}

/// The script of a client. If the text is none, why is written, and the run ends with this status.
pub(crate) fn script_of<K: Sink>(
    alloc: Global,
    side: Side,
    text: &[u8],
    out: &mut K,
) -> Result<Script, u8>
    ensures asked { IfOk result (All IsAskedLine) }
    ensures few { IfOk result (λ script. length script ≤ 16384) }
    ensures status { IfErr result (λ status. (status ≡ 3) ⊎ IsCutOff status) }
    ensures sink { IfErr result (λ status. status ≡ 5 → Rose (K.faults out.old) (K.faults out.new)) }
    ensures later { K.faults out.old ≤ K.faults out.new }
    ensures says { Says (K.written out.old) (K.written out.new) (ReadsOne (number_of side) text.now result) }
{
    match parse(alloc, text) {
        Ok(script) => Ok(script),
        Err(ParseFault::Script(fault)) => Err(refuse(alloc, side, &fault, out)),
        Err(ParseFault::Memory) => Err(status::NO_MEMORY),
    }
}

/// Writes why the script of that client is refused.
fn refuse<K: Sink>(alloc: Global, side: Side, fault: &ScriptFault, out: &mut K) -> u8
    ensures status { (result ≡ 3) ⊎ IsCutOff result }
    ensures sink { result ≡ 5 → Rose (K.faults out.old) (K.faults out.new) }
    ensures later { K.faults out.old ≤ K.faults out.new }
    ensures says { Says (K.written out.old) (K.written out.new) (RefusesOne (number_of side) fault.now result) }
{
    let Ok(text) = refusal(alloc, side, fault) else {
        return status::NO_MEMORY;
    };
    match write_all(out, text.bytes()) {
        Ok(()) => status::SCRIPT_REFUSED,
        Err(LinkFault::Failed) => status::WRITE_FAULT,
        Err(LinkFault::Memory) => status::NO_MEMORY,
    }
}

/// The line that refuses the script of that client.
fn refusal(alloc: Global, side: Side, fault: &ScriptFault) -> Result<Blob, Memory>
    ensures { IfOk result (λ text. text ≡ label_at (number_of side) ++ refusal_text fault.now) }
{
    let mut text = Writer::new(alloc);
    text.raw(label(side))?;
    refusal_line(&mut text, fault)?;
    Ok(text.finish())
}
