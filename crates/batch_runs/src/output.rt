//! What is written at the end of a batch.

ghost use Rattle.std.specs.Prelude.{◌≡◌, ◌≤◌, ◌++◌, IfOk, OnOk, OnErr};
ghost use Rattle.outside.specs.Causes.{Rose};
ghost use Rattle.nfs_script.specs.DoneText.{done_text};
ghost use Rattle.nfs_script.specs.RefusalText.{refusal_text};
ghost use Rattle.lane_session.specs.Endings.{counts_text};
ghost use Rattle.script_runs.specs.Streams.{Appends, AppendsFront};
ghost use Rattle.batch_runs.specs.Stops.{CausedBy};

use crate::status;
use crate::stop::{Stop, of_link};
use nfs_script::{ScriptFault, done_line, refusal_line, tally_line};
use outside::Sink;
use script_runs::write_all;
use std::alloc::Global;
use world_model::Tally;
use xdr_codec::{Blob, Memory, Writer};

/// Writes the line of counts, if it is wanted, and that the batch of that number is done, with its status.
pub(crate) fn tell_done<K: Sink>(
    alloc: Global,
    count: bool,
    tally: &Tally,
    number: u32,
    status: u8,
    out: &mut K,
) -> Result<(), Stop>
    ensures ok { OnOk result (Appends (K.written out.old) (K.written out.new) (counts_text count tally.now ++ done_text number status)) }
    ensures err { OnErr result (AppendsFront (K.written out.old) (K.written out.new) (counts_text count tally.now ++ done_text number status)) }
    ensures later { K.faults out.old ≤ K.faults out.new }
    ensures cause { CausedBy result ⊥ (Rose (K.faults out.old) (K.faults out.new)) }
{
    let Ok(text) = done_text(alloc, count, tally, number, status) else {
        return Err(Stop::Memory);
    };
    tell(text.bytes(), out)
}

/// Writes why a batch is refused, and that it is done.
pub(crate) fn tell_refused<K: Sink>(
    alloc: Global,
    fault: &ScriptFault,
    number: u32,
    out: &mut K,
) -> Result<(), Stop>
    ensures ok { OnOk result (Appends (K.written out.old) (K.written out.new) (refusal_text fault.now ++ done_text number 3)) }
    ensures err { OnErr result (AppendsFront (K.written out.old) (K.written out.new) (refusal_text fault.now ++ done_text number 3)) }
    ensures later { K.faults out.old ≤ K.faults out.new }
    ensures cause { CausedBy result ⊥ (Rose (K.faults out.old) (K.faults out.new)) }
{
    let Ok(text) = refused_text(alloc, fault, number) else {
        return Err(Stop::Memory);
    };
    tell(text.bytes(), out)
}

/// Writes a text at once.
fn tell<K: Sink>(text: &[u8], out: &mut K) -> Result<(), Stop>
    ensures ok { OnOk result (Appends (K.written out.old) (K.written out.new) text.now) }
    ensures err { OnErr result (AppendsFront (K.written out.old) (K.written out.new) text.now) }
    ensures later { K.faults out.old ≤ K.faults out.new }
    ensures cause { CausedBy result ⊥ (Rose (K.faults out.old) (K.faults out.new)) }
{
    match write_all(out, text) {
        Ok(()) => Ok(()),
        Err(fault) => Err(of_link(fault)),
    }
}

/// The line of counts, if it is wanted, and the one that ends a batch.
fn done_text(
    alloc: Global,
    count: bool,
    tally: &Tally,
    number: u32,
    status: u8,
) -> Result<Blob, Memory>
    ensures { IfOk result (λ text. text ≡ counts_text count tally.now ++ done_text number status) }
{
    let mut text = Writer::new(alloc);
    if count {
        tally_line(&mut text, tally)?;
    }
    done_line(&mut text, number, status)?;
    Ok(text.finish())
}

/// The line that refuses a batch, and the one that ends it.
fn refused_text(alloc: Global, fault: &ScriptFault, number: u32) -> Result<Blob, Memory>
    ensures { IfOk result (λ text. text ≡ refusal_text fault.now ++ done_text number 3) }
{
    let mut text = Writer::new(alloc);
    refusal_line(&mut text, fault)?;
    done_line(&mut text, number, status::BATCH_REFUSED)?;
    Ok(text.finish())
}
