//! What a run says if the mount is refused.

ghost use Rattle.std.specs.Prelude.{◌≡◌, ◌⊎◌, IfOk};
ghost use Rattle.outside.specs.Causes.{Rose};
ghost use Rattle.world_model.specs.Transcript.{mount_text};
ghost use Rattle.script_runs.specs.Ends.{TellsMount};
ghost use Rattle.script_runs.specs.Run.{IsCutOff, Says};

use crate::output::write_all;
use crate::status;
use nfs_script::mount_line;
use outside::{LinkFault, Sink};
use std::alloc::Global;
use world_model::Fault;
use xdr_codec::{Blob, Memory, Writer};

/// Writes why the mount is refused, and answers the status.
pub fn refuse_mount<K: Sink>(alloc: Global, fault: Fault, out: &mut K) -> u8
    ensures status { (result ≡ 8) ⊎ IsCutOff result }
    ensures sink { result ≡ 5 → Rose (K.faults out.old) (K.faults out.new) }
    ensures said { Says (K.written out.old) (K.written out.new) (TellsMount fault result) }
{
    let Ok(text) = text_of(alloc, fault) else {
        return status::NO_MEMORY;
    };
    match write_all(out, text.bytes()) {
        Ok(()) => status::MOUNT_REFUSED,
        Err(LinkFault::Failed) => status::WRITE_FAULT,
        Err(LinkFault::Memory) => status::NO_MEMORY,
    }
}

/// The line that says why.
fn text_of(alloc: Global, fault: Fault) -> Result<Blob, Memory>
    ensures { IfOk result (λ text. text ≡ mount_text fault) }
{
    let mut text = Writer::new(alloc);
    mount_line(&mut text, fault)?;
    Ok(text.finish())
}
