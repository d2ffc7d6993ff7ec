//! Writes why a mount was refused.

ghost use Rattle.std.specs.Prelude.{◌≡◌, ◌++◌, OnOk, OnErr};
ghost use Rattle.xdr_codec.specs.Spelling.{BeginsWith};
ghost use Rattle.world_model.specs.Transcript.{mount_fault_text, mount_text};

use crate::answer_line::{write_fault, write_number};
use world_model::Fault;
use xdr_codec::{Memory, Writer};

/// Appends the line that says why a mount was refused, and a line feed. When out of memory the writer begins with what
/// it held.
#[tactic(auto, using(xdr_codec::proofs::Begins::after_a, xdr_codec::proofs::Begins::begins_b, xdr_codec::proofs::Begins::grown_c), unfolding(world_model::specs::Transcript::mount_text))]
pub fn mount_line(out: &mut Writer, fault: Fault) -> Result<(), Memory>
    ensures ok { OnOk result (out.new ≡ out.old ++ mount_text fault) }
    ensures err { OnErr result (BeginsWith out.old out.new) }
{
    out.raw(b"mount ")?;
    write_refusal(out, fault)?;
    out.raw(b"\n")?;
    Ok(())
}

fn write_refusal(out: &mut Writer, fault: Fault) -> Result<(), Memory>
    ensures ok { OnOk result (out.new ≡ out.old ++ mount_fault_text fault) }
    ensures err { OnErr result (BeginsWith out.old out.new) }
{
    match fault {
        Fault::Nfs(status) => write_number(out, u64::from(status)),
        _ => write_fault(out, fault),
    }
}
