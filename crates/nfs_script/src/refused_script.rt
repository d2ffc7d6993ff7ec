//! Writes why a script was refused.

ghost use Rattle.std.specs.Prelude.{◌≡◌, ◌++◌, OnOk, OnErr};
ghost use Rattle.xdr_codec.specs.Spelling.{BeginsWith};
ghost use Rattle.nfs_script.specs.RefusalText.{refusal_text};

use crate::answer_line::write_number;
use crate::fault::ScriptFault;
use xdr_codec::{Memory, Writer};

/// Appends the line that says why a script was refused, and a line feed. When out of memory the writer begins with what
/// it held.
#[tactic(auto, using(xdr_codec::proofs::Begins::begins_a, xdr_codec::proofs::Begins::begins_b, xdr_codec::proofs::Begins::begins_c, xdr_codec::proofs::Begins::begins_d, xdr_codec::proofs::Begins::grown_e), unfolding(crate::specs::RefusalText::refusal_text))]
pub fn refusal_line(out: &mut Writer, fault: &ScriptFault) -> Result<(), Memory>
    ensures ok { OnOk result (out.new ≡ out.old ++ refusal_text fault.now) }
    ensures err { OnErr result (BeginsWith out.old out.new) }
{
    out.raw(b"script ")?;
    write_number(out, u64::from(fault.line))?;
    out.raw(b" ")?;
    write_number(out, u64::from(fault.kind))?;
    out.raw(b"\n")?;
    Ok(())
}
