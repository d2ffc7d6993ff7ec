//! Writes that a batch is done.

ghost use Rattle.std.specs.Prelude.{◌≡◌, ◌++◌, OnOk, OnErr};
ghost use Rattle.xdr_codec.specs.Spelling.{BeginsWith};
ghost use Rattle.nfs_script.specs.DoneText.{done_text};

use crate::answer_line::write_number;
use xdr_codec::{Memory, Writer};

/// Appends the line that ends the answers of a batch, and a line feed: the number of the batch, from 1 on, and its status. When out of
/// memory the writer begins with what it held.
#[tactic(auto, using(xdr_codec::proofs::Begins::begins_a, xdr_codec::proofs::Begins::begins_b, xdr_codec::proofs::Begins::begins_c, xdr_codec::proofs::Begins::begins_d, xdr_codec::proofs::Begins::grown_e), unfolding(crate::specs::DoneText::done_text))]
pub fn done_line(out: &mut Writer, number: u32, status: u8) -> Result<(), Memory>
    ensures ok { OnOk result (out.new ≡ out.old ++ done_text number status) }
    ensures err { OnErr result (BeginsWith out.old out.new) }
{
    out.raw(b"done ")?;
    write_number(out, u64::from(number))?;
    out.raw(b" ")?;
    write_number(out, u64::from(status))?;
    out.raw(b"\n")?;
    Ok(())
}
