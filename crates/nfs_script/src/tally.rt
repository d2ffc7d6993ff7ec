//! Writes how many calls a session made.

ghost use Rattle.std.specs.Prelude.{◌≡◌, ◌++◌, codes, OnOk, OnErr};
ghost use Rattle.xdr_codec.specs.Spelling.{BeginsWith};
ghost use Rattle.world_model.specs.Counts.{item_text, tally_text};

use crate::answer_line::write_number;
use world_model::Tally;
use xdr_codec::{Memory, Writer};

/// Appends the line of a session's calls, and a line feed. When out of memory the writer begins with what it held.
#[tactic(auto, using(xdr_codec::proofs::Begins::begins_then, std::proofs::Common::append_assoc), unfolding(world_model::specs::Counts::tally_text))]
pub fn tally_line(out: &mut Writer, tally: &Tally) -> Result<(), Memory>
    ensures ok { OnOk result (out.new ≡ out.old ++ tally_text tally.now) }
    ensures err { OnErr result (BeginsWith out.old out.new) }
{
    write_item(out, b"calls", tally.calls)?;
    write_item(out, b" getattr", tally.getattr)?;
    write_item(out, b" lookup", tally.lookup)?;
    write_item(out, b" read", tally.read)?;
    write_item(out, b" write", tally.write)?;
    write_item(out, b" commit", tally.commit)?;
    out.raw(b"\n")?;
    Ok(())
}

#[tactic(auto, using(xdr_codec::proofs::Begins::begins_then, std::proofs::Common::append_assoc), unfolding(world_model::specs::Counts::item_text))]
fn write_item(out: &mut Writer, word: &[u8], number: u32) -> Result<(), Memory>
    ensures ok { OnOk result (out.new ≡ out.old ++ item_text word.now number) }
    ensures err { OnErr result (BeginsWith out.old out.new) }
{
    out.raw(word)?;
    out.raw(b" ")?;
    write_number(out, u64::from(number))?;
    Ok(())
}
