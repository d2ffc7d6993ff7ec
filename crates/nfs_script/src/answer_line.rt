//! Writes the lines that answer operations.

ghost use Rattle.std.specs.Prelude.{◌≡◌, ◌++◌, codes, decimal, OnOk, OnErr};
ghost use Rattle.xdr_codec.specs.Spelling.{BeginsWith};
ghost use Rattle.world_model.specs.Transcript.{answer_text, fault_text, line_text, value_text};

use crate::value_text::write_value;
use itoa::Buffer;
use world_model::{Answer, Fault, Value};
use xdr_codec::{Memory, Writer};

/// Appends the line that answers an operation: its lane, the number of its line and its answer's text, parted by single
/// spaces, and a line feed. When out of memory the writer begins with what it held.
#[tactic(auto, using(xdr_codec::proofs::Begins::after_a, xdr_codec::proofs::Begins::begins_b, std::proofs::Common::append_assoc), unfolding(world_model::specs::Transcript::line_text))]
pub fn line(out: &mut Writer, lane: u8, number: u32, answer: &Answer) -> Result<(), Memory>
    ensures ok { OnOk result (out.new ≡ out.old ++ line_text lane number answer.now) }
    ensures err { OnErr result (BeginsWith out.old out.new) }
{
    write_head(out, lane, number)?;
    write_answer(out, answer)?;
    out.raw(b"\n")?;
    Ok(())
}

/// Appends the lane and the number of a line, each with a space behind it.
#[tactic(auto, using(xdr_codec::proofs::Begins::begins_a, xdr_codec::proofs::Begins::begins_b, xdr_codec::proofs::Begins::begins_c, xdr_codec::proofs::Begins::grown_d))]
pub(crate) fn write_head(out: &mut Writer, lane: u8, number: u32) -> Result<(), Memory>
    ensures ok { OnOk result (out.new ≡ out.old ++ (decimal lane ++ codes " " ++ decimal number ++ codes " ")) }
    ensures err { OnErr result (BeginsWith out.old out.new) }
{
    write_number(out, u64::from(lane))?;
    out.raw(b" ")?;
    write_number(out, u64::from(number))?;
    out.raw(b" ")?;
    Ok(())
}

fn write_answer(out: &mut Writer, answer: &Answer) -> Result<(), Memory>
    ensures ok { OnOk result (out.new ≡ out.old ++ answer_text answer.now) }
    ensures err { OnErr result (BeginsWith out.old out.new) }
{
    match answer {
        Answer::Done(value) => write_done(out, value),
        Answer::Refused(fault) => write_fault(out, *fault),
    }
}

#[tactic(auto, using(xdr_codec::proofs::Begins::after_a, std::proofs::Common::append_assoc))]
fn write_done(out: &mut Writer, value: &Value) -> Result<(), Memory>
    ensures ok { OnOk result (out.new ≡ out.old ++ (codes "ok" ++ value_text value.now)) }
    ensures err { OnErr result (BeginsWith out.old out.new) }
{
    out.raw(b"ok")?;
    write_value(out, value)?;
    Ok(())
}

#[tactic(auto, using(xdr_codec::proofs::Begins::begins_then, std::proofs::Common::append_assoc))]
pub(crate) fn write_fault(out: &mut Writer, fault: Fault) -> Result<(), Memory>
    ensures ok { OnOk result (out.new ≡ out.old ++ fault_text fault) }
    ensures err { OnErr result (BeginsWith out.old out.new) }
{
    match fault {
        Fault::Nfs(status) => write_counted(out, b"nfs ", u64::from(status)),
        Fault::Rpc(refusal) => write_counted(out, b"rpc ", refusal),
        Fault::Bad(rule) => write_counted(out, b"bad ", u64::from(rule)),
        Fault::Lost => out.raw(b"lost"),
        Fault::Spent => out.raw(b"spent"),
        Fault::Slot => out.raw(b"slot"),
        Fault::Mode => out.raw(b"mode"),
        Fault::Kind => out.raw(b"type"),
        Fault::Many => out.raw(b"many"),
        Fault::Memory => out.raw(b"memory"),
    }
}

#[tactic(auto, using(xdr_codec::proofs::Begins::begins_then, std::proofs::Common::append_assoc))]
fn write_counted(out: &mut Writer, word: &[u8], number: u64) -> Result<(), Memory>
    ensures ok { OnOk result (out.new ≡ out.old ++ (word.now ++ decimal number)) }
    ensures err { OnErr result (BeginsWith out.old out.new) }
{
    out.raw(word)?;
    write_number(out, number)?;
    Ok(())
}

pub(crate) fn write_number(out: &mut Writer, number: u64) -> Result<(), Memory>
    ensures ok { OnOk result (out.new ≡ out.old ++ decimal number) }
    ensures err { OnErr result (out.new ≡ out.old) }
{
    let mut buffer = Buffer::new();
    out.raw(buffer.format(number).as_bytes())
}
