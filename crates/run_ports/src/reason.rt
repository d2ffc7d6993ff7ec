//! Why there is no port, as text.

ghost use Rattle.std.specs.Prelude.{◌≡◌, ◌++◌, IfOk, OnOk, decimal};
ghost use Rattle.run_ports.specs.Refusals.{refusal_text, reason_text};

use itoa::Buffer;
use std::alloc::Global;
use xdr_codec::{Blob, Memory, Writer};

/// Why a port mapper told no port of a program.
#[derive(Clone, Copy)]
pub(crate) enum Reason {
    /// None is registered, or one above 65,535.
    None,
    /// The call was refused by RPC, with this number.
    Rpc(u64),
    /// The record that came breaks this rule.
    Bad(u32),
}

/// The line that says why there is no port of the program.
pub(crate) fn refusal_line(alloc: Global, prog: u32, reason: Reason) -> Result<Blob, Memory>
    ensures { IfOk result (λ text. text ≡ refusal_text prog reason) }
{
    let mut line = Writer::new(alloc);
    line.raw(b"portmap ")?;
    write_number(&mut line, u64::from(prog))?;
    line.raw(b" ")?;
    write_reason(&mut line, reason)?;
    line.raw(b"\n")?;
    Ok(line.finish())
}

fn write_reason(line: &mut Writer, reason: Reason) -> Result<(), Memory>
    ensures { OnOk result (line.new ≡ line.old ++ reason_text reason) }
{
    match reason {
        Reason::None => line.raw(b"none"),
        Reason::Rpc(n) => write_counted(line, b"rpc ", n),
        Reason::Bad(n) => write_counted(line, b"bad ", u64::from(n)),
    }
}

#[tactic(auto, using(std::proofs::Common::append_assoc))]
fn write_counted(line: &mut Writer, word: &[u8], number: u64) -> Result<(), Memory>
    ensures { OnOk result (line.new ≡ line.old ++ (word.now ++ decimal number)) }
{
    line.raw(word)?;
    write_number(line, number)?;
    Ok(())
}

fn write_number(line: &mut Writer, number: u64) -> Result<(), Memory>
    ensures { OnOk result (line.new ≡ line.old ++ decimal number) }
{
    let mut buffer = Buffer::new();
    line.raw(buffer.format(number).as_bytes())
}
