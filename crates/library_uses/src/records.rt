//! Records on a stream of bytes, by `rpc_record`.

ghost use Rattle.std.specs.Prelude.{◌+◌};
ghost use Rattle.outside.specs.Causes.{HasCauseReceived};
ghost use Rattle.rpc_record.specs.Honest.{HonestOver};
ghost use Rattle.rpc_record.specs.Shown.{line_of};

use outside::{Link, LinkFault, Received, Wire};
use rpc_record::StreamLink;
use xdr_codec::Record;

/// How long a reply is waited for at most, in milliseconds.
const WAIT_MS: u32 = 15_000;

/// Sends a record and waits for the next one that comes, which takes the place of what `reply` held. Over an honest wire the
/// link stays honest. A failure or silence has a cause: a fault of the wire, or one that the link counts as its own.
#[tactic(auto, using(crate::proofs::Causes::cause_since))]
pub fn exchange<W: Wire + Drop>(
    link: &mut StreamLink<W>,
    record: &Record,
    reply: &mut Vec<u8>,
) -> Received
    ensures honest { HonestOver W.told W.honest (line_of link.old) → HonestOver W.told W.honest (line_of link.new) }
    ensures cause { HasCauseReceived (link.old.wire + link.old.own) (link.new.wire + link.new.own) result }
{
    match link.send(record) {
        Ok(()) => link.receive(WAIT_MS, reply),
        Err(LinkFault::Failed) => Received::Failed,
        Err(LinkFault::Memory) => Received::Memory,
    }
}
