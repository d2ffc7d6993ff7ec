//! Calls that are refused before they reach the export (RFC 5531, section 9).

ghost use Rattle.std.specs.Prelude.{◌≡◌, IfOk};
ghost use Rattle.rpc_message.specs.Reply.{SpellsReply};
ghost use Rattle.export_serve.specs.Refusals.{refusal_reply, refusal_bytes};

use rpc_message::{write_denied, write_refused};
use std::alloc::Global;
use xdr_codec::{Blob, Memory, Writer};

/// Why a call isn't executed (RFC 5531, section 9, accept_stat and reject_stat).
#[derive(Clone, Copy, Debug)]
pub(crate) enum Refusal {
    /// It is of another version of RPC than 2: RPC_MISMATCH.
    Rpc,
    /// Its program isn't served: PROG_UNAVAIL.
    Program,
    /// Its program is served in version 3 only: PROG_MISMATCH.
    Version,
    /// Its procedure isn't served: PROC_UNAVAIL.
    Procedure,
    /// Its arguments spell no call of the procedure: GARBAGE_ARGS.
    Arguments,
}

/// The record of a refusal under the xid.
pub(crate) fn refusal_record(alloc: Global, xid: u32, refusal: Refusal) -> Result<Blob, Memory>
    ensures exact { IfOk result (λ bytes. bytes ≡ refusal_bytes xid refusal) }
    ensures spelled { IfOk result (SpellsReply (refusal_reply xid refusal)) }
{
    let mut w = Writer::new(alloc);
    match refusal {
        Refusal::Rpc => write_denied(&mut w, xid, 0, 2, 2)?,
        Refusal::Program => write_refused(&mut w, xid, 1, 0, 0)?,
        Refusal::Version => write_refused(&mut w, xid, 2, 3, 3)?,
        Refusal::Procedure => write_refused(&mut w, xid, 3, 0, 0)?,
        Refusal::Arguments => write_refused(&mut w, xid, 4, 0, 0)?,
    }
    Ok(w.finish())
}
