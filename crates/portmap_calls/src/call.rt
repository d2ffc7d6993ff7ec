//! Calls of GETPORT and what they are answered with.

ghost use Rattle.std.specs.Prelude.{◌≡◌, ◌++◌, IfOk};
ghost use Rattle.rpc_message.specs.declared.cred.Cred.TheVariants as creds;
ghost use Rattle.rpc_message.specs.Call.{call_head_bytes};
ghost use Rattle.xdr_codec.specs.Reading.{u32_at};
ghost use Rattle.xdr_codec.specs.Spells.{SpellsU32};
ghost use Rattle.xdr_codec.specs.Whole.{whole_at, Gives, FindsWhole};
ghost use Rattle.portmap_calls.specs.Mappings.{mapping_bytes};
ghost use Rattle.portmap_calls.specs.Ports.{get_port_head};

use crate::mapping::{Mapping, write_mapping};
use rpc_message::{CallHead, Cred, write_call};
use std::alloc::Global;
use xdr_codec::{Memory, Reader, Record, Writer, XdrFault};

/// The number of the port mapper's program (RFC 1833, section 3).
pub const PORTMAP_PROGRAM: u32 = 100_000;

/// The version of it that is spoken.
pub const PORTMAP_VERSION: u32 = 2;

/// The procedure that asks for a port (RFC 1833, section 3.2).
pub const GETPORT: u32 = 3;

/// The bytes of the record of such a call: ten words of its head, and four of what it asks for.
const ROOM: usize = 56;

/// The record of a call of GETPORT under an xid, with AUTH_NONE.
#[tactic(auto, using(xdr_codec::proofs::Written::finished))]
pub fn get_port_call(alloc: Global, xid: u32, wanted: &Mapping) -> Result<Record, Memory>
    ensures { IfOk result (λ r. r ≡ call_head_bytes (get_port_head xid) creds.None ++ mapping_bytes wanted.now) }
{
    let mut w = Writer::record(alloc, ROOM)?;
    let head = CallHead {
        xid,
        prog: PORTMAP_PROGRAM,
        vers: PORTMAP_VERSION,
        proc: GETPORT,
    };
    write_call(&mut w, &head, &Cred::None)?;
    write_mapping(&mut w, wanted)?;
    w.finish_record(alloc)
}

/// Reads the port from all of the results of a GETPORT; it is 0 if none is registered.
pub fn read_port(results: &[u8]) -> Result<u32, XdrFault>
    ensures exact { Gives (λ n. n) result (whole_at u32_at results.now) }
    ensures spelled { FindsWhole (λ n. n) SpellsU32 results.now result }
{
    Reader::new(results).holds_bytes();
    port_in(results)
}

fn port_in(results: &[u8]) -> Result<u32, XdrFault>
    ensures { Gives (λ n. n) result (whole_at u32_at results.now) }
{
    let mut r = Reader::new(results);
    let port = r.u32()?;
    r.end()?;
    Ok(port)
}
