//! The port mapper of a server that serves NFS and MOUNT on one port.

ghost use Rattle.std.specs.Prelude.{◌≡◌, IfOk};
ghost use Rattle.rpc_message.specs.Call.{call_at};
ghost use Rattle.portmap_calls.specs.Ports.{answered, is_get_port, port_of};

use crate::call::{GETPORT, PORTMAP_PROGRAM, PORTMAP_VERSION};
use crate::mapping::{Mapping, read_mapping};
use nfs_types::{MOUNT_PROGRAM, NFS_PROGRAM, PROGRAM_VERSION};
use rpc_message::{CallHead, read_call, write_accepted};
use std::alloc::Global;
use xdr_codec::{Blob, Memory, Writer};

/// Answers a call of GETPORT: `port` for NFS and MOUNT, version 3, over any protocol, and 0 for all else. None exactly if
/// the record is no call of GETPORT, or its arguments aren't spelled.
pub fn answer(alloc: Global, rec: &[u8], port: u16) -> Result<Option<Blob>, Memory>
    ensures exact { IfOk result (λ reply. reply ≡ answered port (call_at rec.now)) }
{
    let Ok((head, args)) = read_call(rec) else {
        return Ok(None);
    };
    if !is_get_port(&head) {
        return Ok(None);
    }
    let Ok(wanted) = read_mapping(args) else {
        return Ok(None);
    };
    let mut w = Writer::new(alloc);
    write_accepted(&mut w, head.xid)?;
    w.u32(port_of(&wanted, port))?;
    Ok(Some(w.finish()))
}

/// Whether a call is one of GETPORT.
fn is_get_port(head: &CallHead) -> bool
    ensures { result ≡ is_get_port head.now }
{
    head.prog == PORTMAP_PROGRAM && head.vers == PORTMAP_VERSION && head.proc == GETPORT
}

/// The port that a program is served on, or 0.
fn port_of(wanted: &Mapping, port: u16) -> u32
    ensures { result ≡ port_of port wanted.now }
{
    let is_known = wanted.prog == NFS_PROGRAM || wanted.prog == MOUNT_PROGRAM;
    if is_known && wanted.vers == PROGRAM_VERSION {
        u32::from(port)
    } else {
        0
    }
}
