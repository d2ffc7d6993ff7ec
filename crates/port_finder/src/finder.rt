//! The ports of MOUNT and NFS.

ghost use Rattle.std.specs.Prelude.{◌≡◌, ◌<◌, ◌+◌, ◌^◌, IfOk};
ghost use Rattle.port_finder.specs.Does.{Does};
ghost use Rattle.port_finder.specs.Found.{Asks, Ported, fault_by, refused_by};
ghost use Rattle.port_finder.specs.Replies.{IsPort};

use crate::exchange::{dial, exchange};
use crate::halt::Halt;
use crate::reply::{Refusal, told_port};
use nfs_types::{MOUNT_PROGRAM, NFS_PROGRAM, PROGRAM_VERSION};
use outside::Link;
use portmap_calls::{Mapping, get_port_call};
use std::alloc::Global;

/// The ports of a server, both above 0.
#[derive(Clone, Copy, Debug, PartialEq, Eq)]
pub struct Ports {
    /// That of MOUNT, version 3.
    pub mount: u16,
    /// That of NFS, version 3.
    pub nfs: u16,
}

/// Why the ports weren't found.
#[derive(Clone, Copy, Debug, PartialEq, Eq)]
pub enum PortFault {
    /// The reply tells no port for this program, or one above 65,535.
    None { prog: u32 },
    /// The call for this program was refused by RPC: the accept status, 100 for RPC_MISMATCH, or 200 and the auth status.
    Rpc { prog: u32, n: u64 },
    /// The record that came for this program breaks this rule: it is no reply (1), isn't spelled by the grammar (2), or has
    /// more than 131,072 bytes (7).
    Bad { prog: u32, n: u32 },
    /// The session is lost: four attempts of a call failed, or four dials in a row, or 65,536 records in a row answered no
    /// call.
    Lost,
    /// Out of memory.
    Memory,
}

/// Asks the port mapper at the port for the ports of MOUNT and NFS over the protocol, 6 for TCP and 17 for UDP; under the
/// xid and the next one.
pub fn find_ports<L: Link>(
    alloc: Global,
    link: &mut L,
    port: u16,
    xid: u32,
    prot: u32,
) -> Result<Ports, PortFault>
    requires { xid + 1 < 2 ^ 32 }
    ensures ported { Does (L.told link.old) (L.told link.new) (L.faults link.old) (L.faults link.new) (Ported port xid prot result) }
    ensures range { IfOk result (λ ports. IsPort ports.mount × IsPort ports.nfs) }
    ensures stays { (first : L) → L.stays first link.old → L.stays first link.new }
    ensures honest { L.honest link.old → L.honest link.new }
{
    match dial(port, link) {
        Ok(()) => {}
        Err(halt) => return Err(fault_of(halt)),
    }
    let mount = match ask(alloc, link, port, xid, MOUNT_PROGRAM, prot) {
        Ok(mount) => mount,
        Err(fault) => return Err(fault),
    };
    match ask(alloc, link, port, xid + 1, NFS_PROGRAM, prot) {
        Ok(nfs) => Ok(Ports { mount, nfs }),
        Err(fault) => Err(fault),
    }
}

/// Asks for the port of one program.
fn ask<L: Link>(
    alloc: Global,
    link: &mut L,
    port: u16,
    xid: u32,
    prog: u32,
    prot: u32,
) -> Result<u16, PortFault>
    ensures asks { Does (L.told link.old) (L.told link.new) (L.faults link.old) (L.faults link.new) (Asks port xid prog prot result) }
    ensures range { IfOk result IsPort }
    ensures stays { (first : L) → L.stays first link.old → L.stays first link.new }
    ensures honest { L.honest link.old → L.honest link.new }
{
    let wanted = Mapping {
        prog,
        vers: PROGRAM_VERSION,
        prot,
        port: 0,
    };
    let Ok(call) = get_port_call(alloc, xid, &wanted) else {
        return Err(PortFault::Memory);
    };
    let reply = match exchange(alloc, link, port, xid, &call) {
        Ok(reply) => reply,
        Err(halt) => return Err(fault_of(halt)),
    };
    match told_port(reply.bytes()) {
        Ok(port) => Ok(port),
        Err(refusal) => Err(refused(prog, refusal)),
    }
}

/// The fault of a call that came to no reply.
fn fault_of(halt: Halt) -> PortFault
    ensures { result ≡ fault_by halt }
{
    match halt {
        Halt::Lost => PortFault::Lost,
        Halt::Memory => PortFault::Memory,
    }
}

/// The fault of a record that tells no port of the program.
fn refused(prog: u32, refusal: Refusal) -> PortFault
    ensures { result ≡ refused_by prog refusal }
{
    match refusal {
        Refusal::None => PortFault::None { prog },
        Refusal::Rpc(n) => PortFault::Rpc { prog, n },
        Refusal::Bad(n) => PortFault::Bad { prog, n },
    }
}
