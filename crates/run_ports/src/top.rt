//! The top call of a session whose ports a port mapper tells.

ghost use Rattle.std.specs.Prelude.{◌≡◌, ◌≤◌, ◌⊎◌, None, IfOk, Err, map, string_bytes};
ghost use Rattle.outside.specs.Causes.{Rose};
ghost use Rattle.session_words.specs.Words.{IsCommand};
ghost use Rattle.port_words.specs.Portmaps.{Names};
ghost use Rattle.script_runs.specs.Run.{Says};
ghost use Rattle.run_ports.specs.Refusals.{IsStatus, Ends, Tells};
ghost use Rattle.run_ports.specs.Sessions.{finder_at, outside_at, usual_words, at_ports, IsNamed, IsTaken, ByPortmap, SessionIs};

use crate::output::write_all;
use crate::reason::{Reason, refusal_line};
use crate::status;
use nfs_client::{run, run_with};
use outside::{Clock, Link, LinkFault, Sink, Source};
use port_finder::{PortFault, Ports, find_ports};
use port_words::{Portmap, PortmapFault, take_portmap, with_ports};
use session_words::{Settings, WordsFault, read_words};
use std::alloc::Global;

/// The xid of the first call to the port mapper.
const FIRST_XID: u32 = 1;
/// The number of TCP among the protocols.
const TCP: u32 = 6;
/// The port of MOUNT if the words name none.
const USUAL_MOUNT_PORT: u16 = 20_048;
/// The port of NFS if the words name none.
const USUAL_NFS_PORT: u16 = 2_049;

/// Runs the client with the ports that a port mapper tells. The word `--portmap` and the one after it name its port; it is asked
/// over the finder, and the client runs as `nfs_client::run` does by the other words, but with the ports that were told. Without that
/// word it is `run` with the words as they are.
///
/// The words are read before anything is dialed, and once. The status is that of `run`, but 10 if the port mapper told no port, and
/// then a line says why; 6 also if the link to the port mapper is lost.
pub fn run_found<S: Source, F: Link, L: Link, C: Clock, K: Sink>(
    alloc: Global,
    words: &[String],
    script: &mut S,
    finder: &mut F,
    link: &mut L,
    clock: &mut C,
    out: &mut K,
) -> u8
    ensures statuses { IsStatus result }
    ensures untaken { (Names (map string_bytes words.now) None → ⊥) → (IsNamed (map string_bytes words.now) → ⊥)
        → (result ≡ 2) ⊎ (result ≡ 7) }
    ensures finder_honest { F.honest finder.old → F.honest finder.new }
    ensures stays { (first : L) → L.stays first link.old → L.stays first link.new }
    ensures honest { L.honest link.old → L.honest link.new }
    ensures session { SessionIs (map string_bytes words.now) (S.left script.old)
        (finder_at (F.told finder.old) (F.faults finder.old)) (finder_at (F.told finder.new) (F.faults finder.new))
        (outside_at (L.told link.old) (L.faults link.old) (C.readings clock.old) (K.written out.old) (K.faults out.old) (S.faults script.old))
        (outside_at (L.told link.new) (L.faults link.new) (C.readings clock.new) (K.written out.new) (K.faults out.new) (S.faults script.new))
        result }
{
    match take_portmap(alloc, words) {
        Ok(None) => run(alloc, words, script, link, clock, out),
        Ok(Some(portmap)) => run_by(alloc, &portmap, script, finder, link, clock, out),
        Err(PortmapFault::Refused) => status::WORDS_REFUSED,
        Err(PortmapFault::Memory) => status::NO_MEMORY,
    }
}

/// Runs the client by the port mapper, with the other words.
fn run_by<S: Source, F: Link, L: Link, C: Clock, K: Sink>(
    alloc: Global,
    portmap: &Portmap,
    script: &mut S,
    finder: &mut F,
    link: &mut L,
    clock: &mut C,
    out: &mut K,
) -> u8
    ensures statuses { IsStatus result }
    ensures untaken { (IsTaken (map string_bytes portmap.now.others.items) → ⊥) → (result ≡ 2) ⊎ (result ≡ 7) }
    ensures finder_honest { F.honest finder.old → F.honest finder.new }
    ensures stays { (first : L) → L.stays first link.old → L.stays first link.new }
    ensures honest { L.honest link.old → L.honest link.new }
    ensures session { ByPortmap portmap.now.port (map string_bytes portmap.now.others.items) (S.left script.old)
        (finder_at (F.told finder.old) (F.faults finder.old)) (finder_at (F.told finder.new) (F.faults finder.new))
        (outside_at (L.told link.old) (L.faults link.old) (C.readings clock.old) (K.written out.old) (K.faults out.old) (S.faults script.old))
        (outside_at (L.told link.new) (L.faults link.new) (C.readings clock.new) (K.written out.new) (K.faults out.new) (S.faults script.new))
        result }
{
    let settings = match read_others(alloc, portmap.others.as_slice()) {
        Ok(settings) => settings,
        Err(WordsFault::Refused) => return status::WORDS_REFUSED,
        Err(WordsFault::Memory) => return status::NO_MEMORY,
    };
    match find_ports(alloc, finder, portmap.port, FIRST_XID, TCP) {
        Ok(ports) => {
            let settings = at_ports(settings, &ports);
            run_with(alloc, &settings, script, link, clock, out)
        }
        Err(fault) => end_unfound(alloc, fault, out),
    }
}

/// The settings that the other words give, once the usual ports stand among them.
fn read_others(alloc: Global, others: &[String]) -> Result<Settings, WordsFault>
    ensures found { IfOk result (IsCommand (usual_words (map string_bytes others.now))) }
    ensures refused { result ≡ Err WordsFault.Refused → IsTaken (map string_bytes others.now) → ⊥ }
{
    let Ok(words) = with_ports(alloc, others, USUAL_MOUNT_PORT, USUAL_NFS_PORT) else {
        return Err(WordsFault::Memory);
    };
    read_words(alloc, words.as_slice())
}

/// The settings with the ports that were told.
fn at_ports(settings: Settings, ports: &Ports) -> Settings
    ensures { result ≡ at_ports settings ports.now }
{
    Settings {
        mount_port: ports.mount,
        nfs_port: ports.nfs,
        ..settings
    }
}

/// Ends a session without ports.
fn end_unfound<K: Sink>(alloc: Global, fault: PortFault, out: &mut K) -> u8
    ensures statuses { IsStatus result }
    ensures sink { result ≡ 5 → Rose (K.faults out.old) (K.faults out.new) }
    ensures said { Says (K.written out.old) (K.written out.new) (Ends fault result) }
{
    match fault {
        PortFault::None { prog } => tell(alloc, prog, Reason::None, out),
        PortFault::Rpc { prog, n } => tell(alloc, prog, Reason::Rpc(n), out),
        PortFault::Bad { prog, n } => tell(alloc, prog, Reason::Bad(n), out),
        PortFault::Lost => status::LINK_LOST,
        PortFault::Memory => status::NO_MEMORY,
    }
}

/// Writes why there is no port of the program.
fn tell<K: Sink>(alloc: Global, prog: u32, reason: Reason, out: &mut K) -> u8
    ensures statuses { IsStatus result }
    ensures sink { result ≡ 5 → Rose (K.faults out.old) (K.faults out.new) }
    ensures said { Says (K.written out.old) (K.written out.new) (Tells prog reason result) }
{
    let Ok(line) = refusal_line(alloc, prog, reason) else {
        return status::NO_MEMORY;
    };
    match write_all(out, line.bytes()) {
        Ok(()) => status::NO_PORT,
        Err(LinkFault::Failed) => status::WRITE_FAULT,
        Err(LinkFault::Memory) => status::NO_MEMORY,
    }
}
