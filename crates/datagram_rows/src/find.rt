//! The ports of a server, by its port mapper.

use crate::show::show_calls;
use crate::text::{number_of, port_of};
use outside::MemDatagrams;
use port_finder::{PortFault, Ports, find_ports};
use std::alloc::Global;
use std::io;
use udp_link::UdpLink;

/// Finds the ports over a link over the datagrams, and prints them, or why they weren't found.
pub fn show_found(
    rt: &impl Print,
    alloc: Global,
    over: MemDatagrams,
    rest: &str,
) -> io::Result<()> {
    let (port, rest) = rest.split_once(' ').unwrap_or((rest, ""));
    let (xid, protocol) = rest.split_once(' ').unwrap_or((rest, ""));
    let xid = number_of(xid);
    if xid == u32::MAX {
        return println!(rt; "  the next xid doesn't fit");
    }
    let mut link = UdpLink::new(over);
    let found = find_ports(alloc, &mut link, port_of(port), xid, number_of(protocol));
    show_end(rt, found, &link.into_datagrams())
}

fn show_end(
    rt: &impl Print,
    found: Result<Ports, PortFault>,
    asked: &MemDatagrams,
) -> io::Result<()> {
    match found {
        Ok(ports) => println!(rt; "  mount {} nfs {}", ports.mount, ports.nfs)?,
        Err(fault) => show_fault(rt, fault)?,
    }
    show_calls(rt, asked)
}

fn show_fault(rt: &impl Print, fault: PortFault) -> io::Result<()> {
    match fault {
        PortFault::None { prog } => println!(rt; "  {prog} none"),
        PortFault::Rpc { prog, n } => println!(rt; "  {prog} rpc {n}"),
        PortFault::Bad { prog, n } => println!(rt; "  {prog} bad {n}"),
        PortFault::Lost => println!(rt; "  lost"),
        PortFault::Memory => println!(rt; "  memory"),
    }
}
