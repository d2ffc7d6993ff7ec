//! A call and its reply: dials, attempts, and records that are waited for.

ghost use Rattle.port_finder.specs.Does.{Does};
ghost use Rattle.port_finder.specs.Talk.{Dials, Receives, Listens, Attempts, Tries, Exchanges};

use crate::halt::{Halt, Miss};
use limits::{CONNECTS, STRAY_RECORDS, WAIT_MS};
use outside::{Link, LinkFault, Received};
use rpc_message::xid_of;
use std::alloc::Global;
use xdr_codec::{Blob, Record};

/// So often is a call sent again, at most.
const MOST_RETRIES: u32 = 3;

/// Makes a connection to the port, with at most four dials.
pub fn dial<L: Link>(port: u16, link: &mut L) -> Result<(), Halt>
    ensures does { Does (L.told link.old) (L.told link.new) (L.faults link.old) (L.faults link.new) (Dials port result) }
    ensures stays { (first : L) → L.stays first link.old → L.stays first link.new }
    ensures honest { L.honest link.old → L.honest link.new }
{
    let mut failed = 0;
    while failed < CONNECTS {
        match link.dial(port) {
            Ok(()) => return Ok(()),
            Err(LinkFault::Failed) => failed += 1,
            Err(LinkFault::Memory) => return Err(Halt::Memory),
        }
    }
    Err(Halt::Lost)
}

/// Makes a call, and waits for the record under its xid: at most four attempts with the same bytes, each on a new
/// connection if the link failed in the one before.
pub fn exchange<L: Link>(
    alloc: Global,
    link: &mut L,
    port: u16,
    xid: u32,
    call: &Record,
) -> Result<Blob, Halt>
    ensures does { Does (L.told link.old) (L.told link.new) (L.faults link.old) (L.faults link.new) (Exchanges port xid call.now result) }
    ensures stays { (first : L) → L.stays first link.old → L.stays first link.new }
    ensures honest { L.honest link.old → L.honest link.new }
{
    let mut failed = 0;
    while failed < MOST_RETRIES {
        match retry(alloc, link, port, xid, call) {
            Ok(Some(reply)) => return Ok(reply),
            Ok(None) => failed += 1,
            Err(halt) => return Err(halt),
        }
    }
    match attempt(alloc, link, xid, call) {
        Ok(reply) => Ok(reply),
        Err(Miss::Failed) => Err(Halt::Lost),
        Err(Miss::Silent) => Err(Halt::Lost),
        Err(Miss::Flooded) => Err(Halt::Lost),
        Err(Miss::Memory) => Err(Halt::Memory),
    }
}

/// An attempt that isn't the last. None if nothing came in time, or if it failed and a new connection was made.
fn retry<L: Link>(
    alloc: Global,
    link: &mut L,
    port: u16,
    xid: u32,
    call: &Record,
) -> Result<Option<Blob>, Halt>
    ensures does { Does (L.told link.old) (L.told link.new) (L.faults link.old) (L.faults link.new) (Tries port xid call.now result) }
    ensures stays { (first : L) → L.stays first link.old → L.stays first link.new }
    ensures honest { L.honest link.old → L.honest link.new }
{
    match attempt(alloc, link, xid, call) {
        Ok(reply) => Ok(Some(reply)),
        Err(Miss::Failed) => match dial(port, link) {
            Ok(()) => Ok(None),
            Err(halt) => Err(halt),
        },
        Err(Miss::Silent) => Ok(None),
        Err(Miss::Flooded) => Err(Halt::Lost),
        Err(Miss::Memory) => Err(Halt::Memory),
    }
}

/// One attempt: the record goes out, and the one under its xid is waited for.
fn attempt<L: Link>(alloc: Global, link: &mut L, xid: u32, call: &Record) -> Result<Blob, Miss>
    ensures does { Does (L.told link.old) (L.told link.new) (L.faults link.old) (L.faults link.new) (Attempts xid call.now result) }
    ensures stays { (first : L) → L.stays first link.old → L.stays first link.new }
    ensures honest { L.honest link.old → L.honest link.new }
{
    match link.send(call) {
        Ok(()) => listen(alloc, link, xid),
        Err(LinkFault::Failed) => Err(Miss::Failed),
        Err(LinkFault::Memory) => Err(Miss::Memory),
    }
}

/// Waits for the record under the xid. Others are dropped.
fn listen<L: Link>(alloc: Global, link: &mut L, xid: u32) -> Result<Blob, Miss>
    ensures does { Does (L.told link.old) (L.told link.new) (L.faults link.old) (L.faults link.new) (Listens xid result) }
    ensures stays { (first : L) → L.stays first link.old → L.stays first link.new }
    ensures honest { L.honest link.old → L.honest link.new }
{
    let mut dropped = 0;
    while dropped < STRAY_RECORDS {
        let record = match receive(alloc, link) {
            Ok(record) => record,
            Err(miss) => return Err(miss),
        };
        if xid_of(record.bytes()) == Some(xid) {
            return Ok(record);
        }
        dropped += 1;
    }
    Err(Miss::Flooded)
}

/// Waits for a record.
fn receive<L: Link>(alloc: Global, link: &mut L) -> Result<Blob, Miss>
    ensures does { Does (L.told link.old) (L.told link.new) (L.faults link.old) (L.faults link.new) (Receives result) }
    ensures stays { (first : L) → L.stays first link.old → L.stays first link.new }
    ensures honest { L.honest link.old → L.honest link.new }
{
    let mut record = Vec::new(alloc);
    match link.receive(WAIT_MS, &mut record) {
        Received::Whole => Ok(Blob::of(record)),
        Received::Silent => Err(Miss::Silent),
        Received::Failed => Err(Miss::Failed),
        Received::Memory => Err(Miss::Memory),
    }
}
