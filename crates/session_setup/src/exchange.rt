//! A call is sent until it is answered.

ghost use Rattle.std.specs.Prelude.{◌≤◌, ℕ, List};
ghost use Rattle.world_model.specs.declared.entry.Entry.{Entry};
ghost use Rattle.link_dials.specs.Dials.{DialsOnly};
ghost use Rattle.session_setup.specs.Along.{Along};
ghost use Rattle.session_setup.specs.Exchanges.{KeepsCalls, Transmits, HearsOne, Awaits, Attempts, EndsAttempt, GoesOn, Tries, Exchanges};
ghost use Rattle.session_setup.specs.Takings.{AnswersSo};

use crate::connect::connect;
use crate::stop::Stop;
use limits::{ATTEMPTS, STRAY_RECORDS, WAIT_MS};
use outside::{Link, LinkFault, Received};
use rpc_retry::{AfterFailure, Calls, Taken};
use std::alloc::Global;
use xdr_codec::Blob;

/// What an attempt of a call comes to.
#[derive(Debug, Drop)]
pub(crate) enum Heard {
    /// The record that answers it.
    Reply(Blob),
    /// No record came in time.
    Silent,
    /// The link failed.
    Failed,
    /// The session is lost.
    Lost,
    /// Out of memory.
    Memory,
}

/// Sends the call that waits, over and over, until a record answers it. The port is that of its service, which is connected to again
/// after a failure of the link.
pub(crate) fn exchange<L: Link>(
    alloc: Global,
    port: u16,
    link: &mut L,
    calls: &mut Calls<()>,
) -> Result<Blob, Stop>
    ensures goes { Along (L.told link.old) (L.told link.new) (Exchanges calls.old calls.new result) }
    ensures dials { DialsOnly port (L.told link.old) (L.told link.new) }
    ensures keeps { KeepsCalls calls.old calls.new }
    ensures stays { (first : L) → L.stays first link.old → L.stays first link.new }
    ensures honest { L.honest link.old → L.honest link.new }
{
    let mut dropped = 0;
    for _ in 0..ATTEMPTS {
        match attempt_once(alloc, port, link, calls, &mut dropped) {
            Ok(Some(record)) => return Ok(record),
            Ok(None) => {}
            Err(stop) => return Err(stop),
        }
    }
    Err(Stop::Lost)
}

/// Makes one attempt, and gives the record that answers it. If none came the call is due again.
fn attempt_once<L: Link>(
    alloc: Global,
    port: u16,
    link: &mut L,
    calls: &mut Calls<()>,
    dropped: &mut u32,
) -> Result<Option<Blob>, Stop>
    requires few { dropped.old ≤ 65536 }
    ensures goes { Along (L.told link.old) (L.told link.new) (Tries calls.old calls.new dropped.old dropped.new result) }
    ensures dials { DialsOnly port (L.told link.old) (L.told link.new) }
    ensures few { dropped.new ≤ 65536 }
    ensures keeps { KeepsCalls calls.old calls.new }
    ensures stays { (first : L) → L.stays first link.old → L.stays first link.new }
    ensures honest { L.honest link.old → L.honest link.new }
{
    match attempt(alloc, link, calls, dropped) {
        Heard::Reply(record) => Ok(Some(record)),
        Heard::Silent => match end_attempt(calls) {
            Ok(()) => Ok(None),
            Err(stop) => Err(stop),
        },
        Heard::Failed => match recover(port, link, calls) {
            Ok(()) => Ok(None),
            Err(stop) => Err(stop),
        },
        Heard::Lost => Err(Stop::Lost),
        Heard::Memory => Err(Stop::Memory),
    }
}

/// Sends the call that waits, and waits for its reply.
fn attempt<L: Link>(alloc: Global, link: &mut L, calls: &mut Calls<()>, dropped: &mut u32) -> Heard
    requires few { dropped.old ≤ 65536 }
    ensures goes { Along (L.told link.old) (L.told link.new) (Attempts calls.old calls.new dropped.old dropped.new result) }
    ensures dials { (port : ℕ) → DialsOnly port (L.told link.old) (L.told link.new) }
    ensures few { dropped.new ≤ 65536 }
    ensures keeps { KeepsCalls calls.old calls.new }
    ensures stays { (first : L) → L.stays first link.old → L.stays first link.new }
    ensures honest { L.honest link.old → L.honest link.new }
{
    match transmit(link, calls) {
        Ok(()) => await_reply(alloc, link, calls, dropped),
        Err(LinkFault::Failed) => Heard::Failed,
        Err(LinkFault::Memory) => Heard::Memory,
    }
}

/// Sends the record that is due.
fn transmit<L: Link>(link: &mut L, calls: &mut Calls<()>) -> Result<(), LinkFault>
    ensures goes { Along (L.told link.old) (L.told link.new) (Transmits calls.old calls.new result) }
    ensures dials { (port : ℕ) → DialsOnly port (L.told link.old) (L.told link.new) }
    ensures keeps { KeepsCalls calls.old calls.new }
    ensures stays { (first : L) → L.stays first link.old → L.stays first link.new }
    ensures honest { L.honest link.old → L.honest link.new }
{
    match calls.next_send() {
        Some(call) => link.send(&call.bytes),
        None => Ok(()),
    }
}

/// Waits for the record that answers the call. Others are dropped.
fn await_reply<L: Link>(
    alloc: Global,
    link: &mut L,
    calls: &mut Calls<()>,
    dropped: &mut u32,
) -> Heard
    requires few { dropped.old ≤ 65536 }
    ensures goes { Along (L.told link.old) (L.told link.new) (Awaits calls.old calls.new dropped.old dropped.new result) }
    ensures dials { (port : ℕ) → DialsOnly port (L.told link.old) (L.told link.new) }
    ensures few { dropped.new ≤ 65536 }
    ensures keeps { KeepsCalls calls.old calls.new }
    ensures stays { (first : L) → L.stays first link.old → L.stays first link.new }
    ensures honest { L.honest link.old → L.honest link.new }
{
    while *dropped < STRAY_RECORDS {
        if let Some(heard) = hear(alloc, link, calls) {
            return heard;
        }
        *dropped += 1;
    }
    Heard::Lost
}

/// Waits for one record. None if it answers no call.
fn hear<L: Link>(alloc: Global, link: &mut L, calls: &mut Calls<()>) -> Option<Heard>
    ensures goes { Along (L.told link.old) (L.told link.new) (HearsOne calls.old calls.new result) }
    ensures dials { (port : ℕ) → DialsOnly port (L.told link.old) (L.told link.new) }
    ensures keeps { KeepsCalls calls.old calls.new }
    ensures stays { (first : L) → L.stays first link.old → L.stays first link.new }
    ensures honest { L.honest link.old → L.honest link.new }
{
    let mut record = Vec::new(alloc);
    match link.receive(WAIT_MS, &mut record) {
        Received::Whole => {
            let record = Blob::of(record);
            if answers(calls, record.bytes()) {
                Some(Heard::Reply(record))
            } else {
                None
            }
        }
        Received::Silent => Some(Heard::Silent),
        Received::Failed => Some(Heard::Failed),
        Received::Memory => Some(Heard::Memory),
    }
}

/// Whether the record answers the call that waits, which then waits no more.
fn answers(calls: &mut Calls<()>, record: &[u8]) -> bool
    ensures answers { AnswersSo calls.old record.now result calls.new }
    ensures keeps { KeepsCalls calls.old calls.new }
{
    match calls.take(record) {
        Taken::Took { .. } => true,
        Taken::Dropped => false,
    }
}

/// The attempt that ran has failed: the call is due again, unless this was its last.
fn end_attempt(calls: &mut Calls<()>) -> Result<(), Stop>
    ensures ends { (h : List Entry) → EndsAttempt calls.old calls.new result h }
    ensures keeps { KeepsCalls calls.old calls.new }
{
    match calls.failed() {
        AfterFailure::Resend => Ok(()),
        AfterFailure::GivenUp(_) => Err(Stop::Lost),
    }
}

/// The link has failed: the attempt has too, and the call is due again over a new connection.
fn recover<L: Link>(port: u16, link: &mut L, calls: &mut Calls<()>) -> Result<(), Stop>
    ensures goes { Along (L.told link.old) (L.told link.new) (GoesOn calls.old calls.new result) }
    ensures dials { DialsOnly port (L.told link.old) (L.told link.new) }
    ensures keeps { KeepsCalls calls.old calls.new }
    ensures stays { (first : L) → L.stays first link.old → L.stays first link.new }
    ensures honest { L.honest link.old → L.honest link.new }
{
    match end_attempt(calls) {
        Ok(()) => connect(port, link),
        Err(stop) => Err(stop),
    }
}
