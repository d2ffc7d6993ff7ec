//! Which call a record answers (RFC 5531, section 9: the xid of a reply is that of its call).

ghost use Rattle.std.specs.Prelude.{◌≡◌, ◌↔◌, ◌≤◌, ◌<◌, IsTrue, length, MatchOption};
ghost use Rattle.world_model.specs.Waiting.{Waits};
ghost use Rattle.trace_answers.specs.Sendings.{FirstSentAt, IsLastRecord, NeverSent, NoRecord};
ghost use Rattle.trace_answers.specs.Tests.{IsLeast, NoneBelow, brings_at, delivers_at, has_xid, sends_at};

use rpc_message::xid_of;
use world_model::Entry;

/// The place of the first record that was sent under the xid. None exactly if none was.
pub fn first_sent(entries: &[Entry], xid: u32) -> Option<usize>
    ensures { MatchOption result (NeverSent entries.now xid) (FirstSentAt entries.now xid) }
{
    first_sending(entries, xid)
}

/// The least place at which a record was sent under the xid.
fn first_sending(entries: &[Entry], xid: u32) -> Option<usize>
    ensures { MatchOption result (NoneBelow (sends_at entries.now xid) (length entries.now)) (IsLeast (sends_at entries.now xid) (length entries.now)) }
{
    let mut next = 0;
    while next < entries.len() {
        if sends_at(entries, xid, next) {
            return Some(next);
        }
        next += 1;
    }
    None
}

/// Whether the xid waits before a place: a record under it was sent, and none under it came since.
pub fn waits(entries: &[Entry], xid: u32, place: usize) -> bool
    requires { place ≤ length entries.now }
    ensures { IsTrue result ↔ Waits entries.now xid place }
{
    let mut left = place;
    while left > 0 {
        left -= 1;
        if sends_at(entries, xid, left) {
            return true;
        }
        if delivers_at(entries, xid, left) {
            return false;
        }
    }
    false
}

/// The place of the last record that came before a place. None exactly if none came.
pub fn last_record(entries: &[Entry], place: usize) -> Option<usize>
    requires { place ≤ length entries.now }
    ensures { MatchOption result (NoRecord entries.now place) (IsLastRecord entries.now place) }
{
    let mut left = place;
    while left > 0 {
        left -= 1;
        if brings_at(entries, left) {
            return Some(left);
        }
    }
    None
}

/// Whether an entry tells of a record that came.
#[tactic(auto, unfolding(crate::specs::Tests::brings_at))]
fn brings_at(entries: &[Entry], place: usize) -> bool
    requires { place < length entries.now }
    ensures { result ≡ brings_at entries.now place }
{
    match &entries[place] {
        Entry::Delivered { .. } => true,
        _ => false,
    }
}

/// Whether an entry sends a record under the xid.
#[tactic(auto, unfolding(crate::specs::Tests::sends_at))]
fn sends_at(entries: &[Entry], xid: u32, place: usize) -> bool
    requires { place < length entries.now }
    ensures { result ≡ sends_at entries.now xid place }
{
    match &entries[place] {
        Entry::Sent { bytes } => has_xid(bytes.bytes(), xid),
        _ => false,
    }
}

/// Whether an entry brings a record under the xid.
#[tactic(auto, unfolding(crate::specs::Tests::delivers_at))]
fn delivers_at(entries: &[Entry], xid: u32, place: usize) -> bool
    requires { place < length entries.now }
    ensures { result ≡ delivers_at entries.now xid place }
{
    match &entries[place] {
        Entry::Delivered { bytes } => has_xid(bytes.bytes(), xid),
        _ => false,
    }
}

/// Whether the record's first word is this xid.
#[tactic(auto, unfolding(crate::specs::Tests::has_xid))]
fn has_xid(bytes: &[u8], xid: u32) -> bool
    ensures { result ≡ has_xid bytes.now xid }
{
    match xid_of(bytes) {
        Some(first) => first == xid,
        None => false,
    }
}
