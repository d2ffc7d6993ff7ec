//! Copies that come late.

ghost use Rattle.std.specs.Prelude.{◌≡◌, ◌↔◌, ◌≤◌, ◌<◌, IsTrue, length};
ghost use Rattle.world_model.specs.Once.{Once};
ghost use Rattle.trace_rules.specs.Decided.{has_xid, delivers_at, executed_at, came_before, is_first, in_time, once};

use rpc_message::xid_of;
use world_model::Entry;

/// Whether no copy of a call is executed after its reply was taken (RFC 1813, section 4.5).
pub fn is_once(history: &[Entry]) -> bool
    ensures { IsTrue result ↔ Once history.now }
{
    once(history)
}

#[tactic(auto, using(crate::proofs::Below::all_below_steps), unfolding(crate::specs::Decided::once))]
fn once(history: &[Entry]) -> bool
    ensures { result ≡ once history.now }
{
    let mut entry = 0;
    while entry < history.len() {
        if !in_time(history, entry) {
            return false;
        }
        entry += 1;
    }
    true
}

/// Whether an entry executes no call whose reply came before.
#[tactic(auto, unfolding(crate::specs::Decided::in_time))]
pub(crate) fn in_time(history: &[Entry], entry: usize) -> bool
    requires { entry < length history.now }
    ensures { result ≡ in_time history.now entry }
{
    match executed_at(history, entry) {
        Some(xid) => !came_before(history, xid, entry),
        None => true,
    }
}

/// The xid of the call that an entry executes.
#[tactic(auto, unfolding(crate::specs::Decided::executed_at))]
fn executed_at(history: &[Entry], entry: usize) -> Option<u32>
    requires { entry < length history.now }
    ensures { result ≡ executed_at history.now entry }
{
    match &history[entry] {
        Entry::Executed { xid, .. } => Some(*xid),
        _ => None,
    }
}

/// Whether a record of the xid came before an entry.
#[tactic(auto, using(crate::proofs::Below::any_below_steps), unfolding(crate::specs::Decided::came_before))]
fn came_before(history: &[Entry], xid: u32, entry: usize) -> bool
    requires { entry ≤ length history.now }
    ensures { result ≡ came_before history.now xid entry }
{
    let mut i = 0;
    while i < entry {
        if delivers_at(history, xid, i) {
            return true;
        }
        i += 1;
    }
    false
}

/// Whether an entry brings a record of the xid.
#[tactic(auto, unfolding(crate::specs::Decided::delivers_at))]
fn delivers_at(history: &[Entry], xid: u32, entry: usize) -> bool
    requires { entry < length history.now }
    ensures { result ≡ delivers_at history.now xid entry }
{
    match &history[entry] {
        Entry::Delivered { bytes } => has_xid(bytes.bytes(), xid),
        _ => false,
    }
}

/// Whether the record's first word is this xid.
#[tactic(auto, unfolding(crate::specs::Decided::has_xid))]
fn has_xid(bytes: &[u8], xid: u32) -> bool
    ensures { result ≡ has_xid bytes.now xid }
{
    match xid_of(bytes) {
        Some(first) => first == xid,
        None => false,
    }
}
