//! Replies and the calls that they answer, by `rpc_retry`.

ghost use Rattle.std.specs.Prelude.{◌≡◌, option_map};
ghost use Rattle.rpc_message.specs.Call.{xid_at};
ghost use Rattle.rpc_retry.specs.Take.{after_taking, awaited};

use rpc_retry::{Calls, Taken};

/// The purpose of the outstanding call that a record answers, by its xid; none if there is no such call. That call is no longer
/// outstanding, and all others still are.
pub fn answered(calls: &mut Calls<u32>, rec: &[u8]) -> Option<u32>
    ensures purpose { result ≡ option_map (λ call. call.purpose) (awaited (xid_at rec.entry.now) calls.old.calls) }
    ensures calls { calls.new.calls ≡ after_taking (xid_at rec.entry.now) calls.old.calls }
    ensures made { calls.new.made ≡ calls.old.made }
{
    match calls.take(rec) {
        Taken::Took { purpose, .. } => Some(purpose),
        Taken::Dropped => None,
    }
}
