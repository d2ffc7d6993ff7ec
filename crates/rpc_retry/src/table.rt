//! The calls that wait by xid, in order of making: their attempts.

ghost use Rattle.std.specs.Prelude.{◌≡◌, position};
ghost use Rattle.indexmap.specs.IndexMap.{values};
ghost use Rattle.rpc_retry.specs.Waiting.{first_given_up, failed, is_due};

use crate::waiting::Waiting;
use indexmap::IndexMap;
use limits::ATTEMPTS;

/// The place of the oldest call that is due.
pub fn place_of_due<P>(calls: &IndexMap<u32, Waiting<P>>) -> Option<usize>
    ensures { result ≡ position is_due (values calls.now) }
{
    calls.values().position(|call| call.due)
}

/// The xid of the oldest call of which four attempts were made.
pub fn oldest_given_up<P>(calls: &IndexMap<u32, Waiting<P>>) -> Option<u32>
    ensures { result ≡ first_given_up calls.now.entries }
{
    for (xid, call) in calls.iter() {
        if call.attempts == ATTEMPTS {
            return Some(*xid);
        }
    }
    None
}

/// The attempts that run have failed.
pub fn fail_all<P>(calls: &mut IndexMap<u32, Waiting<P>>, again: bool)
    ensures { calls.new.entries ≡ failed again calls.old.entries }
{
    for at in 0..calls.len() {
        calls[at].fail(again);
    }
}
