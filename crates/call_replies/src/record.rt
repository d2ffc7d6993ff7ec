//! The results in a record, or why it has none.

ghost use Rattle.std.specs.Prelude.{◌≡◌, ℕ, IfOk};
ghost use Rattle.std.specs.Result.{result_map_both};
ghost use Rattle.world_model.specs.Messages.{HasXid};
ghost use Rattle.call_replies.specs.Data.{EndsIn};
ghost use Rattle.call_replies.specs.Records.{results_in, denial_number, ResultsIn};

use limits::RECORD_BYTES;
use rpc_message::{Reply, ReplyFault, read_reply};
use world_model::Fault;

/// The number of RPC_MISMATCH among the refusals, and what is added to an auth status.
const MISMATCH: u64 = 100;

const AUTH: u64 = 200;

/// The results in the record, if the call was accepted (RFC 5531, section 9). Else one of these:
/// - `Bad(7)`: it has more than 131,072 bytes.
/// - `Bad(1)`: it isn't a reply.
/// - `Bad(2)`: the grammar doesn't spell it.
/// - `Rpc`: RPC refuses the call.
pub fn results_of<'a>(rec: &'a [u8]) -> Result<&'a [u8], Fault>
    ensures exact { result_map_both (λ r. r.now) (λ e. e) result ≡ results_in rec.entry.now }
    ensures means { (x : ℕ) → HasXid rec.entry.now x → ResultsIn x rec.entry.now (result_map_both (λ r. r.now) (λ e. e) result) }
    ensures last { IfOk result (λ r. EndsIn r.now rec.entry.now) }
{
    if rec.len() > RECORD_BYTES {
        return Err(Fault::Bad(7));
    }
    match read_reply(rec) {
        Ok(Reply::Accepted { results, .. }) => Ok(results),
        Ok(Reply::Refused { stat, .. }) => Err(Fault::Rpc(u64::from(stat))),
        Ok(Reply::Denied { stat, first, .. }) => Err(Fault::Rpc(denial(stat, first))),
        Err(ReplyFault::NotReply) => Err(Fault::Bad(1)),
        Err(ReplyFault::Xdr(_)) => Err(Fault::Bad(2)),
    }
}

/// The number of a denial.
fn denial(stat: u32, first: u32) -> u64
    ensures { result ≡ denial_number stat first }
{
    if stat == 0 {
        MISMATCH
    } else {
        AUTH + u64::from(first)
    }
}
