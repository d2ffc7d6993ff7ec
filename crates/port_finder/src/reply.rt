//! What the record means that came under the xid of a call of GETPORT.

ghost use Rattle.std.specs.Prelude.{◌≡◌, ℕ, IfOk};
ghost use Rattle.std.specs.Result.{result_map_both};
ghost use Rattle.world_model.specs.Messages.{HasXid};
ghost use Rattle.port_finder.specs.Replies.{ResultsIn, denial_number, IsPort, registered_port, Means};

use limits::RECORD_BYTES;
use portmap_calls::read_port;
use rpc_message::{Reply, ReplyFault, read_reply};

/// The number of RPC_MISMATCH among the refusals, and what is added to an auth status.
const MISMATCH: u64 = 100;

const AUTH: u64 = 200;

/// Why a record tells no port.
#[derive(Clone, Copy)]
pub enum Refusal {
    /// None is registered, or one above 65,535.
    None,
    /// The call was refused by RPC, with this number.
    Rpc(u64),
    /// The record breaks this rule: it is no reply (1), isn't spelled by the grammar (2), or is too long (7).
    Bad(u32),
}

/// The port that the record tells.
pub fn told_port(rec: &[u8]) -> Result<u16, Refusal>
    ensures means { (x : ℕ) → HasXid rec.now x → Means x rec.now result }
    ensures range { IfOk result IsPort }
{
    let results = match results_of(rec) {
        Ok(results) => results,
        Err(refusal) => return Err(refusal),
    };
    match read_port(results) {
        Ok(port) => registered(port),
        Err(_) => Err(Refusal::Bad(2)),
    }
}

/// A port that is registered.
fn registered(port: u32) -> Result<u16, Refusal>
    ensures is { result ≡ registered_port port }
    ensures range { IfOk result IsPort }
{
    if port == 0 || port > 65_535 {
        Err(Refusal::None)
    } else {
        Ok(port as u16)
    }
}

/// The results in the record, if the call was accepted.
fn results_of<'a>(rec: &'a [u8]) -> Result<&'a [u8], Refusal>
    ensures { (x : ℕ) → HasXid rec.entry.now x → ResultsIn x rec.entry.now (result_map_both (λ r. r.now) (λ e. e) result) }
{
    if rec.len() > RECORD_BYTES {
        return Err(Refusal::Bad(7));
    }
    match read_reply(rec) {
        Ok(Reply::Accepted { results, .. }) => Ok(results),
        Ok(Reply::Refused { stat, .. }) => Err(Refusal::Rpc(u64::from(stat))),
        Ok(Reply::Denied { stat, first, .. }) => Err(Refusal::Rpc(denial(stat, first))),
        Err(ReplyFault::NotReply) => Err(Refusal::Bad(1)),
        Err(ReplyFault::Xdr(_)) => Err(Refusal::Bad(2)),
    }
}

/// The number of a denial.
fn denial(stat: u32, first: u32) -> u64
    ensures { result ≡ denial_number stat first }
{
    if stat == 0 {
        MISMATCH
    } else {
        AUTH + u64::from(first)
    }
}
