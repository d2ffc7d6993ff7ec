//! What a record says of the call that it answers.

ghost use Rattle.std.specs.Prelude.{◌≡◌, ℕ};
ghost use Rattle.client_shelf.specs.Coming.{reply_of};
ghost use Rattle.world_model.specs.declared.message.Call.{Call};
ghost use Rattle.world_model.specs.Messages.{HasXid};
ghost use Rattle.call_replies.specs.Says.{said_of, IsCallOf, Says};

use crate::record::results_of;
use crate::results::came_in;
use client_shelf::Came;
use xdr_codec::Lent;

/// What a record says that came under the xid of a waiting call of this procedure of NFS (RFC 5531, section 9; RFC 1813,
/// section 3.3). It is the reply, whose status may be a failure's, or why there is none. The tests go in this order:
/// - `Bad(7)`: it has more than 131,072 bytes.
/// - `Bad(1)`: it isn't a reply.
/// - `Bad(2)`: the grammar spells neither an accepted reply to the procedure nor a refusal.
/// - `Rpc`: RPC refuses the call.
///
/// If the record can be shared, the data of a READ can be, too.
pub fn came_of<'a>(proc: u32, rec: &Lent<'a>) -> Came<'a>
    ensures exact { reply_of result ≡ said_of proc rec.now }
    ensures says { (x : ℕ) → HasXid rec.now x → (call : Call) → IsCallOf proc call → Says x call rec.now (reply_of result) }
{
    match results_of(rec.bytes()) {
        Ok(results) => came_in(proc, rec, results),
        Err(fault) => Came::Refused(fault),
    }
}
