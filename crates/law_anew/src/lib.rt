//! The law of later clients: what an honest server is to a client that comes after another one over the same link. Nothing here runs: the function has an
//! empty body, and its contract is the theorem.
#![tactic(auto)]

ghost use Rattle.law_anew.specs.Seen.{LaterClientsSee};

/// A lawful history is lawful, too, as a client sees it that comes after its first part. It shows the same servers. A condition: nothing that comes then has
/// to do with a call that was sent in that part. If no call was executed anew, or each change had its stamp, that is so of it too.
pub fn later_clients_see_honest_servers()
    ensures { LaterClientsSee }
{}
