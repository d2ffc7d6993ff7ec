//! Two clients of one server: a run of two scripts, and what the sessions of both show of each other.
#![tactic(auto)]

ghost use Rattle.two_clients.specs.Sees.{OneSeesTheOther, SessionsSeeEachOther};

mod pair;

pub use pair::run_pair;

/// Each of two sessions over one server sees what the other made stable before an open of its own (nfs(5), close-to-open consistency): both by what a session
/// promises, and by the headlines of two runs.
pub fn sessions_see_each_other()
    ensures promised { OneSeesTheOther }
    ensures runs { SessionsSeeEachOther }
{}
