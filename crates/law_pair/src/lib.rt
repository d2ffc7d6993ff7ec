//! The law of two clients: what one client's read shows of what the other made stable before it opened the file. Nothing here runs: the function has an
//! empty body, and its contract is the theorem.
#![tactic(auto)]

ghost use Rattle.law_pair.specs.Seen.{SettledAreSeen};

/// Let one client settle bytes. A read of the other, in an open that began afterwards, shows each of them, or a byte that is pending in the reader.
/// That is so unless the byte was touched (nfs(5), close-to-open consistency). The premises:
/// - bytes that the one client settled stay on the server;
/// - the other's reads are current, and end where the file ended;
/// - each open asks anew.
pub fn settled_bytes_are_seen()
    ensures { SettledAreSeen }
{}
