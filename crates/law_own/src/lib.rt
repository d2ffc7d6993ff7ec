//! The law of own bytes: what a client's read shows of what the client itself made stable before. Nothing here runs: each function has an empty body, and
//! its contract is the theorem.
#![tactic(auto)]

ghost use Rattle.law_own.specs.Own.{SettledAreRead, CutsAreRead};

/// A read shows each byte that was settled before the moments that it may show, unless it was touched (nfs(5), close-to-open consistency). The premises:
/// - bytes that were settled stay on the server;
/// - reads are current, and end where the file ended.
pub fn settled_bytes_are_read()
    ensures { SettledAreRead }
{}

/// A read shows zeros past the size of a truncate that succeeded before the moments that it may show, unless they were touched. The premises:
/// - places past the size of a truncate stay without bytes but zeros;
/// - reads are current.
pub fn cut_places_are_read()
    ensures { CutsAreRead }
{}
