//! The law of both sides: when the history of two clients is lawful as each of them sees it. Nothing here runs: the function has an empty body, and its
//! contract is the theorem.
#![tactic(auto)]

ghost use Rattle.law_sides.specs.Whole.{SidesAreLawful};

/// A history of two clients that is lawful as if it were that of one is lawful as each of them sees it. The conditions:
/// - each call is executed for the end that sent it;
/// - each reply comes to the end whose call it answers;
/// - what a client does leaves the server as it is.
pub fn sides_are_lawful()
    ensures { SidesAreLawful }
{}
