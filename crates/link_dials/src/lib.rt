//! Which ports a client dials, as the history of its link shows them. Nothing here runs: each function has an empty body, and its contract
//! is the theorem.
#![tactic(auto)]

ghost use Rattle.std.specs.Prelude.{ℕ, Option};
ghost use Rattle.world_model.specs.History.{History};
ghost use Rattle.link_dials.specs.Dials.{DialsOnly};

/// If one call of a link after another dials no port but this one, both together dial no other.
pub fn dials_follow()
    ensures { (port : ℕ) (a b c : Option History) → DialsOnly port a b → DialsOnly port b c → DialsOnly port a c }
{}
