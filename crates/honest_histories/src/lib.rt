//! Histories over a small honest server: one of a client that does nothing wrong, on which the claims say something, and those
//! of wrong clients, of which each breaks one claim. They are theorems in proofs/; this crate has no code.
#![tactic(auto)]
