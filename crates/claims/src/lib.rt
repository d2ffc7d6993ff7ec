//! What a session of the client is claimed to show:
//! - the evidence of each answer;
//! - the cause of each call;
//! - how many calls there are;
//! - which bytes are stable;
//! - how old what is read may be.
//!
//! The definitions stand in specs/; this crate has no code.
#![tactic(auto)]
