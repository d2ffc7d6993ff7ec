//! What a COMMIT's verifier tells of the bytes that the server had.
//!
//! `decide` tells that all is stable exactly if the server has no byte under another verifier, up to the number
//! (`IsAllUnder`). A number above all that were given is so after it too (`Numbers`, `upto-decided`).
#![tactic(auto)]

mod commit;

pub use commit::{Verdict, decide};
