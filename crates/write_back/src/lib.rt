//! The bytes that were written and that the server hasn't made stable, by file.
//!
//! What a caller knows beyond the clauses follows from the definitions that they cite, by lemmas in `proofs/`:
//! - `NextPiece`: a piece has from 1 to `wsize` bytes, each of which is to be sent as the piece is (`fits-call`). If none is
//!   sent, each place that waits stands in a segment that shares a place with one in flight (`waits-blocked`). If nothing is in
//!   flight, it has a later number (`waits-later`).
//! - `EndAndBytes`: the byte that `overlay` writes at each place (`shown-at`, `newest-is`). The place before `end` has a byte,
//!   and there is none from there on (`end-none`, `end-some`, `end-clear`).
//! - `Xids`: what is in flight under one xid stays as others go (`under-other`, `under-gone`). It is what stands at its places
//!   (`fly-under`), and is the same under another xid (`renumbers-so`).
//! - `OldestPlace`: the least number that is pending stands at a place of the file that `oldest` tells (`oldest-stands`).
//! - `Numbers`: a number above all that were given is above all that are pending, after each call (`AllUpTo`, `newest`).
#![tactic(auto)]

mod ages;
mod change;
mod file_bytes;
mod in_flight;
mod piece;
mod run;
mod segment;
mod segment_map;
mod sent;
mod spans;
mod state;
mod walks;
mod write_back;

pub use piece::{AddFault, Piece};
pub use state::{Ready, State};
pub use write_back::WriteBack;
