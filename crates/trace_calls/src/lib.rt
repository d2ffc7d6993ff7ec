//! Which call and which reply the records of a given history are.
#![tactic(auto)]

mod calling;
mod coming;
mod procedures;
mod replying;
mod sending;
mod spellable;

pub use calling::call_record;
pub use coming::is_replied;
pub use replying::reply_to;
pub use sending::{spells_call, was_sent};
pub use spellable::{is_spellable, is_spellable_reply};
