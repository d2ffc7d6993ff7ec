//! Histories as text: reads a trace, and writes one.
#![tactic(auto)]

mod answers;
mod calls;
mod discard;
mod draft;
mod entry_lines;
mod entry_texts;
mod fault;
mod head_lines;
mod holding;
mod listing;
mod object_lines;
mod object_texts;
mod op_texts;
mod page;
mod printing;
mod reading;
mod words;

pub use fault::TraceFault;
pub use printing::print;
pub use reading::read;
