//! The text on both sides of a session: reads the script that asks for operations, and writes the lines that answer
//! them.
#![tactic(auto)]

mod answer_line;
mod asked;
mod attr_text;
mod batch_end;
mod commands;
mod fault;
mod file_commands;
mod hex_text;
mod made_line;
mod path_commands;
mod refused_mount;
mod refused_script;
mod script;
mod shown_text;
mod tally;
mod value_text;
mod words;

pub use answer_line::line;
pub use batch_end::done_line;
pub use commands::operation;
pub use fault::{ParseFault, ScriptFault};
pub use made_line::{MadeLine, whole_line};
pub use refused_mount::mount_line;
pub use refused_script::refusal_line;
pub use script::{Script, ScriptLine, parse, parse_from};
pub use tally::tally_line;
