//! The commands `run` and `replay` of a program, over its words and standard streams. Programs that have them end alike, and say the
//! same on standard error.
//! - `run HOST WORDS` runs the script on standard input with the server at HOST over TCP.
//! - `run --udp HOST WORDS` does so over UDP.
//! - `replay SCHEDULE WORDS` runs it over a simulated server, which the file SCHEDULE describes.
//!
//! With `--batches` before the host or the schedule each of them runs batch after batch.
#![tactic(auto)]

mod commands;
mod ending;
mod replay;
mod run;
mod schedule_file;
mod telling;
mod words;

pub use commands::session_command;
pub use ending::{SessionEnding, closed};
pub use schedule_file::{refused, schedule_text};
pub use telling::{message, report, report_status};
pub use words::{program_words, take_word};
