//! Serves an export over links and datagrams: each record that comes is answered from the export or as its port mapper, and
//! what is sent is exactly that answer.
#![tactic(auto)]

mod connection;
mod next;
mod senders;
mod serving;
mod theorems;

pub use next::End;
pub use serving::Serving;
pub use theorems::{sent_answer, sent_answers_to};
