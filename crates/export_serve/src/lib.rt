//! Serves calls as records: reads what a record asks for, spells replies, and answers a record from an export or from the
//! replies that it kept.
#![tactic(auto)]

mod asking;
mod dir_results;
mod file_results;
mod kept_replies;
mod listing_results;
mod refusal;
mod request;
mod service;
mod spelling;

pub use asking::asked;
pub use request::Asked;
pub use service::Service;
pub use spelling::spelled;
