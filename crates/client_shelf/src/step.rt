//! What a step of an operation comes to.

use world_model::{Answer, Call};

/// What a step of an operation comes to.
#[derive(Debug, Drop)]
pub enum Step {
    /// It asks for this call, which is made under the xid of its turn.
    Send(Call),
    /// It waits: for a reply, for room, or for another operation on its file.
    Wait,
    /// It has its answer.
    Done(Answer),
}
