//! Where operations end.

ghost use Rattle.std.specs.Prelude.{◌≡◌, ◌<◌, length};
ghost use Rattle.trace_claims.specs.Endings.{outcome_of, outcome_at, EndsSo};

use world_model::{Answer, Entry};

/// How an operation ended.
#[derive(Clone, Copy, Debug, PartialEq, Eq)]
pub(crate) enum Outcome {
    Unanswered,
    Done,
    Refused,
}

/// Where an operation ended, and how.
#[derive(Clone, Copy, Debug)]
pub(crate) struct Ending {
    /// The place of its answer, or the end of the history.
    pub(crate) end: usize,
    pub(crate) outcome: Outcome,
}

/// How the operation that began at a place ended.
pub(crate) fn end_of(entries: &[Entry], began: usize) -> Ending
    ensures { EndsSo entries.now began result }
{
    match trace_answers::end_of(entries, began) {
        Some(end) => Ending {
            end,
            outcome: outcome_at(entries, end),
        },
        None => Ending {
            end: entries.len(),
            outcome: Outcome::Unanswered,
        },
    }
}

/// What the answer at a place says.
#[tactic(auto, unfolding(crate::specs::Endings::outcome_at))]
fn outcome_at(entries: &[Entry], place: usize) -> Outcome
    requires { place < length entries.now }
    ensures { result ≡ outcome_at entries.now place }
{
    match &entries[place] {
        Entry::Answered { answer, .. } => outcome_of(answer),
        _ => Outcome::Unanswered,
    }
}

fn outcome_of(answer: &Answer) -> Outcome
    ensures { result ≡ outcome_of answer.now }
{
    match answer {
        Answer::Done(_) => Outcome::Done,
        Answer::Refused(_) => Outcome::Refused,
    }
}
