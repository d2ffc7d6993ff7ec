//! Where operations end.

ghost use Rattle.std.specs.Prelude.{◌≡◌, ◌<◌, length, MatchOption};
ghost use Rattle.trace_answers.specs.Ends.{EndsThere, NeverEnds};
ghost use Rattle.trace_answers.specs.Tests.{IsFirst, NonePast, answers_at, began_at};

use world_model::Entry;

/// Where the operation ends that began at a place: at the first answer of its lane and line past it. None exactly if it
/// isn't answered, or if none began there.
pub fn end_of(entries: &[Entry], began: usize) -> Option<usize>
    ensures { MatchOption result (NeverEnds entries.now began) (EndsThere entries.now began) }
{
    if began >= entries.len() {
        return None;
    }
    match began_at(entries, began) {
        Some((lane, line)) => first_answer(entries, lane, line, began),
        None => None,
    }
}

/// The lane and the line of the operation that began at a place.
#[tactic(auto, unfolding(crate::specs::Tests::began_at))]
fn began_at(entries: &[Entry], place: usize) -> Option<(u8, u32)>
    requires { place < length entries.now }
    ensures { result ≡ began_at entries.now place }
{
    match &entries[place] {
        Entry::Began { lane, line, .. } => Some((*lane, *line)),
        _ => None,
    }
}

/// The first answer of a lane and line past a place.
fn first_answer(entries: &[Entry], lane: u8, line: u32, began: usize) -> Option<usize>
    requires { began < length entries.now }
    ensures { MatchOption result (NonePast (answers_at entries.now lane line) began (length entries.now))
        (IsFirst (answers_at entries.now lane line) began (length entries.now)) }
{
    let mut next = began + 1;
    while next < entries.len() {
        if answers_at(entries, lane, line, next) {
            return Some(next);
        }
        next += 1;
    }
    None
}

/// Whether an entry answers that lane and line.
#[tactic(auto, unfolding(crate::specs::Tests::answers_at))]
fn answers_at(entries: &[Entry], lane: u8, line: u32, place: usize) -> bool
    requires { place < length entries.now }
    ensures { result ≡ answers_at entries.now lane line place }
{
    match &entries[place] {
        Entry::Answered {
            lane: of,
            line: at,
            ..
        } => *of == lane && *at == line,
        _ => false,
    }
}
