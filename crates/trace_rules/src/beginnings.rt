//! The first beginning of a history that breaks a rule.

ghost use Rattle.std.specs.Prelude.{◌≡◌, true, length, MatchOption};
ghost use Rattle.world_model.specs.Once.{Once};
ghost use Rattle.world_model.specs.Fresh.{Fresh};
ghost use Rattle.world_model.specs.History.{history};
ghost use Rattle.trace_rules.specs.Decided.{all_below, in_time};
ghost use Rattle.trace_rules.specs.Freshness.{renews_all};
ghost use Rattle.trace_data.specs.Histories.{history_of};
ghost use Rattle.trace_rules.specs.Beginnings.{BreaksAt, FailsAt, OnceOf};

use crate::late::in_time;
use crate::stamps::renews_all;
use trace_data::Trace;
use world_model::Entry;

/// How many entries are the fewest in which a copy of a call is executed after its reply was taken. None exactly if
/// none is.
#[tactic(auto, using(crate::proofs::Breaking::late_breaks, crate::proofs::Breaking::late_whole))]
pub fn first_late(entries: &[Entry]) -> Option<usize>
    ensures { MatchOption result (Once entries.now) (BreaksAt OnceOf (history entries.now)) }
{
    match late_entry(entries) {
        Some(entry) => Some(entry + 1),
        None => None,
    }
}

/// How many entries are the fewest in which a change of an object gives it a stamp that it had. None exactly if none
/// does.
pub fn first_stale(trace: &Trace) -> Option<usize>
    ensures { MatchOption result (Fresh (history_of trace.now)) (BreaksAt Fresh (history_of trace.now)) }
{
    match stale_entry(trace) {
        Some(entry) => Some(entry + 1),
        None => None,
    }
}

/// The first entry that executes a call whose reply came before.
#[tactic(auto, using(crate::proofs::Below::all_below_steps))]
fn late_entry(entries: &[Entry]) -> Option<usize>
    ensures { MatchOption result (all_below (in_time entries.now) (length entries.now) ≡ true) (FailsAt (in_time entries.now) (length entries.now)) }
{
    let mut entry = 0;
    while entry < entries.len() {
        if !in_time(entries, entry) {
            return Some(entry);
        }
        entry += 1;
    }
    None
}

/// The first entry that gives an object that it changes a stamp that this had.
#[tactic(auto, using(crate::proofs::Below::all_below_steps))]
fn stale_entry(trace: &Trace) -> Option<usize>
    ensures { MatchOption result
        (all_below (renews_all trace.now.start.objects.items trace.now.updates.items) (length trace.now.entries.items) ≡ true)
        (FailsAt (renews_all trace.now.start.objects.items trace.now.updates.items) (length trace.now.entries.items)) }
{
    let mut entry = 0;
    while entry < trace.entries.len() {
        if !renews(trace, entry) {
            return Some(entry);
        }
        entry += 1;
    }
    None
}

/// Whether each object that the entry changes gets a stamp that it never had.
fn renews(trace: &Trace, entry: usize) -> bool
    ensures { result ≡ renews_all trace.now.start.objects.items trace.now.updates.items entry }
{
    renews_all(
        trace.start.objects.as_slice(),
        trace.updates.as_slice(),
        entry,
    )
}
