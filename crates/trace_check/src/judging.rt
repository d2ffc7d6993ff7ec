//! The verdict on a history.

ghost use Rattle.std.specs.Prelude.{◌≡◌, ◌<◌, ◌^◌, IfOk, IfSome, length};
ghost use Rattle.world_model.specs.Mounts.{Origin};
ghost use Rattle.trace_data.specs.Histories.{history_of};
ghost use Rattle.trace_claims.specs.Judging.{IsOrigin};
ghost use Rattle.trace_claims.specs.Modes.{modes_of};
ghost use Rattle.trace_check.specs.declared.judging.Verdict.TheVariants.{No};
ghost use Rattle.trace_check.specs.Judged.{Says, SaysYes, entries_before, rule_of, verdict_of};

use std::alloc::Global;
use trace_claims::{Broken, first_broken};
use trace_data::Trace;
use trace_lawful::{First, first_of_server};
use xdr_codec::Memory;

/// A verdict on a history.
#[derive(Clone, Copy, Debug, PartialEq, Eq)]
pub enum Verdict {
    /// It keeps each rule.
    Yes,
    /// So many entries are the fewest that break a rule, and this is the first rule that they break: 1 lawful, 2 once,
    /// 3 fresh, 4 settled, 5 read or 6 short.
    No { rule: u8, entries: u32 },
}

/// The verdict on a history, if it has fewer than 2^32 entries. The origin is the root that is given, or that of the first MNT
/// that was sent.
pub fn check(alloc: Global, trace: &Trace) -> Result<Verdict, Memory>
    ensures says { length trace.now.entries.items < 2 ^ 32 → (origin : Origin) → IsOrigin trace.now origin
        → IfOk result (Says (modes_of trace.now) origin (history_of trace.now)) }
    ensures yes { length trace.now.entries.items < 2 ^ 32 → (origin : Origin) → IsOrigin trace.now origin
        → IfOk result (SaysYes (modes_of trace.now) origin (history_of trace.now)) }
{
    let first = first_of_server(alloc, trace)?;
    match first_broken(alloc, trace, entries_before(first))? {
        Some((entries, broken)) => Ok(claim_verdict(entries, broken)),
        None => Ok(server_verdict(first)),
    }
}

/// The most entries that are fewer than those that break a rule of the server.
fn entries_before(first: Option<First>) -> Option<usize>
    ensures { result ≡ entries_before first }
{
    match first {
        Some(first) => Some(first.entries.saturating_sub(1)),
        None => None,
    }
}

/// The verdict if no claim on bytes is broken before.
fn server_verdict(first: Option<First>) -> Verdict
    ensures { IfSome first (λ f. f.entries < 2 ^ 32) → result ≡ verdict_of first }
{
    match first {
        Some(first) => Verdict::No {
            rule: first.rule,
            entries: entry_count(first.entries),
        },
        None => Verdict::Yes,
    }
}

/// The verdict if a claim on bytes is broken first.
fn claim_verdict(entries: usize, broken: Broken) -> Verdict
    ensures { entries < 2 ^ 32 → result ≡ No (rule_of broken) entries }
{
    Verdict::No {
        rule: rule_of(broken),
        entries: entry_count(entries),
    }
}

/// The number of a claim's rule.
fn rule_of(broken: Broken) -> u8
    ensures { result ≡ rule_of broken }
{
    match broken {
        Broken::Settled => 4,
        Broken::Read => 5,
        Broken::Short => 6,
    }
}

/// A number of entries, or the greatest number of 32 bits if it is above that.
fn entry_count(entries: usize) -> u32
    ensures { entries < 2 ^ 32 → result ≡ entries }
{
    entries.min(u32::MAX as usize) as u32
}
