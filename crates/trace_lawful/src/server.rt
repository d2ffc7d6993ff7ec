//! The first of the rules of a server that a history breaks.

ghost use Rattle.std.specs.Prelude.{IfOk, MatchOption};
ghost use Rattle.trace_data.specs.Histories.{history_of};
ghost use Rattle.trace_lawful.specs.Judged.{KeepsServer, FirstBroken};

use crate::earliest::{First, earlier, with_rule};
use crate::lawful::first_unlawful;
use std::alloc::Global;
use trace_data::Trace;
use trace_rules::{first_late, first_stale};
use xdr_codec::Memory;

/// The fewest entries that break a rule of the server, and the first rule that they break: 1 lawful, 2 once or 3 fresh. None
/// exactly if the history keeps all three.
pub fn first_of_server(alloc: Global, trace: &Trace) -> Result<Option<First>, Memory>
    ensures { IfOk result (λ first. MatchOption first (KeepsServer (history_of trace.now)) (λ f. FirstBroken (history_of trace.now) f.entries f.rule)) }
{
    let unlawful = first_unlawful(alloc, trace)?;
    let late = first_late(trace.entries.as_slice());
    let stale = first_stale(trace);
    let first = earlier(with_rule(unlawful, 1), with_rule(late, 2));
    Ok(earlier(first, with_rule(stale, 3)))
}
