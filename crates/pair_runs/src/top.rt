//! The top call.

ghost use Rattle.std.specs.Prelude.{◌≡◌, ◌≤◌, ◌⊎◌, [], All, IfOk, IfErr, length};
ghost use Rattle.outside.specs.Causes.{Rose};
ghost use Rattle.nfs_script.specs.Asked.{IsAskedLine};
ghost use Rattle.lane_session.specs.Statuses.{IsCutOff};
ghost use Rattle.script_runs.specs.Readings.{Reads};
ghost use Rattle.script_runs.specs.Run.{Says};
ghost use Rattle.pair_runs.specs.Beginnings.{ReadsBoth, ReadsTexts};
ghost use Rattle.pair_runs.specs.Clients.{AreLetters, AreReady, IsEnding, IsPairStatus};
ghost use Rattle.pair_runs.specs.PairGoing.{PairOpens, PairPasses};
ghost use Rattle.pair_runs.specs.PairRuns.{BothRan, NoneBegan, PairLeaves, PairRelates};

use crate::client::Client;
use crate::start::{script_of, text_of};
use crate::status;
use crate::turns::Pair;
use nfs_script::Script;
use outside::{Clock, PairLink, Sink, Source};
use pair_ends::Side;
use std::alloc::Global;
use xdr_codec::Memory;

/// The first xid of client a.
const FIRST_XID: u32 = 1;
/// The first xid of client b.
const OTHER_XID: u32 = 1_073_741_825;

/// Runs two scripts, each in a client of its own over its end of the link. Writes an answer line for each operation behind the letter of its client. Each
/// client has the root `0000000000000001`, makes its calls as nobody, and asks for the server's sizes before the first turn. Turns follow the letters `a` and
/// `b` of the order, and then come one after the other until both are done.
///
/// It answers the status:
/// - 0: each operation succeeded;
/// - 1: one was refused;
/// - 3: a script is refused;
/// - 4: a source failed;
/// - 5: the sink failed;
/// - 6: a client's link is lost;
/// - 7: there was no memory outside an operation.
pub fn run_pair<S: Source, T: Source, P: PairLink, C: Clock, K: Sink>(
    alloc: Global,
    order: &[u8],
    a: &mut S,
    b: &mut T,
    link: &mut P,
    clock: &mut C,
    out: &mut K,
) -> u8
    requires { AreLetters order.now }
    ensures statuses { IsPairStatus result }

    // 4 and 5 come only if the outside failed.
    ensures source { result ≡ 4 → Rose (S.faults a.old) (S.faults a.new) ⊎ Rose (T.faults b.old) (T.faults b.new) }
    ensures sink { result ≡ 5 → Rose (K.faults out.old) (K.faults out.new) }

    // A link that is honest stays so: what it tells is lawful as each client sees it.
    ensures honest { P.honest link.old → P.honest link.new }

    // At 3 and 4 no client was set up, whatever the link tells: at 4 nothing is written, and at 3 the line that says which script is refused, and why.
    ensures early { (result ≡ 3) ⊎ (result ≡ 4) → Says (K.written out.old) (K.written out.new) (NoneBegan (S.left a.old) (T.left b.old) result) }

    // What was written is what the history of both says, and so are the readings that the clock gave; and each client's core goes with its side.
    ensures shown { Says (K.written out.old) (K.written out.new) (λ text.
        Reads (C.readings clock.old) (C.readings clock.new) (λ given.
        PairRelates (P.told link.old) (P.told link.new) (λ before h. before.steps ≡ [] →
        PairLeaves given (S.left a.old) (T.left b.old) h result text))) }
{
    match scripts(alloc, a, b, out) {
        Ok((first, second)) => run_scripts(alloc, order, first, second, link, clock, out),
        Err(status) => status,
    }
}

/// Both scripts, or the status with which the run ends.
fn scripts<S: Source, T: Source, K: Sink>(
    alloc: Global,
    a: &mut S,
    b: &mut T,
    out: &mut K,
) -> Result<(Script, Script), u8>
    ensures asked { IfOk result (λ both. All IsAskedLine both.0 × All IsAskedLine both.1) }
    ensures few { IfOk result (λ both. (length both.0 ≤ 16384) × (length both.1 ≤ 16384)) }
    ensures status { IfErr result (λ status. (status ≡ 3) ⊎ (status ≡ 4) ⊎ IsCutOff status) }
    ensures source { IfErr result (λ status. status ≡ 4 → Rose (S.faults a.old) (S.faults a.new) ⊎ Rose (T.faults b.old) (T.faults b.new)) }
    ensures sink { IfErr result (λ status. status ≡ 5 → Rose (K.faults out.old) (K.faults out.new)) }
    ensures later { K.faults out.old ≤ K.faults out.new }
    ensures says { Says (K.written out.old) (K.written out.new) (ReadsBoth (S.left a.old) (T.left b.old) result) }
{
    let first = match text_of(alloc, a) {
        Ok(text) => text,
        Err(status) => return Err(status),
    };
    let second = match text_of(alloc, b) {
        Ok(text) => text,
        Err(status) => return Err(status),
    };
    both(alloc, first.as_slice(), second.as_slice(), out)
}

/// The scripts of these texts, or the status with which the run ends.
fn both<K: Sink>(
    alloc: Global,
    first: &[u8],
    second: &[u8],
    out: &mut K,
) -> Result<(Script, Script), u8>
    ensures asked { IfOk result (λ both. All IsAskedLine both.0 × All IsAskedLine both.1) }
    ensures few { IfOk result (λ both. (length both.0 ≤ 16384) × (length both.1 ≤ 16384)) }
    ensures status { IfErr result (λ status. (status ≡ 3) ⊎ IsCutOff status) }
    ensures sink { IfErr result (λ status. status ≡ 5 → Rose (K.faults out.old) (K.faults out.new)) }
    ensures later { K.faults out.old ≤ K.faults out.new }
    ensures says { Says (K.written out.old) (K.written out.new) (ReadsTexts first.now second.now result) }
{
    match script_of(alloc, Side::A, first, out) {
        Ok(a) => match script_of(alloc, Side::B, second, out) {
            Ok(b) => Ok((a, b)),
            Err(status) => Err(status),
        },
        Err(status) => Err(status),
    }
}

/// Sets both clients up, a first, and lets them take turns.
fn run_scripts<P: PairLink, C: Clock, K: Sink>(
    alloc: Global,
    order: &[u8],
    first: Script,
    second: Script,
    link: &mut P,
    clock: &mut C,
    out: &mut K,
) -> u8
    requires first { All IsAskedLine first }
    requires few { length first ≤ 16384 }
    requires second { All IsAskedLine second }
    requires fewer { length second ≤ 16384 }
    ensures ending { IsEnding result }
    ensures sink { result ≡ 5 → Rose (K.faults out.old) (K.faults out.new) }
    ensures honest { P.honest link.old → P.honest link.new }
    ensures goes { PairPasses (C.readings clock.old) (C.readings clock.new) (P.told link.old) (P.told link.new) (K.written out.old) (K.written out.new)
        (λ given text h k. h.steps ≡ [] → BothRan first second given k result text) }
{
    match set_up_both(alloc, first, second, link) {
        Ok(mut pair) => {
            let status = pair.finish(order, link, clock, out);
            // Dropped by a call, since the prover takes a drop in place apart, field by field.
            drop(pair);
            status
        }
        Err(_) => status::NO_MEMORY,
    }
}

fn set_up_both<P: PairLink>(
    alloc: Global,
    first: Script,
    second: Script,
    link: &mut P,
) -> Result<Pair, Memory>
    requires first { All IsAskedLine first }
    requires few { length first ≤ 16384 }
    requires second { All IsAskedLine second }
    requires fewer { length second ≤ 16384 }
    ensures ready { IfOk result AreReady }
    ensures made { IfOk result (λ p. (p.a.script ≡ first) × (p.b.script ≡ second)) }
    ensures honest { P.honest link.old → P.honest link.new }
    ensures opens { PairRelates (P.told link.old) (P.told link.new) (λ h k. h.steps ≡ [] → PairOpens first second result h k) }
{
    let a = Client::open(alloc, Side::A, first, FIRST_XID, link)?;
    match Client::open(alloc, Side::B, second, OTHER_XID, link) {
        Ok(b) => Ok(Pair { a, b }),
        Err(memory) => {
            drop(a);
            Err(memory)
        }
    }
}
