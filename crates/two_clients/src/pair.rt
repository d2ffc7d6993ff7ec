//! A run of two scripts, and what it promises.

ghost use Rattle.std.specs.Prelude.{◌≡◌, ◌⊎◌, []};
ghost use Rattle.outside.specs.Causes.{Rose};
ghost use Rattle.script_runs.specs.Readings.{Reads};
ghost use Rattle.script_runs.specs.Run.{Says};
ghost use Rattle.pair_runs.specs.Clients.{AreLetters, IsPairStatus};
ghost use Rattle.pair_runs.specs.PairRuns.{NoneBegan, PairRelates};
ghost use Rattle.two_clients.specs.Pair.{PairIs};

use outside::{Clock, PairLink, Sink, Source};
use std::alloc::Global;

/// Runs two scripts, each in a client of its own over its end of the link. Writes an answer line for each operation behind the letter of its client. Each
/// client has the root `0000000000000001`, makes its calls as nobody, and asks for the server's sizes before the first turn. Turns follow the letters `a` and
/// `b` of the order, and then come one after the other until both are done.
///
/// It answers the status:
/// - 0: each operation succeeded;
/// - 1: one was refused;
/// - 3: a script is refused;
/// - 4: a source failed;
/// - 5: the sink failed;
/// - 6: a client's link is lost;
/// - 7: there was no memory outside an operation.
pub fn run_pair<S: Source, T: Source, P: PairLink, C: Clock, K: Sink>(
    alloc: Global,
    order: &[u8],
    a: &mut S,
    b: &mut T,
    link: &mut P,
    clock: &mut C,
    out: &mut K,
) -> u8
    requires { AreLetters order.now }
    ensures statuses { IsPairStatus result }

    // 4 and 5 come only if the outside failed.
    ensures source { result ≡ 4 → Rose (S.faults a.old) (S.faults a.new) ⊎ Rose (T.faults b.old) (T.faults b.new) }
    ensures sink { result ≡ 5 → Rose (K.faults out.old) (K.faults out.new) }

    // A link that is honest stays so: what it tells is lawful as each client sees it.
    ensures honest { P.honest link.old → P.honest link.new }

    // At 3 and 4 no client was set up, whatever the link tells: at 4 nothing is written, and at 3 the line that says which script is refused, and why.
    ensures early { (result ≡ 3) ⊎ (result ≡ 4) → Says (K.written out.old) (K.written out.new) (NoneBegan (S.left a.old) (T.left b.old) result) }

    // What each client promises along its side of the history, and what its reads show of the other: `PairIs` of specs/Pair.
    ensures headline { Says (K.written out.old) (K.written out.new) (λ text.
        Reads (C.readings clock.old) (C.readings clock.new) (λ given.
        PairRelates (P.told link.old) (P.told link.new) (λ before h. before.steps ≡ [] →
        PairIs given (S.left a.old) (T.left b.old) h result text))) }
{
    pair_runs::run_pair(alloc, order, a, b, link, clock, out)
}
