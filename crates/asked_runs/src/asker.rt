//! What asks for scripts.

ghost use Rattle.std.specs.Prelude.{◌≡◌, ◌≤◌, ◌++◌, [], ◌∷◌, ℕ, List, IfOk, IfSome};
ghost use Rattle.asked_runs.specs.Asking.{MayRun, Round};

use nfs_script::Script;
use std::alloc::Global;
use world_model::Fault;
use xdr_codec::Memory;

/// What asks for the scripts of a session, one after another.
pub trait Asker {
    /// From one state of it to another one it was asked for scripts so, call by call.
    ghost asks: { Self → List Round → Self → Type 0 };

    /// What each of its calls keeps.
    ghost stays: { Self → Self → Type 0 };

    /// What it tells by its status.
    ghost tells: { Self → ℕ → Type 0 };

    /// The next script; none at the end. The answers are the lines that were written of the one before, and its status is 0, 1 or 6; before the first they are
    /// empty and 0. Once a session is lost it is called so for the last time, and a script that it gives then isn't run.
    fn next(&mut self, alloc: Global, answers: &[u8], status: u8) -> Result<Option<Script>, Memory>
        requires { status ≤ 6 }
        ensures goes { IfOk result (λ next. (first : Self) (rounds : List Round) → asks first rounds self.old
            → asks first (rounds ++ record { answers = answers.now; status = status; script = next } ∷ []) self.new) }
        ensures may { IfOk result (λ next. IfSome next MayRun) }
        ensures stays { (first : Self) → stays first self.old → stays first self.new };

    /// The mount was refused, and no further script is asked for.
    fn refuse(&mut self, alloc: Global, fault: Fault) -> Result<(), Memory>
        ensures { (first : Self) → stays first self.old → stays first self.new };

    /// The status by all that was asked for, 0 or 1.
    fn status(&self) -> u8
        ensures few { result ≤ 1 }
        ensures tells { tells self.now result };

    /// At each state nothing was asked for since.
    ghost none: { (x : Self) → asks x [] x };
}
