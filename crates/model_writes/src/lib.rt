//! The law of written bytes: a client whose steps are those of `specs/Machine` keeps on stable storage what its answers say is
//! stable there. The machine is coarser than the client's code, and nothing here runs: each function has an empty body, and
//! its contract is the theorem.
#![tactic(auto)]

ghost use Rattle.world_model.specs.History.{History};
ghost use Rattle.world_model.specs.Lawful as model;
ghost use Rattle.claims.specs.Modes.{Modes};
ghost use Rattle.world_model.specs.Mounts.{Origin};
ghost use Rattle.world_model.specs.Once as once;
ghost use Rattle.claims.specs.Settled as kept;
ghost use Rattle.model_writes.specs.Lawful.{Lawful, Once};
ghost use Rattle.model_writes.specs.Machine.{View};
ghost use Rattle.model_writes.specs.Mirrors.{Mirrors};
ghost use Rattle.model_writes.specs.Reaches.{Reaches};
ghost use Rattle.model_writes.specs.Settled.{Settled};
ghost use Rattle.model_writes.specs.SmallRun.{IsReached};
ghost use Rattle.model_writes.specs.Story.{Told};

/// With an honest server that executes no copy of a call after its reply was taken, bytes that were made stable stay.
pub fn durable_bytes_stay()
    ensures { (t : Told) → Lawful t → Once t → (c : View) → Reaches t.entries c → Settled t }
{}

/// The machine isn't empty: a small run is reached, with each kind of move.
pub fn small_run()
    ensures { IsReached }
{}

/// The same law over histories of the layers' model. Let a story read a history entry by entry, and let the machine reach the
/// story. Then bytes that a sync, close or put made stable stay on stable storage until something touches them.
pub fn history_settles()
    ensures { (m : Modes) (origin : Origin) (t : History) (s : Told) → Mirrors m origin t s → model.Lawful t → once.Once t.entries → (c : View) → Reaches s.entries c → kept.Settled m origin t }
{}
