//! What holds of every step of any operation. Facts for proofs: these functions do nothing.

ghost use Rattle.op_machines.specs.Endings.{FewLeft, RefusalsEnd};
ghost use Rattle.op_machines.specs.Laws.{WaitsStill, StartsFit, ResumesFit, TakesFit, StartsReady, ResumesReady, TakesReady, StartsUnsent, ResumesUnsent, TakesUnsent, StartsNumber, ResumesNumber, TakesNumber, RefusalsNumber, StartsRoomless, ResumesRoomless, TakesRoomless, StartsSpellable, ResumesSpellable, TakesSpellable, StartsUnmade, ResumesUnmade, TakesUnmade};

/// A step that no reply made possible and that waits, though there is room for a call, changes neither the operation nor the
/// shelf.
pub fn waits_still()
    ensures { WaitsStill }
{}

/// The bytes that an operation has to write go on to end within all places of a file.
pub fn steps_stay_fit()
    ensures start { StartsFit }
    ensures resume { ResumesFit }
    ensures took { TakesFit }
{}

/// Each step leaves what the next one needs. The next number of a write is above those of all pending bytes. Nothing is in
/// flight under the next xid or a later one.
pub fn steps_stay_ready()
    ensures start { StartsReady }
    ensures resume { ResumesReady }
    ensures took { TakesReady }
{}

/// A step that asks for no call puts nothing in flight: an xid that was free stays free.
pub fn unsent_steps_stay_ready()
    ensures start { StartsUnsent }
    ensures resume { ResumesUnsent }
    ensures took { TakesUnsent }
{}

/// A start or a reply gives out one number of a write at most, and any other step none.
pub fn steps_number_writes()
    ensures start { StartsNumber }
    ensures resume { ResumesNumber }
    ensures took { TakesNumber }
{}

/// A refusal gives out no number of a write.
pub fn refusals_number_nothing()
    ensures { RefusalsNumber }
{}

/// A step that is told of no room asks for no call.
pub fn no_room_no_call()
    ensures start { StartsRoomless }
    ensures resume { ResumesRoomless }
    ensures took { TakesRoomless }
{}

/// Each call that a step asks for has a spelling, if a WRITE carries at most 65,536 bytes.
pub fn calls_are_spellable()
    ensures start { StartsSpellable }
    ensures resume { ResumesSpellable }
    ensures took { TakesSpellable }
{}

/// A call that was asked for and can't be made reaches its operation as a refusal, with no room for another call. Then
/// nothing is in flight under its xid, which the next call may have.
pub fn unmade_calls_leave_nothing()
    ensures start { StartsUnmade }
    ensures resume { ResumesUnmade }
    ensures took { TakesUnmade }
{}

/// Let an operation go on and ask for a call, and take a refusal in its place. Then it has its answer, or fewer calls that it
/// may ask for in vain: so lanes don't go on without an end.
pub fn refusals_end()
    ensures less { RefusalsEnd }
    ensures few { FewLeft }
{}
