//! What holds of the steps of operations. A fact for proofs: this function does nothing.

ghost use Rattle.client_core.specs.StepLaws.{StepLaws};

use op_machines::{
    calls_are_spellable, no_room_no_call, refusals_end, refusals_number_nothing,
    steps_number_writes, steps_stay_fit, steps_stay_ready, unmade_calls_leave_nothing,
    unsent_steps_stay_ready, waits_still,
};

/// What holds of every step of any operation.
pub(crate) fn steps_hold()
    ensures { StepLaws }
{
    waits_still();
    steps_stay_fit();
    steps_stay_ready();
    unsent_steps_stay_ready();
    steps_number_writes();
    no_room_no_call();
    calls_are_spellable();
    unmade_calls_leave_nothing();
    refusals_number_nothing();
    refusals_end();
}
