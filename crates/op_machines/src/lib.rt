//! Any operation as a machine: one step for its start, one for each reply, and one where something else lets it go on.
#![tactic(auto)]

mod begun;
mod file_machine;
mod laws;
mod machine;
mod name_machine;
mod opener;
mod path_machine;
mod resting;

pub use begun::Mounted;
pub use file_machine::FileMachine;
pub use laws::{
    calls_are_spellable, no_room_no_call, refusals_end, refusals_number_nothing,
    steps_number_writes, steps_stay_fit, steps_stay_ready, unmade_calls_leave_nothing,
    unsent_steps_stay_ready, waits_still,
};
pub use machine::Machine;
pub use name_machine::NameMachine;
pub use opener::Opener;
pub use path_machine::PathMachine;
