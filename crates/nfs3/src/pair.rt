//! Two sessions over one simulated server.

use net_edge::{StandardInput, StandardOutput, file_source};
use outside::TickClock;
use session_commands::{SessionEnding, refused, schedule_text};
use two_clients::run_pair;
use world_link::parse_pair;

/// Runs the script on standard input and the one in the file of the second name, as two clients of one simulated server. The file of the first name has its
/// schedule.
pub fn pair(rt: &HostRuntime, schedule: &str, script: &str) -> SessionEnding {
    let alloc = rt.alloc();
    let text = match schedule_text(rt, schedule) {
        Ok(text) => text,
        Err(ending) => return ending,
    };
    let (mut world, tick, order) = match parse_pair(alloc, text.as_slice()) {
        Ok(begun) => begun,
        Err(fault) => return refused(fault),
    };
    let Ok(mut second) = file_source(rt, script) else {
        return SessionEnding::ReadFault;
    };
    let mut first = StandardInput::new(rt.stdin());
    let mut clock = TickClock::new(tick);
    let mut sink = StandardOutput::new(rt.stdout());
    SessionEnding::Ran(run_pair(
        alloc,
        order.bytes(),
        &mut first,
        &mut second,
        &mut world,
        &mut clock,
        &mut sink,
    ))
}
