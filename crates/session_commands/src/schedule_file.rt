//! The file of a schedule.

ghost use Rattle.std.specs.Prelude.{◌≡◌};
ghost use Rattle.session_commands.specs.Endings.{refused_as};

use crate::ending::SessionEnding;
use net_edge::read_again;
use std::fs::File;
use world_link::ScheduleFault;

/// A schedule with more bytes than this is refused unread.
const MOST_BYTES: usize = 1_048_576;

/// The bytes that are read at a time.
const PIECE: usize = 65_536;

/// The bytes of the file of that name, or of its front, which is too long for a schedule. `Err` is `Schedule(0)` if the file can't
/// be read, and `Memory` if there is no memory for its bytes.
pub fn schedule_text(rt: &HostRuntime, path: &str) -> Result<Vec<u8>, SessionEnding> {
    let Ok(mut file) = File::open(rt, path) else {
        return Err(SessionEnding::Schedule(0));
    };
    let mut text = Vec::new(rt.alloc());
    let mut piece = [0; PIECE];
    while text.len() <= MOST_BYTES {
        match read_again(&mut file, &mut piece) {
            Ok(0) => break,
            Ok(count) => {
                if text.extend_from_slice(&piece[..count]).is_err() {
                    return Err(SessionEnding::Memory);
                }
            }
            Err(_) => return Err(SessionEnding::Schedule(0)),
        }
    }
    Ok(text)
}

/// How a command ends if a schedule couldn't be read from its text.
pub fn refused(fault: ScheduleFault) -> SessionEnding
    ensures { result ≡ refused_as fault }
{
    match fault {
        ScheduleFault::Line(line) => SessionEnding::Schedule(line),
        ScheduleFault::Memory => SessionEnding::Memory,
    }
}
