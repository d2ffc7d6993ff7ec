//! What standard error says of an ending.

ghost use Rattle.std.specs.Prelude.{◌≡◌, Option};
ghost use Rattle.std.specs.Option.{option_map};
ghost use Rattle.session_commands.specs.Endings.{message_of};

use crate::ending::SessionEnding;

/// Says on standard error how a command ended. If that can't be written, nothing is said.
pub fn report(rt: &HostRuntime, ending: SessionEnding) {
    match ending {
        SessionEnding::Schedule(line) => {
            let _ = eprintln!(rt; "nfs3: schedule {line}");
        }
        _ => report_status(rt, ending.status()),
    }
}

/// Says on standard error what a status of a session means, if there is a text for it. If that can't be written, nothing is said.
pub fn report_status(rt: &HostRuntime, status: u8) {
    if let Some(text) = message(status) {
        let _ = eprintln!(rt; "nfs3: {text}");
    }
}

/// What standard error says of a status of a session, if it says anything.
pub fn message(status: u8) -> Option<&'static str>
    ensures { option_map (λ text. text.now) result ≡ message_of status }
{
    match status {
        2 => Some("usage"),
        3 => Some("script refused"),
        4 => Some("read fault"),
        5 => Some("write fault"),
        6 => Some("link lost"),
        7 => Some("want of memory"),
        8 => Some("mount refused"),
        9 => Some("trace"),
        10 => Some("no port"),
        _ => None,
    }
}
