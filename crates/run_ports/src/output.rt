//! What is written if no port is told.

ghost use Rattle.std.specs.Prelude.{◌≡◌, ◌≤◌, OnOk, OnErr};
ghost use Rattle.outside.specs.Causes.{HasCause};
ghost use Rattle.script_runs.specs.Streams.{Appends, AppendsFront};

use outside::{LinkFault, Sink};

/// Writes all of the bytes. After a fault a front of them stands there.
pub fn write_all<K: Sink>(out: &mut K, bytes: &[u8]) -> Result<(), LinkFault>
    ensures ok { OnOk result (Appends (K.written out.old) (K.written out.new) bytes.now) }
    ensures err { OnErr result (AppendsFront (K.written out.old) (K.written out.new) bytes.now) }
    ensures cause { HasCause (K.faults out.old) (K.faults out.new) result }
{
    let mut done = 0;
    while done < bytes.len() {
        let (_, rest) = bytes.split_at(done);
        match out.write(rest) {
            Ok(count) => done += count,
            Err(fault) => return Err(fault),
        }
    }
    Ok(())
}
