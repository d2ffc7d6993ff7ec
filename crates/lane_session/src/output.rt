//! The answers, as the sink takes them.

ghost use Rattle.std.specs.Prelude.{◌≤◌, ◌++◌, OnOk, OnErr};
ghost use Rattle.outside.specs.Causes.{Rose};
ghost use Rattle.lane_session.specs.Streams.{Appends, Says, IsFrontOf};
ghost use Rattle.lane_session.specs.Statuses.{CausedBy};

use crate::halt::Halt;
use outside::{LinkFault, Sink};

/// Writes all of the bytes. After a fault a prefix of them stands there.
pub fn write_all<K: Sink>(out: &mut K, bytes: &[u8]) -> Result<(), Halt>
    ensures ok { OnOk result (Appends (K.written out.old) (K.written out.new) bytes.now) }
    ensures err { OnErr result (Says (K.written out.old) (K.written out.new) (IsFrontOf bytes.now)) }
    ensures later { K.faults out.old ≤ K.faults out.new }
    ensures cause { CausedBy result (Rose (K.faults out.old) (K.faults out.new)) }
{
    let mut done = 0;
    while done < bytes.len() {
        let (_, rest) = bytes.split_at(done);
        match out.write(rest) {
            Ok(count) => done += count,
            Err(LinkFault::Failed) => return Err(Halt::Output),
            Err(LinkFault::Memory) => return Err(Halt::Memory),
        }
    }
    Ok(())
}

/// Writes the label and then the line. After a fault a prefix of the two stands there.
pub fn write_line<K: Sink>(out: &mut K, label: &[u8], line: &[u8]) -> Result<(), Halt>
    ensures ok { OnOk result (Appends (K.written out.old) (K.written out.new) (label.now ++ line.now)) }
    ensures err { OnErr result (Says (K.written out.old) (K.written out.new) (IsFrontOf (label.now ++ line.now))) }
    ensures later { K.faults out.old ≤ K.faults out.new }
    ensures cause { CausedBy result (Rose (K.faults out.old) (K.faults out.new)) }
{
    match write_all(out, label) {
        Ok(()) => write_all(out, line),
        Err(halt) => Err(halt),
    }
}
