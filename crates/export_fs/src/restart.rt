//! Restarts of the export, and bytes that become stable by themselves (RFC 1813, section 4.8).

ghost use Rattle.std.specs.Prelude.{◌≡◌, ◌≤◌, ◌+◌, true, false, if◌then◌else◌, OnOk, OnErr};
ghost use Rattle.world_model.specs.Lawful.{Flushes};
ghost use Rattle.export_fs.specs.Parts.{kind};
ghost use Rattle.export_fs.specs.Restart as restarts;
ghost use Rattle.export_fs.specs.Later.{RestartsLater};
ghost use Rattle.export_fs.specs.Seen.{server_of};
ghost use Rattle.export_fs.specs.Sound.{Sound};
ghost use Rattle.export_fs.specs.Stamped.{Stamped};
ghost use Rattle.export_fs.specs.Risen.{TakesNew};

use crate::node::Node;
use crate::nodes::Nodes;
use crate::places::{holds_bytes, place_of};
use crate::tree::{LAST_NUMBER, Tree};
use nfs_types::Handle;
use xdr_codec::Memory;

/// A restart leaves the stable bytes of files; each that it changes takes the next number.
fn restart_all(nodes: &mut [Node], counter: u32)
    requires { counter + restarts.numbers_taken nodes.old ≤ 4294967295 }
    ensures { nodes.new ≡ restarts.all_restarted counter nodes.old }
{
    let mut number = counter;
    for node in nodes.iter_mut() {
        if node.is_unsteady() {
            number += 1;
            node.restart(number);
        }
    }
}

impl Tree {
    /// Restarts: each file is left with its stable bytes, and the write verifier is new. It is false, and nothing is
    /// changed, exactly if a file that changes has no number left, or if 4,294,967,295 restarts were made.
    pub(crate) fn reboot(&mut self) -> bool
        ensures done { result ≡ restarts.may_restart self.old }
        ensures after { self.new ≡ (if restarts.may_restart self.old then restarts.after_restart self.old else self.old) }
        ensures sound { Sound self.old → Sound self.new }
        ensures stamped { Stamped self.old → Stamped self.new }
        ensures fresh { TakesNew self.old self.new }
        ensures restarts { result ≡ true → RestartsLater self.old self.new }
    {
        let taken = self.nodes.unsteady() as u64;
        if self.reboots == LAST_NUMBER || taken > (LAST_NUMBER - self.counter) as u64 {
            return false;
        }
        self.nodes.restart(self.counter);
        self.counter += taken as u32;
        self.reboots += 1;
        true
    }

    /// So many bytes of a file from an offset become stable, as far as they are there, also of one whose last name is
    /// gone. A handle of no file changes nothing. Memory means out of memory, and then nothing is changed.
    pub(crate) fn flush(&mut self, file: &Handle, from: u64, len: u64) -> Result<(), Memory>
        ensures ok { OnOk result (self.new ≡ restarts.after_flush self.old file.now from len) }
        ensures err { OnErr result (self.new ≡ self.old) }
        ensures sound { Sound self.old → Sound self.new }
        ensures stamped { Stamped self.old → Stamped self.new }
        ensures fresh { TakesNew self.old self.new }
        ensures flushes { kind self.old.nodes file.now ≡ 1 → OnOk result (Flushes (server_of self.old) (server_of self.new) file.now from len) }
    {
        holds_bytes(file);
        self.nodes
            .commit(place_of(file), from as usize, len as usize)
    }
}

impl Nodes {
    /// How many files a restart changes.
    fn unsteady(&self) -> usize
        ensures { result ≡ restarts.numbers_taken self.now }
    {
        self.list.iter().filter(|node| node.is_unsteady()).count()
    }

    /// A restart leaves the stable bytes of files; each that it changes takes the next number.
    fn restart(&mut self, counter: u32)
        requires { counter + restarts.numbers_taken self.old ≤ 4294967295 }
        ensures { self.new ≡ restarts.all_restarted counter self.old }
    {
        restart_all(self.list.as_mut_slice(), counter);
    }
}
