//! What a world leaves to whoever works out the server at each moment.

ghost use Rattle.std.specs.Prelude.{◌≡◌, map};
ghost use Rattle.world_link.specs.View.{entry_in, seen};

use crate::broken::Broken;
use crate::routed::Told;
use crate::world::World;
use export_fs::Export;

/// What is known of a world that is done with. The server at a moment is the export of the start after the entries
/// before it:
/// - each Executed and Foreign entry is executed as its reply says;
/// - a WRITE that broke off is executed with as many bytes as are kept beside its entry;
/// - Flushed and Reboot entries are done as they are.
#[derive(Drop)]
pub struct WorldLog {
    /// The export before the first entry.
    pub start: Export,
    /// The history's entries, the first one first.
    pub told: Vec<Told>,
    /// How some of its WRITEs broke off, in order of their entries.
    pub partials: Vec<Broken>,
}

impl World {
    /// What the world tells, with what its entries don't say.
    pub fn into_log(self) -> WorldLog
        ensures start { result.start ≡ (seen self).start }
        ensures entries { map entry_in result.told.items ≡ (seen self).server.entries }
        ensures partials { result.partials.items ≡ (seen self).server.partials }
    {
        let server = self.server;
        WorldLog {
            start: self.start,
            told: server.told,
            partials: server.partials,
        }
    }
}
