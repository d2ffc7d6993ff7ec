//! What both clients go by.

ghost use Rattle.std.specs.Prelude.{◌≡◌};
ghost use Rattle.pair_runs.specs.Given.{pair_settings};

use attr_cache::Lives;
use nfs_types::Handle;
use rpc_message::Cred;
use session_words::{Export, Settings};

/// The port of NFS.
const NFS_PORT: u16 = 2049;
/// The most bytes of a READ and of a WRITE.
const MOST_BYTES: u32 = 65_536;
/// The most calls of a client.
const MOST_CALLS: u32 = 1_000_000;

/// The export's root: the file handle is known, so nothing is mounted.
const ROOT: [u8; 8] = [0, 0, 0, 0, 0, 0, 0, 1];

/// The settings of a client: the root is given, calls are made as nobody, and the modes are the usual ones.
pub(crate) fn settings() -> Settings
    ensures { result ≡ pair_settings }
{
    Settings {
        export: Export::Root(Handle::make(&ROOT).unwrap()),
        mount_port: NFS_PORT,
        nfs_port: NFS_PORT,
        cred: Cred::None,
        rsize: MOST_BYTES,
        wsize: MOST_BYTES,
        calls: MOST_CALLS,
        xid: None,
        lives: Lives {
            reg_min: 3_000,
            reg_max: 60_000,
            dir_min: 30_000,
            dir_max: 60_000,
        },
        noac: false,
        nocto: false,
        count: false,
    }
}
