//! RMDIR: removes a directory (RFC 1813, section 3.3.13).

ghost use Rattle.std.specs.Prelude.{◌≡◌};
ghost use Rattle.xdr_codec.specs.Whole.{Gives};
ghost use Rattle.nfs_dir_calls.specs.Kept.{kept_of};
ghost use Rattle.nfs_dir_calls.specs.Remove.{rmdir_call_at, rmdir_at};

use crate::call::DirCall;
use crate::changed::{Changed, read_changed};
use crate::place::read_place;
use crate::reply::DirReply;
use xdr_codec::{Reader, XdrFault};

/// Reads the arguments.
#[tactic(auto, unfolding(crate::specs::Remove::rmdir_call_at))]
pub fn read_call(args: &[u8]) -> Result<DirCall, XdrFault>
    ensures { result ≡ rmdir_call_at args.now }
{
    let mut r = Reader::new(args);
    let place = read_place(&mut r)?;
    r.end()?;
    Ok(DirCall::RmDir {
        dir: place.dir,
        name: place.name,
    })
}

/// Reads the results.
#[tactic(auto, unfolding(crate::specs::Remove::rmdir_at))]
pub fn read_reply<'a>(results: &'a [u8]) -> Result<DirReply<'a>, XdrFault>
    ensures { Gives kept_of result (rmdir_at results.entry.now) }
{
    Ok(match read_changed(results)? {
        Changed::Done { wcc } => DirReply::RmDir { wcc },
        Changed::Failed { status, wcc } => DirReply::RmDirFail { status, wcc },
    })
}
