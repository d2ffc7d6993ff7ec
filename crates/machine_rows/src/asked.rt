//! Which operations a script can ask for.

ghost use Rattle.std.specs.Prelude.{◌≡◌, ◌≤◌, ◌+◌, ◌-◌, ◌^◌, true, length};
ghost use Rattle.op_machines.specs.Begun.{IsAsked, IsNamed};

use world_model::{Op, Path};
use xdr_codec::Blob;

/// The last place at which bytes may end.
const LAST_END: u128 = 9_223_372_036_854_775_807;

/// The greatest length of what a symbolic link leads to.
const LONGEST_TARGET: usize = 1_024;

/// Whether a script can ask for an operation:
/// - a path has a last name if it needs one;
/// - bytes end within all places of a file;
/// - a symbolic link leads to at most 1,024 bytes.
pub(crate) fn is_asked(op: &Op) -> bool
    ensures { result ≡ true → IsAsked op.now }
{
    match op {
        Op::OpenFile { path, .. } => is_named(path),
        Op::Read { .. } => true,
        Op::Write { offset, bytes, .. } => ends_within(*offset, bytes.bytes().len()),
        Op::Fill { offset, count, .. } => ends_within(*offset, *count as usize),
        Op::Put {
            path,
            offset,
            bytes,
        } => put_is_asked(path, *offset, bytes),
        Op::Sync { .. } => true,
        Op::Close { .. } => true,
        Op::Truncate { .. } => true,
        Op::Stat { .. } => true,
        Op::Access { .. } => true,
        Op::MakeDir { path } => is_named(path),
        Op::RemoveDir { path } => is_named(path),
        Op::Remove { path } => is_named(path),
        Op::Rename { from, to } => are_named(from, to),
        Op::Link { to, .. } => is_named(to),
        Op::SymLink { path, target } => link_is_asked(path, target),
        Op::ReadLink { .. } => true,
        Op::List { .. } => true,
    }
}

/// Whether a path has a last name.
fn is_named(path: &Path) -> bool
    ensures { result ≡ true → IsNamed path.now }
{
    path.names().len() >= 1
}

/// Whether two paths do.
fn are_named(from: &Path, to: &Path) -> bool
    ensures { result ≡ true → IsNamed from.now × IsNamed to.now }
{
    if !is_named(from) {
        return false;
    }
    is_named(to)
}

/// Whether so many bytes end within all places of a file.
fn ends_within(offset: u64, size: usize) -> bool
    ensures { result ≡ true → offset + size ≤ 2 ^ 63 - 1 }
{
    u128::from(offset) + size as u128 <= LAST_END
}

fn put_is_asked(path: &Path, offset: u64, bytes: &Blob) -> bool
    ensures { result ≡ true → IsNamed path.now × (offset + length bytes.now ≤ 2 ^ 63 - 1) }
{
    if !is_named(path) {
        return false;
    }
    ends_within(offset, bytes.bytes().len())
}

fn link_is_asked(path: &Path, target: &Blob) -> bool
    ensures { result ≡ true → IsNamed path.now × (length target.now ≤ 1024) }
{
    if !is_named(path) {
        return false;
    }
    target.bytes().len() <= LONGEST_TARGET
}
