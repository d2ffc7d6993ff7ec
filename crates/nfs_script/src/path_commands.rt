//! Commands on a path.

ghost use Rattle.std.specs.Prelude.{◌≡◌};
ghost use Rattle.script_text.specs.Lines.{words};
ghost use Rattle.nfs_script.specs.Faults.{Gives};
ghost use Rattle.nfs_script.specs.Commands.{put_of, stat_of, access_of, make_dir_of, remove_dir_of, remove_of, rename_of, link_of, sym_link_of, read_link_of, list_of};

use crate::fault::LineFault;
use crate::words::{any_path, bits, bytes, link_target, named_path, offset, one, three, two};
use std::alloc::Global;
use world_model::Op;

/// `put PATH OFF HEX`
#[tactic(auto, unfolding(crate::specs::Commands::put_of))]
pub(crate) fn put(alloc: Global, line: &[u8]) -> Result<Op, LineFault>
    ensures { Gives (λ op. op) result (put_of (words line.now)) }
{
    let (path_word, offset_word, bytes_word) = three(line)?;
    let path = named_path(alloc, path_word)?;
    let offset = offset(offset_word)?;
    let bytes = bytes(alloc, bytes_word)?;
    Ok(Op::Put {
        path,
        offset,
        bytes,
    })
}

/// `stat PATH`
#[tactic(auto, unfolding(crate::specs::Commands::stat_of))]
pub(crate) fn stat(alloc: Global, line: &[u8]) -> Result<Op, LineFault>
    ensures { Gives (λ op. op) result (stat_of (words line.now)) }
{
    let word = one(line)?;
    let path = any_path(alloc, word)?;
    Ok(Op::Stat { path })
}

/// `access PATH BITS`
#[tactic(auto, unfolding(crate::specs::Commands::access_of))]
pub(crate) fn access(alloc: Global, line: &[u8]) -> Result<Op, LineFault>
    ensures { Gives (λ op. op) result (access_of (words line.now)) }
{
    let (path_word, bits_word) = two(line)?;
    let path = any_path(alloc, path_word)?;
    let bits = bits(bits_word)?;
    Ok(Op::Access { path, bits })
}

/// `mkdir PATH`
#[tactic(auto, unfolding(crate::specs::Commands::make_dir_of))]
pub(crate) fn make_dir(alloc: Global, line: &[u8]) -> Result<Op, LineFault>
    ensures { Gives (λ op. op) result (make_dir_of (words line.now)) }
{
    let word = one(line)?;
    let path = named_path(alloc, word)?;
    Ok(Op::MakeDir { path })
}

/// `rmdir PATH`
#[tactic(auto, unfolding(crate::specs::Commands::remove_dir_of))]
pub(crate) fn remove_dir(alloc: Global, line: &[u8]) -> Result<Op, LineFault>
    ensures { Gives (λ op. op) result (remove_dir_of (words line.now)) }
{
    let word = one(line)?;
    let path = named_path(alloc, word)?;
    Ok(Op::RemoveDir { path })
}

/// `remove PATH`
#[tactic(auto, unfolding(crate::specs::Commands::remove_of))]
pub(crate) fn remove(alloc: Global, line: &[u8]) -> Result<Op, LineFault>
    ensures { Gives (λ op. op) result (remove_of (words line.now)) }
{
    let word = one(line)?;
    let path = named_path(alloc, word)?;
    Ok(Op::Remove { path })
}

/// `rename PATH PATH`
#[tactic(auto, unfolding(crate::specs::Commands::rename_of))]
pub(crate) fn rename(alloc: Global, line: &[u8]) -> Result<Op, LineFault>
    ensures { Gives (λ op. op) result (rename_of (words line.now)) }
{
    let (from_word, to_word) = two(line)?;
    let from = named_path(alloc, from_word)?;
    let to = named_path(alloc, to_word)?;
    Ok(Op::Rename { from, to })
}

/// `link PATH PATH`
#[tactic(auto, unfolding(crate::specs::Commands::link_of))]
pub(crate) fn link(alloc: Global, line: &[u8]) -> Result<Op, LineFault>
    ensures { Gives (λ op. op) result (link_of (words line.now)) }
{
    let (from_word, to_word) = two(line)?;
    let from = named_path(alloc, from_word)?;
    let to = named_path(alloc, to_word)?;
    Ok(Op::Link { from, to })
}

/// `symlink PATH TARGET`
#[tactic(auto, unfolding(crate::specs::Commands::sym_link_of))]
pub(crate) fn sym_link(alloc: Global, line: &[u8]) -> Result<Op, LineFault>
    ensures { Gives (λ op. op) result (sym_link_of (words line.now)) }
{
    let (path_word, target_word) = two(line)?;
    let path = named_path(alloc, path_word)?;
    let target = link_target(alloc, target_word)?;
    Ok(Op::SymLink { path, target })
}

/// `readlink PATH`
#[tactic(auto, unfolding(crate::specs::Commands::read_link_of))]
pub(crate) fn read_link(alloc: Global, line: &[u8]) -> Result<Op, LineFault>
    ensures { Gives (λ op. op) result (read_link_of (words line.now)) }
{
    let word = one(line)?;
    let path = named_path(alloc, word)?;
    Ok(Op::ReadLink { path })
}

/// `list PATH`
#[tactic(auto, unfolding(crate::specs::Commands::list_of))]
pub(crate) fn list(alloc: Global, line: &[u8]) -> Result<Op, LineFault>
    ensures { Gives (λ op. op) result (list_of (words line.now)) }
{
    let word = one(line)?;
    let path = any_path(alloc, word)?;
    Ok(Op::List { path })
}
