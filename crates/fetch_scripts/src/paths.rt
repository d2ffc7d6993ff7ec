//! Paths on the server.

ghost use Rattle.std.specs.Prelude.{◌≡◌, ◌++◌, ◌∷◌, [], IfOk, IfSome};
ghost use Rattle.nfs_script.specs.Asked.{IsPath};

use nfs_types::Name;
use std::alloc::Global;
use world_model::Path;
use xdr_codec::Memory;

/// The path below another one; none if it has more than 1,024 bytes. Two without names are the root.
pub(crate) fn below(alloc: Global, from: &Path, path: &Path) -> Result<Option<Path>, Memory>
    ensures { IfOk result (λ found. IfSome found IsPath) }
{
    if from.names().is_empty() && path.names().is_empty() {
        return Ok(Some(Path::of(Vec::new(alloc))));
    }
    copy_scripts::below(alloc, from, path)
}

/// The path of a name in a folder.
pub(crate) fn within(alloc: Global, folder: &Path, name: Name) -> Result<Path, Memory>
    ensures { IfOk result (λ path. path ≡ folder.now ++ name ∷ []) }
{
    let mut names = Vec::new(alloc);
    names.extend_from_slice(folder.names())?;
    names.push(name)?;
    Ok(Path::of(names))
}
