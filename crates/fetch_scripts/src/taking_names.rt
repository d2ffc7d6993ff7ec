//! What is made of the answers to scripts that look at paths, list folders and read links.

ghost use Rattle.std.specs.Prelude.{◌≡◌, IfOk};
ghost use Rattle.fetch_scripts.specs.Fetches.{AreOthers, Gave};

use crate::answers::Answers;
use crate::blame::{Blame, said};
use crate::paths::within;
use crate::walk::{Found, Walk};
use crate::words::{Shown, after_ok, names_shown, object_shown, text_shown};
use copy_scripts::Teller;
use copy_targets::Target;
use nfs_types::Name;
use outside::{Clock, Sink};
use std::alloc::Global;
use world_model::Path;
use xdr_codec::Memory;

/// Which files are passed over.
#[derive(Clone, Copy, Debug, PartialEq, Eq)]
pub enum Skips {
    /// None.
    Nothing,
    /// Those of which the target has one of the same size.
    Sizes,
}

/// Takes what stands at paths.
pub(crate) fn take_unseen<T: Target, K: Sink, C: Clock>(
    alloc: Global,
    target: &mut T,
    teller: &mut Teller<'_, K, C>,
    blame: &mut Blame,
    walk: &mut Walk,
    skips: Skips,
    asked: Vec<Path>,
    answers: &Answers<'_>,
) -> Result<(), Memory>
    ensures took { IfOk result (λ _. Gave (T.took target.old) (T.took target.new) AreOthers) }
    ensures from { blame.new.from ≡ blame.old.from }
{
    let mut number = answers.first();
    for path in asked {
        let words = answers.words(number).unwrap_or(b"lost");
        take_seen(alloc, target, teller, blame, walk, skips, path, words)?;
        number = number.saturating_add(1);
    }
    Ok(())
}

/// What stands at a path. These are the words of the answer.
fn take_seen<T: Target, K: Sink, C: Clock>(
    alloc: Global,
    target: &mut T,
    teller: &mut Teller<'_, K, C>,
    blame: &mut Blame,
    walk: &mut Walk,
    skips: Skips,
    path: Path,
    words: &[u8],
) -> Result<(), Memory>
    ensures took { IfOk result (λ _. Gave (T.took target.old) (T.took target.new) AreOthers) }
    ensures from { blame.new.from ≡ blame.old.from }
{
    match after_ok(words) {
        Some(rest) => take_shown(
            alloc,
            target,
            teller,
            blame,
            walk,
            skips,
            path,
            object_shown(rest),
        ),
        None => blame.complain(alloc, teller, &path, words),
    }
}

fn take_shown<T: Target, K: Sink, C: Clock>(
    alloc: Global,
    target: &mut T,
    teller: &mut Teller<'_, K, C>,
    blame: &mut Blame,
    walk: &mut Walk,
    skips: Skips,
    path: Path,
    shown: Option<Shown>,
) -> Result<(), Memory>
    ensures took { IfOk result (λ _. Gave (T.took target.old) (T.took target.new) AreOthers) }
    ensures from { blame.new.from ≡ blame.old.from }
{
    match shown {
        Some(Shown::File(size)) => take_file(alloc, target, walk, skips, path, size),
        Some(Shown::Folder) => take_folder(alloc, target, teller, blame, walk, path),
        Some(Shown::Link) => Ok(walk.links.push(path)?),
        _ => blame.complain(alloc, teller, &path, b"neither a file, a folder nor a link"),
    }
}

fn take_file<T: Target>(
    alloc: Global,
    target: &mut T,
    walk: &mut Walk,
    skips: Skips,
    path: Path,
    size: u64,
) -> Result<(), Memory>
    ensures { IfOk result (λ _. Gave (T.took target.old) (T.took target.new) AreOthers) }
{
    if skips == Skips::Sizes && target.has_size(alloc, &path, size)? {
        return Ok(());
    }
    walk.files.push(Found { path, size })?;
    Ok(())
}

fn take_folder<T: Target, K: Sink, C: Clock>(
    alloc: Global,
    target: &mut T,
    teller: &mut Teller<'_, K, C>,
    blame: &mut Blame,
    walk: &mut Walk,
    path: Path,
) -> Result<(), Memory>
    ensures took { IfOk result (λ _. Gave (T.took target.old) (T.took target.new) AreOthers) }
    ensures from { blame.new.from ≡ blame.old.from }
{
    match target.folder(alloc, &path)? {
        None => Ok(walk.folders.push(path)?),
        Some(why) => blame.complain(alloc, teller, &path, said(why)),
    }
}

/// Takes the names of folders.
pub(crate) fn take_folders<T: Target, K: Sink, C: Clock>(
    alloc: Global,
    target: &mut T,
    teller: &mut Teller<'_, K, C>,
    blame: &mut Blame,
    walk: &mut Walk,
    asked: Vec<Path>,
    answers: &Answers<'_>,
) -> Result<(), Memory>
    ensures took { IfOk result (λ _. Gave (T.took target.old) (T.took target.new) AreOthers) }
    ensures from { blame.new.from ≡ blame.old.from }
{
    let mut number = answers.first();
    for path in asked {
        let words = answers.words(number).unwrap_or(b"lost");
        take_folder_names(alloc, target, teller, blame, walk, &path, words)?;
        number = number.saturating_add(1);
    }
    Ok(())
}

/// The names of a folder. These are the words of the answer.
fn take_folder_names<T: Target, K: Sink, C: Clock>(
    alloc: Global,
    target: &mut T,
    teller: &mut Teller<'_, K, C>,
    blame: &mut Blame,
    walk: &mut Walk,
    path: &Path,
    words: &[u8],
) -> Result<(), Memory>
    ensures took { IfOk result (λ _. Gave (T.took target.old) (T.took target.new) AreOthers) }
    ensures from { blame.new.from ≡ blame.old.from }
{
    match after_ok(words) {
        Some(rest) => take_listing(alloc, target, teller, blame, walk, path, rest),
        None => blame.complain(alloc, teller, path, words),
    }
}

fn take_listing<T: Target, K: Sink, C: Clock>(
    alloc: Global,
    target: &mut T,
    teller: &mut Teller<'_, K, C>,
    blame: &mut Blame,
    walk: &mut Walk,
    path: &Path,
    words: &[u8],
) -> Result<(), Memory>
    ensures took { IfOk result (λ _. Gave (T.took target.old) (T.took target.new) AreOthers) }
    ensures from { blame.new.from ≡ blame.old.from }
{
    let Some(names) = names_shown(alloc, words)? else {
        return blame.complain(alloc, teller, path, b"a name in it can't be used");
    };
    let Some(others) = target.others(alloc, path, names.as_slice())? else {
        return blame.complain(alloc, teller, path, b"can't be listed here");
    };
    tell_others(alloc, teller, blame, path, others)?;
    take_names(alloc, teller, blame, walk, path, names)
}

/// What stands in the folder here alone is told.
fn tell_others<K: Sink, C: Clock>(
    alloc: Global,
    teller: &mut Teller<'_, K, C>,
    blame: &mut Blame,
    path: &Path,
    others: Vec<Name>,
) -> Result<(), Memory>
    ensures { blame.new.from ≡ blame.old.from }
{
    for name in others {
        let other = within(alloc, path, name)?;
        blame.complain(alloc, teller, &other, b"isn't on the server")?;
    }
    Ok(())
}

fn take_names<K: Sink, C: Clock>(
    alloc: Global,
    teller: &mut Teller<'_, K, C>,
    blame: &mut Blame,
    walk: &mut Walk,
    path: &Path,
    names: Vec<Name>,
) -> Result<(), Memory>
    ensures { blame.new.from ≡ blame.old.from }
{
    for name in names {
        let inner = within(alloc, path, name)?;
        take_name(alloc, teller, blame, walk, inner)?;
    }
    Ok(())
}

fn take_name<K: Sink, C: Clock>(
    alloc: Global,
    teller: &mut Teller<'_, K, C>,
    blame: &mut Blame,
    walk: &mut Walk,
    path: Path,
) -> Result<(), Memory>
    ensures { blame.new.from ≡ blame.old.from }
{
    if blame.full(alloc, &path)?.is_none() {
        return blame.complain(alloc, teller, &path, b"its path is too long");
    }
    walk.unseen.push(path)?;
    Ok(())
}

/// Takes what links lead to.
pub(crate) fn take_links<T: Target, K: Sink, C: Clock>(
    alloc: Global,
    target: &mut T,
    teller: &mut Teller<'_, K, C>,
    blame: &mut Blame,
    asked: Vec<Path>,
    answers: &Answers<'_>,
) -> Result<(), Memory>
    ensures took { IfOk result (λ _. Gave (T.took target.old) (T.took target.new) AreOthers) }
    ensures from { blame.new.from ≡ blame.old.from }
{
    let mut number = answers.first();
    for path in asked {
        let words = answers.words(number).unwrap_or(b"lost");
        take_text(alloc, target, teller, blame, &path, words)?;
        number = number.saturating_add(1);
    }
    Ok(())
}

/// What a link leads to. These are the words of the answer.
fn take_text<T: Target, K: Sink, C: Clock>(
    alloc: Global,
    target: &mut T,
    teller: &mut Teller<'_, K, C>,
    blame: &mut Blame,
    path: &Path,
    words: &[u8],
) -> Result<(), Memory>
    ensures took { IfOk result (λ _. Gave (T.took target.old) (T.took target.new) AreOthers) }
    ensures from { blame.new.from ≡ blame.old.from }
{
    match after_ok(words) {
        Some(rest) => take_link(alloc, target, teller, blame, path, rest),
        None => blame.complain(alloc, teller, path, words),
    }
}

fn take_link<T: Target, K: Sink, C: Clock>(
    alloc: Global,
    target: &mut T,
    teller: &mut Teller<'_, K, C>,
    blame: &mut Blame,
    path: &Path,
    words: &[u8],
) -> Result<(), Memory>
    ensures took { IfOk result (λ _. Gave (T.took target.old) (T.took target.new) AreOthers) }
    ensures from { blame.new.from ≡ blame.old.from }
{
    let Some(text) = text_shown(alloc, words)? else {
        return blame.complain(alloc, teller, path, b"the link has no text");
    };
    match target.link(alloc, path, text.as_slice())? {
        None => Ok(()),
        Some(why) => blame.complain(alloc, teller, path, said(why)),
    }
}
