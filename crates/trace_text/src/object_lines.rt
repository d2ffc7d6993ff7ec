//! Lines that say what the server is: its write verifier, and its objects.

ghost use Rattle.script_text.specs.Lines.{words};
ghost use Rattle.trace_text.specs.ObjectLines.{gone_line, name_line, obj_line, unname_line, verf_line};
ghost use Rattle.trace_text.specs.Told.{Takes, told_by};

use crate::draft::Draft;
use crate::fault::LineFault;
use crate::holding::{gone_object, held_contents};
use crate::listing::{listed_object, unlisted_object};
use crate::words::{attr, bytes, four, handle, long, name, one, two, verf};
use std::alloc::Global;
use trace_data::{DirEntry, Object};

/// `verf VERF`: the write verifier from now on.
#[tactic(auto, unfolding(crate::specs::ObjectLines::verf_line))]
pub(crate) fn verf_line(alloc: Global, draft: &mut Draft, line: &[u8]) -> Result<(), LineFault>
    ensures { Takes result (told_by draft.new) (verf_line (told_by draft.old) (words line.now)) }
{
    let verf = verf(alloc, one(line)?)?;
    draft.set_verf(verf);
    Ok(())
}

/// `obj HANDLE ATTR NOW STABLE`: an object's attributes and bytes. A link's NOW is its text. A directory keeps its list,
/// and what is gone stays so.
#[tactic(auto, unfolding(crate::specs::ObjectLines::obj_line))]
pub(crate) fn obj_line(alloc: Global, draft: &mut Draft, line: &[u8]) -> Result<(), LineFault>
    ensures { Takes result (told_by draft.new) (obj_line (told_by draft.old) (words line.now)) }
{
    let (handle_word, attr_word, now_word, stable_word) = four(line)?;
    let handle = handle(alloc, handle_word)?;
    let attr = attr(alloc, attr_word)?;
    let now = bytes(alloc, now_word)?;
    let stable = bytes(alloc, stable_word)?;
    let contents = held_contents(alloc, draft, &handle, &attr, now, stable)?;
    let gone = draft.is_gone(&handle);
    let object = Object {
        attr,
        gone,
        contents,
    };
    draft.set_object(handle, object)
}

/// `gone HANDLE`: an object's last name was removed.
#[tactic(auto, unfolding(crate::specs::ObjectLines::gone_line))]
pub(crate) fn gone_line(alloc: Global, draft: &mut Draft, line: &[u8]) -> Result<(), LineFault>
    ensures { Takes result (told_by draft.new) (gone_line (told_by draft.old) (words line.now)) }
{
    let handle = handle(alloc, one(line)?)?;
    let object = gone_object(alloc, draft, &handle)?;
    draft.set_object(handle, object)
}

/// `name DIR NAME HANDLE COOKIE`: an entry of a directory, in place of the one of that name. The list is in the order of
/// cookies, and of names if cookies are equal.
#[tactic(auto, unfolding(crate::specs::ObjectLines::name_line))]
pub(crate) fn name_line(alloc: Global, draft: &mut Draft, line: &[u8]) -> Result<(), LineFault>
    ensures { Takes result (told_by draft.new) (name_line (told_by draft.old) (words line.now)) }
{
    let (dir_word, name_word, object_word, cookie_word) = four(line)?;
    let dir = handle(alloc, dir_word)?;
    let name = name(alloc, name_word)?;
    let object = handle(alloc, object_word)?;
    let cookie = long(cookie_word)?;
    let entry = DirEntry {
        name,
        object,
        cookie,
    };
    let later = listed_object(alloc, draft, &dir, &entry)?;
    draft.set_object(dir, later)
}

/// `unname DIR NAME`: the entry of that name is no more in the directory.
#[tactic(auto, unfolding(crate::specs::ObjectLines::unname_line))]
pub(crate) fn unname_line(alloc: Global, draft: &mut Draft, line: &[u8]) -> Result<(), LineFault>
    ensures { Takes result (told_by draft.new) (unname_line (told_by draft.old) (words line.now)) }
{
    let (dir_word, name_word) = two(line)?;
    let dir = handle(alloc, dir_word)?;
    let name = name(alloc, name_word)?;
    let later = unlisted_object(alloc, draft, &dir, &name)?;
    draft.set_object(dir, later)
}
