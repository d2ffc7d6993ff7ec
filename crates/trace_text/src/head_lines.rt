//! Lines that say how the session was asked for.

ghost use Rattle.script_text.specs.Lines.{words};
ghost use Rattle.trace_text.specs.HeadLines.{lives_line, noac_line, nocto_line, root_line};
ghost use Rattle.trace_text.specs.Told.{Takes, told_by};

use crate::draft::Draft;
use crate::fault::LineFault;
use crate::words::{handle, long, none, one};
use std::alloc::Global;

/// `root HANDLE`: the root's file handle. It is the first line.
#[tactic(auto, unfolding(crate::specs::HeadLines::root_line))]
pub(crate) fn root_line(alloc: Global, draft: &mut Draft, line: &[u8]) -> Result<(), LineFault>
    ensures { Takes result (told_by draft.new) (root_line (told_by draft.old) (words line.now)) }
{
    let root = handle(alloc, one(line)?)?;
    if draft.has_begun() {
        return Err(LineFault::Form);
    }
    draft.set_root(root);
    Ok(())
}

/// `lives L`: the greatest lifetime of cached attributes, in milliseconds. It stands before the first entry, once.
#[tactic(auto, unfolding(crate::specs::HeadLines::lives_line))]
pub(crate) fn lives_line(draft: &mut Draft, line: &[u8]) -> Result<(), LineFault>
    ensures { Takes result (told_by draft.new) (lives_line (told_by draft.old) (words line.now)) }
{
    let lives = long(one(line)?)?;
    if draft.has_lives() || draft.has_entries() {
        return Err(LineFault::Form);
    }
    draft.set_lives(lives);
    Ok(())
}

/// `noac`: no attributes are cached. It stands before the first entry, once.
#[tactic(auto, unfolding(crate::specs::HeadLines::noac_line))]
pub(crate) fn noac_line(draft: &mut Draft, line: &[u8]) -> Result<(), LineFault>
    ensures { Takes result (told_by draft.new) (noac_line (told_by draft.old) (words line.now)) }
{
    none(line)?;
    if draft.is_noac() || draft.has_entries() {
        return Err(LineFault::Form);
    }
    draft.set_noac();
    Ok(())
}

/// `nocto`: an open doesn't ask for attributes anew. It stands before the first entry, once.
#[tactic(auto, unfolding(crate::specs::HeadLines::nocto_line))]
pub(crate) fn nocto_line(draft: &mut Draft, line: &[u8]) -> Result<(), LineFault>
    ensures { Takes result (told_by draft.new) (nocto_line (told_by draft.old) (words line.now)) }
{
    none(line)?;
    if draft.is_nocto() || draft.has_entries() {
        return Err(LineFault::Form);
    }
    draft.set_nocto();
    Ok(())
}
