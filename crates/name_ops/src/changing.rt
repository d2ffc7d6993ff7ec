//! What follows the reply to a call that changes a directory.

ghost use Rattle.std.specs.Prelude.{◌≡◌, false};
ghost use Rattle.client_shelf.specs.Unmade.{names_after};
ghost use Rattle.client_shelf.specs.Busy.{goes_again, repeats_after};
ghost use Rattle.name_ops.specs.Changing.{mode_set, told_busy, LearnsOf, LearnsTold, Changes, EndsChange};

use crate::told::Told;
use attr_cache::AttrCache;
use client_shelf::busy::again;
use client_shelf::learning::{learn, renew};
use client_shelf::{Shelf, Step, Turn};
use name_cache::NameCache;
use nfs_types::{Attr, Handle, SetAttr, SetTime};
use world_model::Call;

/// What the reply tells is noted. Whether the call, which the step with the turn `sent` made, is made again.
pub(crate) fn change(dir: &Handle, told: &Told, sent: Turn, turn: Turn, shelf: &mut Shelf) -> bool
    ensures told { result ≡ goes_again (told_busy told.now.refusal) sent turn shelf.old.repeats }
    ensures attrs { LearnsTold told.now.unmade told.now dir.now sent.now shelf.old.attrs shelf.new.attrs }
    ensures frame { shelf.new ≡ record shelf.old { attrs = shelf.new.attrs; names = names_after told.now.unmade dir.now shelf.old.names; repeats = repeats_after (told_busy told.now.refusal) sent turn shelf.old.repeats } }
{
    note_change(dir, told, sent.now, &mut shelf.attrs, &mut shelf.names);
    again(told.is_busy(), sent, turn, &mut shelf.repeats)
}

/// The names of the directory are dropped, and what the reply tells of attributes is learnt; without those of the directory
/// it is forgotten. All stays if the call couldn't be made.
fn note_change(dir: &Handle, told: &Told, now: u64, attrs: &mut AttrCache, names: &mut NameCache)
    ensures attrs { LearnsTold told.now.unmade told.now dir.now now attrs.old attrs.new }
    ensures names { names.new ≡ names_after told.now.unmade dir.now names.old }
{
    if told.unmade {
        return;
    }
    names.drop_dir(dir);
    learn_of(&told.object, &told.attr, dir, &told.dir, now, attrs);
}

/// What follows the reply: the same call again, or the answer.
pub(crate) fn go_again(
    call: Call,
    dir: &Handle,
    told: &Told,
    sent: Turn,
    turn: Turn,
    shelf: &mut Shelf,
) -> Step
    ensures { Changes dir.now call told.now sent turn shelf.old result shelf.new }
{
    if change(dir, told, sent, turn, shelf) {
        Step::Send(call)
    } else {
        Step::Done(told.answer())
    }
}

/// What follows a reply that leads to no further call: the answer.
pub(crate) fn end(dir: &Handle, told: &Told, sent: Turn, turn: Turn, shelf: &mut Shelf) -> Step
    requires idle { told_busy told.now.refusal ≡ false }
    ensures { EndsChange dir.now told.now sent turn shelf.old result shelf.new }
{
    change(dir, told, sent, turn, shelf);
    Step::Done(told.answer())
}

/// What a new object is made with: a mode, and nothing else.
pub(crate) fn mode_set(mode: u32) -> SetAttr
    ensures { result ≡ mode_set mode }
{
    SetAttr {
        mode: Some(mode),
        uid: None,
        gid: None,
        size: None,
        atime: SetTime::Keep,
        mtime: SetTime::Keep,
    }
}

/// The attributes of the object, if it is known, and then those of the directory.
fn learn_of(
    object: &Option<Handle>,
    attr: &Option<Attr>,
    dir: &Handle,
    after: &Option<Attr>,
    now: u64,
    attrs: &mut AttrCache,
)
    ensures { LearnsOf object.now attr.now dir.now after.now now attrs.old attrs.new }
{
    match object {
        Some(object) => {
            learn(attrs, object, attr, now);
            renew(attrs, dir, after, now);
        }
        None => renew(attrs, dir, after, now),
    }
}
