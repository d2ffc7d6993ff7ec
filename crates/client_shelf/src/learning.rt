//! What is learnt of a reply. If there is no memory for it, it isn't learnt.

ghost use Rattle.client_shelf.specs.Learning.{Learns, Renews, LearnsName};

use attr_cache::AttrCache;
use name_cache::NameCache;
use nfs_types::{Attr, Handle, Name};

/// The attributes of a file that a reply gave, if any.
pub fn learn(attrs: &mut AttrCache, file: &Handle, attr: &Option<Attr>, now: u64)
    ensures { Learns file.now attr.now now attrs.old attrs.new }
{
    if let Some(attr) = attr {
        let _ = attrs.learn(file, attr, now);
    }
}

/// The attributes of a directory that was changed: without new ones it is forgotten.
pub fn renew(attrs: &mut AttrCache, dir: &Handle, attr: &Option<Attr>, now: u64)
    ensures { Renews dir.now attr.now now attrs.old attrs.new }
{
    match attr {
        Some(_) => learn(attrs, dir, attr, now),
        None => attrs.forget(dir),
    }
}

/// What a name stands for, under the stamp of its directory if that is known.
pub fn learn_name(
    names: &mut NameCache,
    dir: &Handle,
    name: &Name,
    attr: &Option<Attr>,
    found: &Handle,
)
    ensures { LearnsName dir.now name.now attr.now found.now names.old names.new }
{
    if let Some(attr) = attr {
        let _ = names.learn(dir, name, &attr.stamp(), found);
    }
}
