//! What a file was at a moment.

ghost use Rattle.std.specs.Prelude.{◌≡◌, ◌≤◌, ◌++◌, [], ◌∷◌, IfOk};
ghost use Rattle.trace_claims.specs.Coming.{place_if};
ghost use Rattle.trace_claims.specs.Objects.{now_of, stable_of, file_within, now_at, stable_at, is_gone_at, is_file_within, is_named_at, IsVersion, HasWindow};

use nfs_types::Handle;
use std::alloc::Global;
use trace_data::{Contents, Trace, named, object_at, objects_after};
use xdr_codec::Memory;

/// The bytes of a file at a moment; none of what is no file.
#[tactic(auto, unfolding(crate::specs::Objects::now_at))]
pub(crate) fn now_at<'a>(trace: &'a Trace, moment: usize, file: &Handle) -> &'a [u8]
    ensures { result.now ≡ now_at trace.entry.now moment file.now }
{
    match object_at(
        trace.start.objects.as_slice(),
        trace.updates.as_slice(),
        moment,
        file,
    ) {
        Some(object) => now_of(&object.contents),
        None => &[],
    }
}

/// The stable bytes of a file at a moment; none of what is no file.
#[tactic(auto, unfolding(crate::specs::Objects::stable_at))]
pub(crate) fn stable_at<'a>(trace: &'a Trace, moment: usize, file: &Handle) -> &'a [u8]
    ensures { result.now ≡ stable_at trace.entry.now moment file.now }
{
    match object_at(
        trace.start.objects.as_slice(),
        trace.updates.as_slice(),
        moment,
        file,
    ) {
        Some(object) => stable_of(&object.contents),
        None => &[],
    }
}

fn now_of(contents: &Contents) -> &[u8]
    ensures { result.now ≡ now_of contents.entry.now }
{
    match contents {
        Contents::File { now, .. } => now.bytes(),
        _ => &[],
    }
}

fn stable_of(contents: &Contents) -> &[u8]
    ensures { result.now ≡ stable_of contents.entry.now }
{
    match contents {
        Contents::File { stable, .. } => stable.bytes(),
        _ => &[],
    }
}

/// Whether a file is gone at a moment.
#[tactic(auto, unfolding(crate::specs::Objects::is_gone_at))]
pub(crate) fn is_gone_at(trace: &Trace, moment: usize, file: &Handle) -> bool
    ensures { result ≡ is_gone_at trace.now moment file.now }
{
    match object_at(
        trace.start.objects.as_slice(),
        trace.updates.as_slice(),
        moment,
        file,
    ) {
        Some(object) => object.gone,
        None => false,
    }
}

/// Whether a file is there at a moment, or was, with at most so many bytes.
#[tactic(auto, unfolding(crate::specs::Objects::is_file_within))]
pub(crate) fn is_file_within(trace: &Trace, moment: usize, file: &Handle, most: u128) -> bool
    ensures { result ≡ is_file_within trace.now moment file.now most }
{
    match object_at(
        trace.start.objects.as_slice(),
        trace.updates.as_slice(),
        moment,
        file,
    ) {
        Some(object) => file_within(&object.contents, most),
        None => false,
    }
}

fn file_within(contents: &Contents, most: u128) -> bool
    ensures { result ≡ file_within contents.now most }
{
    match contents {
        Contents::File { now, .. } => now.bytes().len() as u128 <= most,
        _ => false,
    }
}

/// Whether an entry's update names a file: if it doesn't, the file is after it as before.
#[tactic(auto, unfolding(crate::specs::Objects::is_named_at))]
pub(crate) fn is_named_at(trace: &Trace, entry: usize, file: &Handle) -> bool
    ensures { result ≡ is_named_at trace.now entry file.now }
{
    match named(objects_after(trace.updates.as_slice(), entry), file) {
        Some(_) => true,
        None => false,
    }
}

/// A moment at which a file is as at this one, no later, and at which it is found at once: its object was told of just before.
fn version_at(trace: &Trace, moment: usize, file: &Handle) -> usize
    ensures { IsVersion trace.now file.now moment result }
{
    let mut at = moment;
    while at > 0 {
        if is_named_at(trace, at - 1, file) {
            return at;
        }
        at -= 1;
    }
    0
}

/// Moments at which the file was what it was from one moment to another, and nothing else.
pub(crate) fn window(
    alloc: Global,
    trace: &Trace,
    file: &Handle,
    from: usize,
    to: usize,
) -> Result<Vec<usize>, Memory>
    ensures { from ≤ to → IfOk result (λ moments. HasWindow trace.now file.now from to moments.items) }
{
    let mut moments = one_moment(alloc, version_at(trace, from, file))?;
    let mut at = from;
    while at < to {
        add_place(&mut moments, is_named_at(trace, at, file), at + 1)?;
        at += 1;
    }
    Ok(moments)
}

fn one_moment(alloc: Global, moment: usize) -> Result<Vec<usize>, Memory>
    ensures { IfOk result (λ moments. moments.items ≡ moment ∷ []) }
{
    let mut moments = Vec::new(alloc);
    moments.push(moment)?;
    Ok(moments)
}

/// Adds a place, if so.
pub(crate) fn add_place(all: &mut Vec<usize>, add: bool, place: usize) -> Result<(), Memory>
    ensures { IfOk result (λ done. all.new.items ≡ all.old.items ++ place_if add place) }
{
    if add {
        all.push(place)?;
    }
    Ok(())
}
