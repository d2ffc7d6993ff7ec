//! The records that came.

ghost use Rattle.std.specs.Prelude.{◌≡◌, ◌<◌, IfOk, length};
ghost use Rattle.trace_claims.specs.Coming.{came_at, some_came, none_came, HasCame};

use crate::objects::add_place;
use std::alloc::Global;
use world_model::Entry;
use xdr_codec::Memory;

/// The places of all records that came, in order.
pub(crate) fn all_came(alloc: Global, entries: &[Entry]) -> Result<Vec<usize>, Memory>
    ensures { IfOk result (λ all. HasCame entries.now (length entries.now) all.items) }
{
    let mut all = Vec::new(alloc);
    let mut place = 0;
    while place < entries.len() {
        add_place(&mut all, came_at(entries, place), place)?;
        place += 1;
    }
    Ok(all)
}

/// Whether a record came at a place.
#[tactic(auto, unfolding(crate::specs::Coming::came_at))]
pub(crate) fn came_at(entries: &[Entry], place: usize) -> bool
    requires { place < length entries.now }
    ensures { result ≡ came_at entries.now place }
{
    match &entries[place] {
        Entry::Delivered { .. } => true,
        _ => false,
    }
}

/// Whether no record came between two places.
pub(crate) fn none_came(came: &[usize], from: usize, to: usize) -> bool
    ensures { result ≡ none_came came.now from to }
{
    !some_came(came, from, to)
}

/// Whether a record came between two places.
fn some_came(came: &[usize], from: usize, to: usize) -> bool
    ensures { result ≡ some_came came.now from to }
{
    came.iter().any(|place| from < *place && *place < to)
}
