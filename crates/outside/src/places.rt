//! What a link places behind the calls of its wire or of its datagrams. A wire and datagrams that tell their calls keep
//! it, and the others drop it. So one code of a link runs over all of them.

ghost use Rattle.outside.specs.Places.{PutsLast, TakesLast};

use xdr_codec::Blob;

/// What a link adds to its history behind a call of its wire.
#[derive(Debug, Drop)]
pub enum WireAdds {
    /// No entry.
    Nothing,
    /// That the call failed.
    Failed,
    /// A record that was written whole: it stands in the bytes that the wire tells.
    Whole,
    /// A record that was not written whole, and that sending it failed.
    Part { bytes: Blob },
    /// A record that was delivered: it stands in the bytes that the wire tells.
    Delivered,
}

/// A call of the wire or none, and what the link then adds.
#[derive(Debug, Drop)]
pub struct WirePlace {
    /// Whether the wire was called.
    pub call: bool,
    /// What follows.
    pub adds: WireAdds,
}

/// What a link adds to its history behind a call of its datagrams.
#[derive(Debug, Drop)]
pub enum DatagramAdds {
    /// No entry.
    Nothing,
    /// That the call failed.
    Failed,
    /// A record that did not go out, and that sending it failed.
    Unsent { bytes: Blob },
}

/// Puts a place into that of the last, if there is one.
pub(crate) fn put_last<P: Drop>(places: &mut Vec<P>, place: P)
    ensures { PutsLast places.old.items places.new.items place }
{
    if places.is_empty() {
        return;
    }
    let at = places.len() - 1;
    places[at] = place;
}

/// Takes the last place away, if there is one.
pub(crate) fn take_last<P: Drop>(places: &mut Vec<P>)
    ensures { TakesLast places.old.items places.new.items }
{
    if places.is_empty() {
        return;
    }
    let at = places.len() - 1;
    places.truncate(at);
}
