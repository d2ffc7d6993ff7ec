//! The pieces of a file that are in flight, in order of transmission.

ghost use Rattle.std.specs.Prelude.{◌≡◌, nat_eq};
ghost use Rattle.std.specs.List.{position};
ghost use Rattle.std.specs.Option.{option_map};
ghost use Rattle.write_back.specs.Pieces.{piece_under, renumbered, without};

use crate::sent::SentPiece;

/// Where that one stands that is in flight under an xid.
fn place_of(sent: &[SentPiece], xid: u32) -> Option<usize>
    ensures { result ≡ position (λ piece. nat_eq piece.xid xid) sent.now }
{
    sent.iter().position(|piece| piece.xid() == xid)
}

/// The one that is in flight under an xid.
pub fn under(sent: &[SentPiece], xid: u32) -> Option<&SentPiece>
    ensures { option_map (λ p. p.now) result ≡ piece_under xid sent.now }
{
    let at = place_of(sent, xid)?;
    Some(&sent[at])
}

/// Takes out the one that is in flight under an xid.
pub fn take_out(sent: &mut Vec<SentPiece>, xid: u32) -> Option<SentPiece>
    ensures piece { result ≡ piece_under xid sent.old.items }
    ensures others { sent.new.items ≡ without xid sent.old.items }
{
    let at = place_of(sent.as_slice(), xid)?;
    Some(sent.remove(at))
}

/// The one that is in flight under one xid is so under another.
pub fn renumber(sent: &mut Vec<SentPiece>, xid: u32, to: u32)
    ensures { sent.new.items ≡ renumbered xid to sent.old.items }
{
    if let Some(at) = place_of(sent.as_slice(), xid) {
        sent[at].renumber(to);
    }
}
