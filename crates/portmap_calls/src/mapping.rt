//! What GETPORT asks for.

ghost use Rattle.std.specs.Prelude.{◌≡◌, ◌++◌, OnOk, OnErr};
ghost use Rattle.xdr_codec.specs.Spelling.{BeginsWith};
ghost use Rattle.xdr_codec.specs.Spells.{Wrote};
ghost use Rattle.xdr_codec.specs.Whole.{whole_at, Gives, FindsWhole};
ghost use Rattle.portmap_calls.specs.Mappings.{mapping_at, mapping_bytes, SpellsMapping};

use xdr_codec::{Memory, Reader, Writer, XdrFault};

/// A program that is served on a port (RFC 1833, section 3.1: mapping). In a call of GETPORT the port is 0, and passed over.
#[derive(Clone, Copy, Debug, PartialEq, Eq)]
pub struct Mapping {
    /// The number of the program.
    pub prog: u32,
    /// Its version.
    pub vers: u32,
    /// The protocol: 6 is TCP, 17 is UDP.
    pub prot: u32,
    /// The port.
    pub port: u32,
}

/// Reads a mapping from all of the arguments, with the first fault in order of spelling.
pub fn read_mapping(args: &[u8]) -> Result<Mapping, XdrFault>
    ensures exact { Gives (λ m. m) result (whole_at mapping_at args.now) }
    ensures spelled { FindsWhole (λ m. m) SpellsMapping args.now result }
{
    Reader::new(args).holds_bytes();
    mapping_in(args)
}

#[tactic(auto, unfolding(crate::specs::Mappings::mapping_at))]
fn mapping_in(args: &[u8]) -> Result<Mapping, XdrFault>
    ensures { Gives (λ m. m) result (whole_at mapping_at args.now) }
{
    let mut r = Reader::new(args);
    let prog = r.u32()?;
    let vers = r.u32()?;
    let prot = r.u32()?;
    let port = r.u32()?;
    r.end()?;
    Ok(Mapping {
        prog,
        vers,
        prot,
        port,
    })
}

/// Writes a mapping. When out of memory the writer begins with what it held.
#[tactic(auto, using(xdr_codec::proofs::Begins::begins_a, xdr_codec::proofs::Begins::begins_b, xdr_codec::proofs::Begins::begins_c, xdr_codec::proofs::Begins::grown_d), unfolding(crate::specs::Mappings::mapping_bytes))]
pub fn write_mapping(w: &mut Writer, mapping: &Mapping) -> Result<(), Memory>
    ensures ok { OnOk result (w.new ≡ w.old ++ mapping_bytes mapping.now) }
    ensures err { OnErr result (BeginsWith w.old w.new) }
{
    w.u32(mapping.prog)?;
    w.u32(mapping.vers)?;
    w.u32(mapping.prot)?;
    w.u32(mapping.port)?;
    Ok(())
}
