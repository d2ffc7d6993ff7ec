//! What the words give each argument.

ghost use Rattle.std.specs.Prelude.{◌≡◌, ℕ, List, codes, Err, None, Some, option_map, IfOk};
ghost use Rattle.session_words.specs.Words.{FindsOne, given_in, rows_in, IsNumberOr, IsPort, IsId, IsSize, IsCalls, IsXid, IsExport, IsPath, IsRootWord, IsFlag, GivesCred};
ghost use Rattle.session_words.specs.declared.settings.Export.{Export as Exported};
ghost use Rattle.session_words.specs.declared.settings.Export.TheVariants as exports;

use crate::number::number_in;
use crate::settings::{Export, WordsFault};
use clap::ArgMatches;
use nfs_types::{Handle, Name};
use rpc_message::Cred;
use std::alloc::Global;
use xdr_codec::Blob;

/// The most bytes of an export's path.
const MAX_PATH: usize = 1_024;

/// The user and the group if the words give none.
const NOBODY: u32 = 65_534;

/// The fewest and the most bytes that a READ or a WRITE may be bounded by.
const MIN_SIZE: u32 = 512;

const MAX_SIZE: u32 = 65_536;

/// The text that the words give the argument of this name.
pub(crate) fn given<'a>(matches: &ArgMatches<'a>, name: &str) -> Option<&'a str>
    ensures { option_map (λ t. t.now) result ≡ given_in matches.now name.now }
{
    matches.get_str(name)
}

/// A number from `least` to `most`, and `without` if the words give none. None exactly if they give another text.
fn number_or(
    matches: &ArgMatches<'_>,
    name: &str,
    without: u32,
    least: u32,
    most: u32,
) -> Option<u32>
    ensures { FindsOne (IsNumberOr without least most (given_in matches.now name.now)) result }
{
    match given(matches, name) {
        None => Some(without),
        Some(digits) => number_in(digits, least, most),
    }
}

/// A port, and `without` if the words give none. None exactly if they give another text.
pub(crate) fn port(matches: &ArgMatches<'_>, name: &str, without: u16) -> Option<u16>
    ensures { FindsOne (IsPort without (given_in matches.now name.now)) result }
{
    let port = number_or(matches, name, u32::from(without), 1, 65_535)?;
    Some(port as u16)
}

/// The number of a user or group. None exactly if the words give another text.
fn id(matches: &ArgMatches<'_>, name: &str) -> Option<u32>
    ensures { FindsOne (IsId (given_in matches.now name.now)) result }
{
    number_or(matches, name, NOBODY, 0, u32::MAX)
}

/// The most bytes of a READ or WRITE. None exactly if the words give another text.
pub(crate) fn size(matches: &ArgMatches<'_>, name: &str) -> Option<u32>
    ensures { FindsOne (IsSize (given_in matches.now name.now)) result }
{
    number_or(matches, name, MAX_SIZE, MIN_SIZE, MAX_SIZE)
}

/// The most calls. None exactly if the words give another text.
pub(crate) fn calls(matches: &ArgMatches<'_>) -> Option<u32>
    ensures { FindsOne (IsCalls (given_in matches.now (codes "calls"))) result }
{
    number_or(matches, "calls", 1_000_000, 2, 2_147_483_647)
}

/// The first xid, if the words give one. None exactly if they give another text.
pub(crate) fn xid(matches: &ArgMatches<'_>) -> Option<Option<u32>>
    ensures { FindsOne (IsXid (given_in matches.now (codes "xid"))) result }
{
    match given(matches, "xid") {
        None => Some(None),
        Some(digits) => Some(Some(number_in(digits, 1, 2_147_483_648)?)),
    }
}

/// Whether the words give a flag.
pub(crate) fn flag(matches: &ArgMatches<'_>, name: &str) -> bool
    ensures { IsFlag (given_in matches.now name.now) result }
{
    match given(matches, name) {
        None => false,
        Some(text) => text == "true",
    }
}

/// As whom calls are made. None exactly if the words name nobody.
pub(crate) fn cred(matches: &ArgMatches<'_>) -> Option<Cred>
    ensures { FindsOne (GivesCred (rows_in matches.now)) result }
{
    let uid = id(matches, "uid")?;
    let gid = id(matches, "gid")?;
    match given(matches, "auth").unwrap_or("sys") {
        "none" => Some(Cred::None),
        "sys" => Some(Cred::Sys {
            machine: machine()?,
            uid,
            gid,
        }),
        _ => None,
    }
}

/// The name of the machine that calls.
fn machine() -> Option<Name>
    ensures { result ≡ Some (codes "nfs3") }
{
    Name::make(b"nfs3")
}

/// What the client works on. Refused exactly if the words give no path or root, or both, unless memory runs out.
pub(crate) fn export(alloc: Global, matches: &ArgMatches<'_>) -> Result<Export, WordsFault>
    ensures found { IfOk result (IsExport (given_in matches.now (codes "export")) (given_in matches.now (codes "root"))) }
    ensures refused { result ≡ Err WordsFault.Refused
        → (e : Exported) → ¬ IsExport (given_in matches.now (codes "export")) (given_in matches.now (codes "root")) e }
{
    match given(matches, "export") {
        None => match given(matches, "root") {
            None => Err(WordsFault::Refused),
            Some(hex) => root(hex),
        },
        Some(text) => match given(matches, "root") {
            None => path(alloc, text),
            Some(_) => Err(WordsFault::Refused),
        },
    }
}

/// The export of a path. Refused exactly if it is empty or has more than 1,024 bytes, unless memory runs out.
fn path(alloc: Global, path: &str) -> Result<Export, WordsFault>
    ensures found { IfOk result (λ e. IsPath path.now × (e ≡ exports.Path path.now)) }
    ensures refused { result ≡ Err WordsFault.Refused → ¬ IsPath path.now }
{
    if path.is_empty() || path.len() > MAX_PATH {
        return Err(WordsFault::Refused);
    }
    match Blob::copy(alloc, path.as_bytes()) {
        Ok(bytes) => Ok(Export::Path(bytes)),
        Err(_) => Err(WordsFault::Memory),
    }
}

/// The root of a handle in hex digits. Refused exactly if they don't spell 1 to 64 bytes.
fn root(hex: &str) -> Result<Export, WordsFault>
    ensures found { IfOk result (IsExport None (Some hex.now)) }
    ensures refused { result ≡ Err WordsFault.Refused → (e : Exported) → ¬ IsExport None (Some hex.now) e }
{
    match handle(hex.as_bytes()) {
        None => Err(WordsFault::Refused),
        Some(root) => Ok(Export::Root(root)),
    }
}

/// The handle in hex digits. None exactly if they don't spell 1 to 64 bytes.
#[tactic(auto, using(crate::proofs::Roots::digits_of_root))]
fn handle(hex: &[u8]) -> Option<Handle>
    ensures { FindsOne (IsRootWord hex.now) result }
{
    if hex.is_empty() || hex.len() > 2 * Handle::MAX {
        return None;
    }
    let mut room = [0; Handle::MAX];
    let bytes = &mut room[..hex.len() / 2];
    match hex::decode_to_slice(hex, bytes) {
        Ok(()) => Handle::make(bytes),
        Err(_) => None,
    }
}
