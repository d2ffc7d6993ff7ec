//! A port mapper that the words name, and the ports that it told.

ghost use Rattle.std.specs.Prelude.{◌≡◌, ◌≤◌, ◌∷◌, [], ◌++◌, decimal, length, IfOk, Option, Err, map, string_bytes};
ghost use Rattle.std.specs.List.{position_or_len};
ghost use Rattle.port_words.specs.Portmaps.{is_portmap, Names, gives_port, with_ports};
ghost use Rattle.port_words.specs.declared.portmap.Portmap.{Portmap as Named};

use crate::texts::{add, add_all, are_named};
use itoa::Buffer;
use script_text::number;
use std::alloc::{AllocError, Global};
use xdr_codec::Memory;

/// A port mapper that the words of a session name.
#[derive(Debug, Drop)]
pub struct Portmap {
    /// Its port.
    pub port: u16,
    /// The other words, in order.
    pub others: Vec<String>,
}

/// Why words name no port mapper, and can't be used without one.
#[derive(Clone, Copy, Debug, PartialEq, Eq)]
pub enum PortmapFault {
    /// No port from 1 to 65,535 follows, or another word gives a port of MOUNT or of NFS.
    Refused,
    /// Out of memory.
    Memory,
}

/// The port mapper that the first word `--portmap` and the word after it name, if there is one. Refused exactly in these
/// cases:
/// - that word is missing, or isn't 1 to 65,535 in decimal digits;
/// - another word is or begins with `--mount-port` or `--nfs-port`.
pub fn take_portmap(alloc: Global, words: &[String]) -> Result<Option<Portmap>, PortmapFault>
    ensures found { IfOk result (Names (map string_bytes words.now)) }
    ensures refused { result ≡ Err PortmapFault.Refused → (p : Option Named) → ¬ Names (map string_bytes words.now) p }
{
    let (before, rest) = words.split_at(place(words));
    let Some((_, rest)) = rest.split_first() else {
        return Ok(None);
    };
    let Some((digits, after)) = rest.split_first() else {
        return Err(PortmapFault::Refused);
    };
    let Some(port) = number(digits.as_bytes(), 1, 65_535) else {
        return Err(PortmapFault::Refused);
    };
    let Ok(others) = joined(alloc, before, after) else {
        return Err(PortmapFault::Memory);
    };
    if give_port(others.as_slice()) {
        return Err(PortmapFault::Refused);
    }
    Ok(Some(Portmap {
        port: port as u16,
        others,
    }))
}

/// Where the first word `--portmap` stands, or how many words there are.
fn place(words: &[String]) -> usize
    ensures within { result ≤ length words.now }
    ensures place { result ≡ position_or_len is_portmap (map string_bytes words.now) }
{
    let mut at = 0;
    for word in words {
        if names_portmap(word.as_str()) {
            return at;
        }
        at += 1;
    }
    at
}

/// Whether the word is `--portmap`.
fn names_portmap(word: &str) -> bool
    ensures { result ≡ is_portmap word.now }
{
    word == "--portmap"
}

/// Whether a word gives a port of MOUNT or of NFS.
fn give_port(words: &[String]) -> bool
    ensures { result ≡ gives_port (map string_bytes words.now) }
{
    are_named(words, "--mount-port") || are_named(words, "--nfs-port")
}

/// The words one after the other.
fn joined(alloc: Global, before: &[String], after: &[String]) -> Result<Vec<String>, AllocError>
    ensures { IfOk result (λ all. map string_bytes all.items ≡ map string_bytes before.now ++ map string_bytes after.now) }
{
    let mut all = Vec::new(alloc);
    add_all(alloc, &mut all, before)?;
    add_all(alloc, &mut all, after)?;
    Ok(all)
}

/// The words with the ports of MOUNT and NFS after the first.
pub fn with_ports(
    alloc: Global,
    words: &[String],
    mount: u16,
    nfs: u16,
) -> Result<Vec<String>, Memory>
    ensures { IfOk result (λ all. map string_bytes all.items ≡ with_ports (map string_bytes words.now) mount nfs) }
{
    let mut all = Vec::new(alloc);
    if let Some((first, rest)) = words.split_first() {
        add(alloc, &mut all, first.as_str())?;
        add_port(alloc, &mut all, "--mount-port", mount)?;
        add_port(alloc, &mut all, "--nfs-port", nfs)?;
        add_all(alloc, &mut all, rest)?;
    }
    Ok(all)
}

/// Adds an option with a port.
fn add_port(alloc: Global, all: &mut Vec<String>, option: &str, port: u16) -> Result<(), AllocError>
    ensures { IfOk result (λ _. map string_bytes all.new.items ≡ map string_bytes all.old.items ++ (option.now ∷ decimal port ∷ [])) }
{
    add(alloc, all, option)?;
    let mut buffer = Buffer::new();
    add(alloc, all, buffer.format(port))
}
