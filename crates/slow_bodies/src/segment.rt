//! Bytes that wait for the server to make them stable, as a plain segment.

use nfs_types::{Handle, Verf};
use std::alloc::{AllocError, Global};

/// Why bytes are to be sent.
#[derive(Clone, Copy, Debug, PartialEq, Eq)]
pub(crate) enum Due {
    /// They weren't sent yet.
    Unsent,
    /// The server may have lost them.
    Again,
    /// The server refused them with this status.
    Refused(u32),
}

/// What became of bytes.
#[derive(Clone, Copy, Debug, PartialEq, Eq)]
pub(crate) enum Fate {
    /// They are to be sent.
    Waits(Due),
    /// They were sent under an xid, and were so before.
    Flies(u32, Due),
    /// The server has them under this verifier.
    Acked(Verf),
}

/// Bytes of a file that came by one write.
#[derive(Drop)]
pub(crate) struct Segment {
    pub(crate) file: Handle,
    pub(crate) offset: u64,
    pub(crate) bytes: Vec<u8>,
    pub(crate) number: u64,
    pub(crate) fate: Fate,
}

impl Segment {
    /// The place after its last byte.
    pub(crate) fn end(&self) -> u64 {
        self.offset.saturating_add(self.bytes.len() as u64)
    }

    /// Its byte at a place of the file.
    pub(crate) fn byte(&self, place: u64) -> Option<u8> {
        let at = place.checked_sub(self.offset)?;
        self.bytes.get(at as usize).copied()
    }

    /// Whether it shares a place with another one.
    pub(crate) fn meets(&self, other: &Segment) -> bool {
        self.offset < other.end() && other.offset < self.end() && self.file == other.file
    }

    /// Whether it is in flight.
    pub(crate) fn flies(&self) -> bool {
        matches!(self.fate, Fate::Flies(_, _))
    }

    /// Whether it is in flight under that xid.
    pub(crate) fn flies_under(&self, file: &Handle, xid: u32) -> bool {
        match self.fate {
            Fate::Flies(own, _) => own == xid && self.file == *file,
            _ => false,
        }
    }

    /// How it is to be sent, if it is: 2 as stable, else 0.
    pub(crate) fn how(&self) -> Option<u32> {
        match self.fate {
            Fate::Waits(Due::Again) => Some(2),
            Fate::Waits(_) => Some(0),
            _ => None,
        }
    }

    /// How it was sent, if it was.
    pub(crate) fn sent_as(&self) -> u32 {
        match self.fate {
            Fate::Flies(_, Due::Again) => 2,
            _ => 0,
        }
    }

    /// What it was before it was sent.
    pub(crate) fn before(&self) -> Fate {
        match self.fate {
            Fate::Flies(_, due) => Fate::Waits(due),
            other => other,
        }
    }

    /// What becomes of it when it is sent.
    pub(crate) fn sent(&self, xid: u32) -> Fate {
        match self.fate {
            Fate::Waits(due) => Fate::Flies(xid, due),
            other => other,
        }
    }
}

/// Puts what a segment has between two places at the end of a list, with that fate; nothing if it has no byte there.
pub(crate) fn push_part(
    alloc: Global,
    list: &mut Vec<Segment>,
    of: &Segment,
    from: u64,
    to: u64,
    fate: Fate,
) -> Result<(), AllocError> {
    let offset = from.max(of.offset);
    let mut bytes = Vec::new(alloc);
    for place in offset..to.min(of.end()) {
        if let Some(byte) = of.byte(place) {
            bytes.push(byte)?;
        }
    }
    if bytes.is_empty() {
        return Ok(());
    }
    list.push(Segment {
        file: of.file,
        offset,
        bytes,
        number: of.number,
        fate,
    })?;
    Ok(())
}
