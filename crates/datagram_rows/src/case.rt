//! What lines describe.

use crate::text::{bytes_of, number_of, port_of};
use outside::MemDatagrams;
use std::alloc::{AllocError, Global};
use xdr_codec::Memory;

/// Datagrams that are to come.
#[derive(Drop)]
pub struct Coming {
    /// How many.
    pub count: u32,
    /// The port that they come from.
    pub port: u16,
    /// What each holds.
    pub bytes: Vec<u8>,
}

/// What some lines describe.
#[derive(Drop)]
pub struct Case {
    /// The datagrams that are to come, in order.
    pub coming: Vec<Coming>,
    /// The calls that are to fail, counted from 1.
    pub fails: Vec<u32>,
}

/// Nothing is described yet.
pub fn empty(alloc: Global) -> Case {
    Case {
        coming: Vec::new(alloc),
        fails: Vec::new(alloc),
    }
}

/// Takes what a line adds to the description; false if it adds nothing.
pub fn takes(alloc: Global, case: &mut Case, word: &str, rest: &str) -> Result<bool, AllocError> {
    match word {
        "arrival" => add(alloc, case, 1, rest)?,
        "arrivals" => {
            let (count, rest) = rest.split_once(' ').unwrap_or((rest, ""));
            add(alloc, case, number_of(count), rest)?;
        }
        "fail" => case.fails.push(number_of(rest))?,
        _ => return Ok(false),
    }
    Ok(true)
}

fn add(alloc: Global, case: &mut Case, count: u32, rest: &str) -> Result<(), AllocError> {
    let (port, digits) = rest.split_once(' ').unwrap_or((rest, ""));
    let coming = Coming {
        count,
        port: port_of(port),
        bytes: bytes_of(alloc, digits)?,
    };
    case.coming.push(coming)?;
    Ok(())
}

/// The datagrams that the lines describe.
pub fn datagrams(alloc: Global, case: &Case) -> Result<MemDatagrams, Memory> {
    let mut datagrams = MemDatagrams::new(alloc, case.fails.as_slice())?;
    for coming in case.coming.as_slice() {
        for _ in 0..coming.count {
            datagrams.arrival(coming.port, coming.bytes.as_slice())?;
        }
    }
    Ok(datagrams)
}
