//! Scripts that are made by a rule.

ghost use Rattle.std.specs.Prelude.{◌≡◌, ◌++◌, ◌<◌, ◌^◌, decimal, OnOk, IfOk};
ghost use Rattle.made_script.specs.Made.{IsSize, each, next, lane_of, open_text, place_text, fill_text, read_text, sync_text, close_text};
ghost use Rattle.made_script.specs.Made.{turn_text, turn, made_text};

use crate::numbers::{write_byte, write_number};
use limits::GREATEST_LANE;
use std::alloc::Global;
use xdr_codec::{Blob, Memory, Writer};

/// The script of this size. In each of 16 lanes a file is opened, then so many fills follow, at places that a sequence of numbers
/// gives. A read comes after each fifth of them, and a sync after each seventh. At the end each file is closed.
#[tactic(auto, using(std::proofs::Common::append_assoc), unfolding(crate::specs::Made::made_text))]
pub fn made(alloc: Global, n: u32) -> Result<Blob, Memory>
    requires { IsSize n }
    ensures { IfOk result (λ text. text ≡ made_text n) }
{
    let mut out = Writer::new(alloc);
    write_opens(&mut out)?;
    write_turns(&mut out, n)?;
    write_closes(&mut out)?;
    Ok(out.finish())
}

/// Appends the lines that open the files.
fn write_opens(out: &mut Writer) -> Result<(), Memory>
    ensures { OnOk result (out.new ≡ out.old ++ each open_text 16) }
{
    let mut lane = 0u32;
    while lane < GREATEST_LANE {
        lane += 1;
        write_open(out, lane)?;
    }
    Ok(())
}

#[tactic(auto, using(std::proofs::Common::append_assoc), unfolding(crate::specs::Made::open_text))]
fn write_open(out: &mut Writer, lane: u32) -> Result<(), Memory>
    ensures { OnOk result (out.new ≡ out.old ++ open_text lane) }
{
    write_number(out, u64::from(lane))?;
    out.raw(b" open 1 c /f")?;
    write_number(out, u64::from(lane))?;
    out.raw(b"\n")?;
    Ok(())
}

/// Appends the lines between these and those that close the files.
fn write_turns(out: &mut Writer, n: u32) -> Result<(), Memory>
    requires { IsSize n }
    ensures { OnOk result (out.new ≡ out.old ++ each (turn n) n) }
{
    let mut x = u64::from(n);
    let mut k = 0u32;
    while k < n {
        k += 1;
        x = next(x);
        write_turn(out, k, x)?;
    }
    Ok(())
}

/// The number after x.
#[tactic(auto, unfolding(crate::specs::Made::next))]
fn next(x: u64) -> u64
    requires { x < 2 ^ 31 }
    ensures next { result ≡ next x }
    ensures below { result < 2 ^ 31 }
{
    (1_103_515_245 * x + 12_345) % 2_147_483_648
}

/// Appends the fill of this number, and the read and the sync after it if there are.
#[tactic(auto, using(std::proofs::Common::append_assoc), unfolding(crate::specs::Made::turn_text))]
fn write_turn(out: &mut Writer, k: u32, x: u64) -> Result<(), Memory>
    ensures { OnOk result (out.new ≡ out.old ++ turn_text k x) }
{
    write_fill(out, k, x)?;
    if k % 5 == 0 {
        write_read(out, k, x)?;
    }
    if k % 7 == 0 {
        write_sync(out, k)?;
    }
    Ok(())
}

#[tactic(auto, using(std::proofs::Common::append_assoc), unfolding(crate::specs::Made::fill_text))]
fn write_fill(out: &mut Writer, k: u32, x: u64) -> Result<(), Memory>
    ensures { OnOk result (out.new ≡ out.old ++ fill_text k x) }
{
    write_lane(out, k)?;
    out.raw(b" fill 1 ")?;
    write_place(out, x)?;
    out.raw(b" ")?;
    write_byte(out, (k % 256) as u8)?;
    out.raw(b"\n")?;
    Ok(())
}

#[tactic(auto, using(std::proofs::Common::append_assoc), unfolding(crate::specs::Made::read_text))]
fn write_read(out: &mut Writer, k: u32, x: u64) -> Result<(), Memory>
    ensures { OnOk result (out.new ≡ out.old ++ read_text k x) }
{
    write_lane(out, k)?;
    out.raw(b" read 1 ")?;
    write_place(out, x)?;
    out.raw(b"\n")?;
    Ok(())
}

#[tactic(auto, using(std::proofs::Common::append_assoc), unfolding(crate::specs::Made::sync_text))]
fn write_sync(out: &mut Writer, k: u32) -> Result<(), Memory>
    ensures { OnOk result (out.new ≡ out.old ++ sync_text k) }
{
    write_lane(out, k)?;
    out.raw(b" sync 1\n")?;
    Ok(())
}

/// Appends the number of the lane in which the k-th fill is.
fn write_lane(out: &mut Writer, k: u32) -> Result<(), Memory>
    ensures { OnOk result (out.new ≡ out.old ++ decimal (lane_of k)) }
{
    write_number(out, u64::from(k % GREATEST_LANE + 1))
}

/// Appends where a fill begins, and how many bytes it has.
#[tactic(auto, using(std::proofs::Common::append_assoc), unfolding(crate::specs::Made::place_text))]
fn write_place(out: &mut Writer, x: u64) -> Result<(), Memory>
    ensures { OnOk result (out.new ≡ out.old ++ place_text x) }
{
    write_number(out, x / 8 % 1_000_000)?;
    out.raw(b" ")?;
    write_number(out, x % 4096 + 1)?;
    Ok(())
}

/// Appends the lines that close the files.
fn write_closes(out: &mut Writer) -> Result<(), Memory>
    ensures { OnOk result (out.new ≡ out.old ++ each close_text 16) }
{
    let mut lane = 0u32;
    while lane < GREATEST_LANE {
        lane += 1;
        write_close(out, lane)?;
    }
    Ok(())
}

#[tactic(auto, using(std::proofs::Common::append_assoc), unfolding(crate::specs::Made::close_text))]
fn write_close(out: &mut Writer, lane: u32) -> Result<(), Memory>
    ensures { OnOk result (out.new ≡ out.old ++ close_text lane) }
{
    write_number(out, u64::from(lane))?;
    out.raw(b" close 1\n")?;
    Ok(())
}
