//! Schedules of two clients, read from their text.

ghost use Rattle.std.specs.Prelude.{◌≡◌, IfOk, unwrap_or, []};
ghost use Rattle.std.specs.List.{list_all};
ghost use Rattle.std.specs.Option.{option_map};
ghost use Rattle.script_text.specs.Lines.{words};
ghost use Rattle.world_link.specs.Orders.{AreLetters, BeginsPair, IsPairRead, PairReads, after_pair_line, is_letter, no_pair_read, order_in, ordered, pair_read_of, pair_read_view};
ghost use Rattle.world_link.specs.Pairs.{IsHonestPair, seen_pair};

use crate::pair_world::PairWorld;
use crate::reading::{MOST_BYTES, Schedule};
use crate::schedule::ScheduleFault;
use crate::world::World;
use script_text::{first_line, two_words};
use std::alloc::Global;
use xdr_codec::{Blob, Memory};

/// What a schedule of two clients begins a world with.
#[derive(Drop)]
pub(crate) struct PairSchedule {
    schedule: Schedule,
    /// Whose turns come first, if a line says it.
    order: Option<Blob>,
}

/// Reads a schedule of at most 1,048,576 bytes that may have one line `order LETTERS`, of letters `a` and `b`. It gives the world that it begins, the
/// milliseconds from one reading of its clock to the next, and those letters, none without that line. The world is honest. The faults are those of
/// `read_schedule`.
pub fn parse_pair(alloc: Global, text: &[u8]) -> Result<(PairWorld, u64, Blob), ScheduleFault>
    ensures begins { BeginsPair (pair_read_of text.now) result }
    ensures honest { IfOk result (λ begun. IsHonestPair (seen_pair begun.0)) }
    ensures letters { IfOk result (λ begun. AreLetters begun.2) }
{
    begin_pair(alloc, text)
}

fn begin_pair(alloc: Global, text: &[u8]) -> Result<(PairWorld, u64, Blob), ScheduleFault>
    ensures { BeginsPair (pair_read_of text.now) result }
{
    // The world keeps the export of the start beside the one that it changes, so the text is read twice.
    let start = read_pair(alloc, text)?;
    let PairSchedule { schedule, order } = read_pair(alloc, text)?;
    let tick = schedule.plan.tick() as u64;
    let world = World::of(alloc, schedule.plan, start.schedule.export, schedule.export);
    Ok((PairWorld::of(world), tick, letters(alloc, order)))
}

/// The letters, none if no line gives them.
fn letters(alloc: Global, order: Option<Blob>) -> Blob
    ensures { result ≡ unwrap_or order [] }
{
    match order {
        Some(letters) => letters,
        None => Blob::of(Vec::new(alloc)),
    }
}

fn read_pair(alloc: Global, text: &[u8]) -> Result<PairSchedule, ScheduleFault>
    ensures { IsPairRead (pair_read_of text.now) result }
{
    if text.len() > MOST_BYTES {
        return Err(ScheduleFault::Line(0));
    }
    let mut schedule = PairSchedule::new(alloc)?;
    let mut rest = text;
    let mut number = 0u32;
    while !rest.is_empty() {
        let (line, after) = first_line(rest);
        number += 1;
        if !schedule.read_line(alloc, line)? {
            return Err(ScheduleFault::Line(number));
        }
        rest = after;
    }
    Ok(schedule)
}

impl PairSchedule {
    /// Nothing is planned, there is the root alone, and there is no order.
    fn new(alloc: Global) -> Result<PairSchedule, Memory>
        ensures { IfOk result (λ s. pair_read_view s ≡ no_pair_read) }
    {
        Ok(PairSchedule {
            schedule: Schedule::new(alloc)?,
            order: None,
        })
    }

    /// Takes over a line. It is false exactly if the line isn't of the form.
    fn read_line(&mut self, alloc: Global, line: &[u8]) -> Result<bool, Memory>
        ensures { IfOk result (λ formed. PairReads (after_pair_line (pair_read_view self.old) line.now) formed (pair_read_view self.new)) }
    {
        match order_of(line) {
            Some(letters) => self.take_order(alloc, letters),
            None => self.schedule.read_line(alloc, line),
        }
    }

    /// Takes over an order. It is false exactly if there is one already.
    fn take_order(&mut self, alloc: Global, letters: &[u8]) -> Result<bool, Memory>
        ensures { IfOk result (λ formed.
            PairReads (ordered (pair_read_view self.old) (pair_read_view self.old).order letters.now) formed (pair_read_view self.new)) }
    {
        if self.order.is_some() {
            return Ok(false);
        }
        self.order = Some(Blob::copy(alloc, letters)?);
        Ok(true)
    }
}

/// The letters of a line `order LETTERS`.
fn order_of<'a>(line: &'a [u8]) -> Option<&'a [u8]>
    ensures { option_map (λ letters. letters.now) result ≡ order_in (words line.entry.now) }
{
    let (word, letters) = two_words(line)?;
    if word == b"order".as_slice() && are_letters(letters) {
        Some(letters)
    } else {
        None
    }
}

fn are_letters(letters: &[u8]) -> bool
    ensures { result ≡ list_all is_letter letters.now }
{
    letters
        .iter()
        .all(|letter| *letter == b'a' || *letter == b'b')
}
