//! Schedules, read from their text.

ghost use Rattle.std.specs.Prelude.{◌≡◌, true, false, IfOk, option_and_then, if◌then◌else◌};
ghost use Rattle.std.specs.Option.{option_copied, option_map};
ghost use Rattle.script_text.specs.Lines.{words};
ghost use Rattle.export_fs.specs.Placing.{placed};
ghost use Rattle.world_link.specs.Directives.{directive_of};
ghost use Rattle.world_link.specs.Readings.{read_of, read_view, after_line, after_directive, nothing_read, IsRead, Reads};
ghost use Rattle.world_link.specs.declared.directive.Directive.TheVariants.{Place};

use crate::directive::{Directive, read_directive};
use crate::plan::Plan;
use crate::schedule::ScheduleFault;
use export_fs::Export;
use script_text::{first_line, is_skipped, is_utf8};
use std::alloc::Global;
use world_model::Path;
use xdr_codec::{Blob, Memory};

/// The most bytes of a schedule.
pub(crate) const MOST_BYTES: usize = 1_048_576;

/// What a schedule begins a world with.
#[derive(Drop)]
pub struct Schedule {
    /// What becomes of transmissions and dials, the clock's tick and the status of MNT.
    pub plan: Plan,
    /// The export with the objects of the start.
    pub export: Export,
}

/// Reads a schedule of at most 1,048,576 bytes.
///
/// `Line` has the number of the first line that isn't of the form, counted from 1, and 0 if the text is longer; a
/// line for an object that can't be placed isn't of the form. Empty lines and lines that begin with `#` are skipped.
pub fn read_schedule(alloc: Global, text: &[u8]) -> Result<Schedule, ScheduleFault>
    ensures { IsRead (read_of text.now) result }
{
    if text.len() > MOST_BYTES {
        return Err(ScheduleFault::Line(0));
    }
    let mut schedule = Schedule::new(alloc)?;
    let mut rest = text;
    let mut number = 0u32;
    while !rest.is_empty() {
        let (line, after) = first_line(rest);
        number += 1;
        if !schedule.read_line(alloc, line)? {
            return Err(ScheduleFault::Line(number));
        }
        rest = after;
    }
    Ok(schedule)
}

impl Schedule {
    /// Nothing is planned, and there is the root alone.
    pub(crate) fn new(alloc: Global) -> Result<Schedule, Memory>
        ensures { IfOk result (λ s. read_view s ≡ nothing_read) }
    {
        Ok(Schedule {
            plan: Plan::new(alloc),
            export: Export::new(alloc)?,
        })
    }

    /// Takes over a line. It is false exactly if the line isn't of the form.
    pub(crate) fn read_line(&mut self, alloc: Global, line: &[u8]) -> Result<bool, Memory>
        ensures { IfOk result (λ formed. Reads (after_line (read_view self.old) line.now) formed (read_view self.new)) }
    {
        if !is_utf8(line) {
            return Ok(false);
        }
        if is_skipped(line) {
            return Ok(true);
        }
        match read_directive(alloc, line)? {
            Some(directive) => self.follow(directive),
            None => Ok(false),
        }
    }

    /// Takes over what a line asks for. It is false exactly if that is an object that can't be placed.
    fn follow(&mut self, directive: Directive) -> Result<bool, Memory>
        ensures { IfOk result (λ formed. Reads (after_directive (read_view self.old) directive) formed (read_view self.new)) }
    {
        match directive {
            Directive::Place { path, file } => self.place(path, file),
            other => {
                self.plan.add(other)?;
                Ok(true)
            }
        }
    }

    /// Places an object of the start.
    fn place(&mut self, path: Path, file: Option<Blob>) -> Result<bool, Memory>
        ensures { IfOk result (λ made. Reads (after_directive (read_view self.old) (Place path file)) made (read_view self.new)) }
    {
        match file {
            Some(bytes) => self.export.place(&path, Some(bytes.bytes())),
            None => self.export.place(&path, None),
        }
    }
}
