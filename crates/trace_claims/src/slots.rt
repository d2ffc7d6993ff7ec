//! Which files operations are of, and which closes are the last ones of a file.

ghost use Rattle.std.specs.Prelude.{◌≡◌, ◌<◌, ◌≤◌, ◌+◌, ◌++◌, ◌∷◌, [], List, Decides, length, IfOk};
ghost use Rattle.std.specs.List.{list_any};
ghost use Rattle.claims.specs.Modes.{Modes};
ghost use Rattle.world_model.specs.declared.entry.Entry as model;
ghost use Rattle.trace_claims.specs.declared.endings.Outcome.TheVariants.{Done};
ghost use Rattle.trace_claims.specs.Courses.{IsCourse, HasCourses, slot_of_work};
ghost use Rattle.trace_claims.specs.Operations.{FindsFile, HoldsFor};
ghost use Rattle.trace_claims.specs.Leaving.{was_refused, gives_up, gives_up_beside, has_file, left_of, IsHeldAt, SlotHolds, OpensHold};
ghost use Rattle.trace_claims.specs.Lefts.{after_close, left_unless, LeftsUpTo, AddsClose, AddsLefts};
ghost use Rattle.trace_claims.specs.Slotted.{IsNamedOf, HasNamed, opens_there, closes_there, ended_before_that, close_at, later, hold_by, list_of};
ghost use Rattle.trace_claims.specs.Slotted.{LastClose, HoldsBy};

use crate::coming::none_came;
use crate::courses::{Course, Work};
use crate::endings::Outcome;
use crate::operations::{Hold, Operation};
use crate::touched::{Left, no_put};
use nfs_types::Handle;
use std::alloc::Global;
use trace_answers::{opened_file, put_file};
use world_model::Entry;
use xdr_codec::Memory;

/// An operation, and the file of an open or put that succeeded.
#[derive(Clone, Copy, Debug)]
pub(crate) struct Named {
    pub(crate) course: Course,
    pub(crate) file: Option<Handle>,
}

/// All operations, in order, each with the file of an open or put that succeeded.
pub(crate) fn all_named(
    alloc: Global,
    entries: &[Entry],
    courses: &[Course],
    nocto: bool,
) -> Result<Vec<Named>, Memory>
    requires { HasCourses entries.now (length entries.now) courses.now }
    ensures { (m : Modes) → m.nocto ≡ nocto → IfOk result (λ all. HasNamed m entries.now all.items) }
{
    let mut all = Vec::new(alloc);
    let mut at = 0;
    while at < courses.len() {
        let named = named_of(alloc, entries, &courses[at], nocto)?;
        add_named(&mut all, named.course, named.file)?;
        at += 1;
    }
    Ok(all)
}

fn add_named(all: &mut Vec<Named>, course: Course, file: Option<Handle>) -> Result<(), Memory>
    ensures { IfOk result (λ done. all.new.items ≡ all.old.items ++ record { course = course; file = file } ∷ []) }
{
    all.push(Named { course, file })?;
    Ok(())
}

/// An operation with its file.
fn named_of(alloc: Global, entries: &[Entry], course: &Course, nocto: bool) -> Result<Named, Memory>
    requires { IsCourse entries.now course.now }
    ensures { (m : Modes) → m.nocto ≡ nocto → IfOk result (IsNamedOf m entries.now course.now) }
{
    let file = named_file(alloc, entries, course, nocto)?;
    Ok(Named {
        course: *course,
        file,
    })
}

/// The file of an open or put that succeeded.
fn named_file(
    alloc: Global,
    entries: &[Entry],
    course: &Course,
    nocto: bool,
) -> Result<Option<Handle>, Memory>
    requires { IsCourse entries.now course.now }
    ensures { (m : Modes) → m.nocto ≡ nocto → IfOk result (FindsFile m entries.now course.now) }
{
    match course.ending.outcome {
        Outcome::Done => done_file(alloc, entries, course, nocto),
        _ => Ok(None),
    }
}

/// The file of an open or put, as if it succeeded.
fn done_file(
    alloc: Global,
    entries: &[Entry],
    course: &Course,
    nocto: bool,
) -> Result<Option<Handle>, Memory>
    requires is { IsCourse entries.now course.now }
    requires done { course.now.ending.outcome ≡ Done }
    ensures { (m : Modes) → m.nocto ≡ nocto → IfOk result (FindsFile m entries.now course.now) }
{
    match course.work {
        Work::Open { .. } => opened_file(alloc, entries, nocto, course.ending.end),
        Work::Put { .. } => put_file(alloc, entries, course.ending.end),
        _ => Ok(None),
    }
}

/// What the slot of an operation holds as it begins.
pub(crate) fn holds_of(alloc: Global, all: &[Named], course: &Course) -> Result<Vec<Hold>, Memory>
    ensures { (m : Modes) (h : List model.Entry) → HasNamed m h all.now → IsCourse h course.now
        → IfOk result (λ holds. HoldsFor m h course.now (slot_of_work course.now.work) holds.items) }
{
    match course.slot() {
        Some(slot) => held_at(alloc, all, course.lane, slot, course.place),
        None => Ok(Vec::new(alloc)),
    }
}

/// What a slot holds before a place: each open of it that was answered, and since which no close of it was.
fn held_at(
    alloc: Global,
    all: &[Named],
    lane: u8,
    slot: u8,
    place: usize,
) -> Result<Vec<Hold>, Memory>
    ensures { IfOk result (λ holds. HoldsBy all.now lane slot place (length all.now) holds.items) }
{
    let closed = last_close(all, lane, slot, place);
    let mut holds = Vec::new(alloc);
    let mut at = 0;
    while at < all.len() {
        add(&mut holds, hold_by(&all[at], lane, slot, place, closed))?;
        at += 1;
    }
    Ok(holds)
}

fn add(all: &mut Vec<Hold>, found: Option<Hold>) -> Result<(), Memory>
    ensures { IfOk result (λ done. all.new.items ≡ all.old.items ++ list_of found) }
{
    if let Some(hold) = found {
        all.push(hold)?;
    }
    Ok(())
}

/// What a slot holds by an open before a place, if the last close of the slot was answered there.
fn hold_by(named: &Named, lane: u8, slot: u8, place: usize, closed: Option<usize>) -> Option<Hold>
    ensures { result ≡ hold_by named.now lane slot place closed }
{
    if !opens_there(named, lane, slot, place) || ended_before_that(named, closed) {
        return None;
    }
    match named.file {
        Some(file) => Some(Hold {
            opened_at: named.course.place,
            file,
        }),
        None => None,
    }
}

/// Whether it opens the slot of the lane and was answered before a place.
fn opens_there(named: &Named, lane: u8, slot: u8, place: usize) -> bool
    ensures { result ≡ opens_there named.now lane slot place }
{
    named.course.lane == lane && named.course.opens(slot) && named.course.ended_before(place)
}

/// Whether it closes the slot of the lane and was answered before a place.
fn closes_there(named: &Named, lane: u8, slot: u8, place: usize) -> bool
    ensures { result ≡ closes_there named.now lane slot place }
{
    named.course.lane == lane && named.course.closes(slot) && named.course.ended_before(place)
}

/// Whether it was answered before that place, if there is one.
fn ended_before_that(named: &Named, place: Option<usize>) -> bool
    ensures { result ≡ ended_before_that named.now place }
{
    match place {
        Some(place) => named.course.ended_before(place),
        None => false,
    }
}

/// The place of the last answer to a close of a slot before a place.
fn last_close(all: &[Named], lane: u8, slot: u8, place: usize) -> Option<usize>
    ensures { LastClose all.now lane slot place (length all.now) result }
{
    let mut last = None;
    let mut at = 0;
    while at < all.len() {
        last = later(last, close_at(&all[at], lane, slot, place));
        at += 1;
    }
    last
}

/// Where it ended, if it closes the slot and was answered before a place.
fn close_at(named: &Named, lane: u8, slot: u8, place: usize) -> Option<usize>
    ensures { result ≡ close_at named.now lane slot place }
{
    if closes_there(named, lane, slot, place) {
        Some(named.course.ending.end)
    } else {
        None
    }
}

/// The later of two places, if there is one.
fn later(a: Option<usize>, b: Option<usize>) -> Option<usize>
    ensures { result ≡ later a b }
{
    match a {
        Some(a) => match b {
            Some(b) => Some(a.max(b)),
            None => Some(a),
        },
        None => b,
    }
}

/// Whether some slot holds the file before a place.
fn is_held(alloc: Global, all: &[Named], file: &Handle, place: usize) -> Result<bool, Memory>
    ensures { (m : Modes) (h : List model.Entry) → HasNamed m h all.now → place ≤ length h → IfOk result (λ b. Decides b (IsHeldAt m h place file.now)) }
{
    let mut at = 0;
    while at < all.len() {
        if holds_there(alloc, all, &all[at], file, place)? {
            return Ok(true);
        }
        at += 1;
    }
    Ok(false)
}

/// Whether the slot that an operation opens holds the file before a place.
fn holds_there(
    alloc: Global,
    all: &[Named],
    named: &Named,
    file: &Handle,
    place: usize,
) -> Result<bool, Memory>
    ensures { (m : Modes) (h : List model.Entry) → HasNamed m h all.now → place ≤ length h
        → IfOk result (λ b. Decides b (OpensHold m h place named.now file.now)) }
{
    match named.course.work {
        Work::Open { slot } => slot_holds(alloc, all, named.course.lane, slot, file, place),
        _ => Ok(false),
    }
}

/// Whether a slot holds the file before a place.
fn slot_holds(
    alloc: Global,
    all: &[Named],
    lane: u8,
    slot: u8,
    file: &Handle,
    place: usize,
) -> Result<bool, Memory>
    ensures { (m : Modes) (h : List model.Entry) → HasNamed m h all.now → place ≤ length h
        → IfOk result (λ b. Decides b (SlotHolds m h place lane slot file.now)) }
{
    let holds = held_at(alloc, all, lane, slot, place)?;
    Ok(has_file(holds.as_slice(), file))
}

/// Whether one of the holds is of the file.
fn has_file(holds: &[Hold], file: &Handle) -> bool
    ensures { result ≡ has_file holds.now file.now }
{
    holds.iter().any(|hold| hold.file == *file)
}

/// The last closes, in the order of their closes, in a history of so many entries.
pub(crate) fn all_left(
    alloc: Global,
    named: &[Named],
    operations: &[Operation],
    came: &[usize],
    count: usize,
) -> Result<Vec<Left>, Memory>
    ensures { (m : Modes) (h : List model.Entry) → HasNamed m h named.now → count ≡ length h
        → IfOk result (λ all. LeftsUpTo m h operations.now came.now (length operations.now) all.items) }
{
    let mut all = Vec::new(alloc);
    let mut at = 0;
    while at < operations.len() {
        add_left(
            alloc,
            &mut all,
            named,
            operations,
            came,
            count,
            &operations[at],
        )?;
        at += 1;
    }
    Ok(all)
}

/// Adds the files that a close leaves, if it was answered.
fn add_left(
    alloc: Global,
    all: &mut Vec<Left>,
    named: &[Named],
    operations: &[Operation],
    came: &[usize],
    count: usize,
    close: &Operation,
) -> Result<(), Memory>
    ensures { (m : Modes) (h : List model.Entry) → HasNamed m h named.now → count ≡ length h
        → IfOk result (λ done. AddsClose m h operations.now came.now close.now all.old.items all.new.items) }
{
    match after_close(&close.course, count) {
        Some(after) => add_of_holds(
            alloc,
            all,
            named,
            operations,
            came,
            &close.course,
            after,
            close.holds.as_slice(),
        ),
        None => Ok(()),
    }
}

/// The moment after the answer of a close, if it was answered among so many entries.
fn after_close(course: &Course, count: usize) -> Option<usize>
    ensures { result ≡ after_close course.now count }
{
    if course.is_close() && course.ending.end < count {
        Some(course.ending.end + 1)
    } else {
        None
    }
}

/// Adds the files of the holds of a close that no slot holds after its answer.
fn add_of_holds(
    alloc: Global,
    all: &mut Vec<Left>,
    named: &[Named],
    operations: &[Operation],
    came: &[usize],
    close: &Course,
    after: usize,
    holds: &[Hold],
) -> Result<(), Memory>
    ensures { (m : Modes) (h : List model.Entry) → HasNamed m h named.now → after ≡ close.now.ending.end + 1 → after ≤ length h
        → IfOk result (λ done. AddsLefts m h operations.now came.now close.now holds.now (length holds.now) all.old.items all.new.items) }
{
    let mut at = 0;
    while at < holds.len() {
        let held = is_held_after(alloc, named, &holds[at], after)?;
        add_if_left(all, held, left_of(operations, came, close, &holds[at]))?;
        at += 1;
    }
    Ok(())
}

/// Whether some slot holds the file of a hold before a place.
fn is_held_after(alloc: Global, named: &[Named], hold: &Hold, after: usize) -> Result<bool, Memory>
    ensures { (m : Modes) (h : List model.Entry) → HasNamed m h named.now → after ≤ length h → IfOk result (λ b. Decides b (IsHeldAt m h after hold.now.file)) }
{
    is_held(alloc, named, &hold.file, after)
}

/// Adds a last close, unless some slot still holds the file.
fn add_if_left(all: &mut Vec<Left>, held: bool, left: Left) -> Result<(), Memory>
    ensures { IfOk result (λ done. all.new.items ≡ all.old.items ++ left_unless held left) }
{
    if !held {
        all.push(left)?;
    }
    Ok(())
}

/// A last close of a file.
fn left_of(operations: &[Operation], came: &[usize], close: &Course, hold: &Hold) -> Left
    ensures { result ≡ left_of operations.now came.now close.now hold.now }
{
    Left {
        place: close.ending.end,
        file: hold.file,
        gives_up: gives_up(operations, came, close, &hold.file),
        no_put: no_put(operations, close.ending.end),
    }
}

/// Whether a last close was refused, or another close of the file before it with no record between.
fn gives_up(operations: &[Operation], came: &[usize], close: &Course, file: &Handle) -> bool
    ensures { result ≡ gives_up operations.now came.now close.now file.now }
{
    was_refused(close) || some_gives_up(operations, came, close.ending.end, file)
}

/// Whether some close of the file was refused before a place, with no record between.
fn some_gives_up(operations: &[Operation], came: &[usize], place: usize, file: &Handle) -> bool
    ensures { result ≡ list_any (gives_up_beside came.now place file.now) operations.now }
{
    operations
        .iter()
        .any(|other| gives_up_beside(other, came, place, file))
}

fn was_refused(course: &Course) -> bool
    ensures { result ≡ was_refused course.now }
{
    match course.ending.outcome {
        Outcome::Refused => true,
        _ => false,
    }
}

/// Whether a close of the file was refused before a place, with no record between.
fn gives_up_beside(other: &Operation, came: &[usize], place: usize, file: &Handle) -> bool
    ensures { result ≡ gives_up_beside came.now place file.now other.now }
{
    other.course.is_close()
        && other.course.is_refused(place)
        && other.is_of(file)
        && none_came(came, other.course.ending.end, place)
}
