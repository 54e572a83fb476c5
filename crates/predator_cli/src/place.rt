// The command `place`.
ghost use Rattle.std.specs.Prelude.{◌≡◌, ◌≤◌, ◌^◌, IfErr, IfOk, IfSome, IsFalse, IsTrue, Some};
ghost use Rattle.base.specs.Lines.{is_line_size};
ghost use Rattle.command_line.specs.Place.{place_meaning};
ghost use Rattle.command_line.specs.Words.{place as asks};
ghost use Rattle.command_io.specs.Readings.{IsStopped};
ghost use Rattle.placement.specs.Passing.{RecountsFor};
ghost use Rattle.placement.specs.Plans.{has_room, plan_of};
ghost use Rattle.placement.specs.Sought.{is_too_large};
ghost use Rattle.placement.specs.Words.{owned_of};
ghost use Rattle.predator_cli.specs.Meets.{IsAnswered, IsFaulty, Meets};
ghost use Rattle.predator_cli.specs.Place.{AreFor, Means, WasRead, place_readings, records_for};
ghost use Rattle.shelf.specs.Shelf.{Known};
ghost use Rattle.trace_format.specs.Rules.{touches_in};

use crate::counting::see_whole;
use crate::endings::{answer, refuse};
use base::NoMemory;
use command_io::Status;
use command_line::PlaceOptions;
use placement::{Extent, Finder, Owners, PlaceRefusal, Plan, PlanFault, Recount, write_place};
use shelf::Shelf;
use std::alloc::Global;

// The most bytes of an object that is placed.
const MOST_BYTES: u32 = 1 << 24;

// Reads the trace for the object that is meant, if one is.
fn seek<S: Shelf>(
    alloc: Global,
    options: &PlaceOptions<'_>,
    shelf: &mut S,
) -> Result<Option<Extent>, Status>
    ensures sought { IfOk result (λ object. WasRead (place_meaning options.now)
        (Means (place_meaning options.now) object)
        (S.outside shelf.old) (S.outside shelf.new)) }
    ensures some { IfOk result (λ object. IfSome object (λ e. 1 ≤ e.size)) }
    ensures stopped { IfErr result (IsStopped (place_readings (place_meaning options.now))
        (S.outside shelf.old) (S.outside shelf.new)) }
{
    let mut finder = match Finder::new(alloc, options.name, options.at) {
        Ok(finder) => finder,
        Err(NoMemory) => return Err(Status::NoMemory),
    };
    match see_whole(alloc, shelf, options.trace, &mut finder) {
        Ok(_) => Ok(finder.found()),
        Err(status) => Err(status),
    }
}

// Reads it for who touches the words of an object.
fn own<S: Shelf>(
    alloc: Global,
    options: &PlaceOptions<'_>,
    extent: Extent,
    shelf: &mut S,
) -> Result<Owners, Status>
    requires some { 1 ≤ extent.size }
    requires few { extent.size ≤ 2 ^ 24 }
    ensures owned { IfOk result (λ owners. WasRead (place_meaning options.now)
        (λ items. owners ≡ owned_of extent (touches_in items))
        (S.outside shelf.old) (S.outside shelf.new)) }
    ensures stopped { IfErr result (IsStopped (place_readings (place_meaning options.now))
        (S.outside shelf.old) (S.outside shelf.new)) }
{
    let mut owners = match Owners::new(alloc, extent.addr, extent.size) {
        Ok(owners) => owners,
        Err(NoMemory) => return Err(Status::NoMemory),
    };
    match see_whole(alloc, shelf, options.trace, &mut owners) {
        Ok(_) => Ok(owners),
        Err(status) => Err(status),
    }
}

// Reads it for what the moved accesses come to.
fn count_moved<S: Shelf>(
    alloc: Global,
    options: &PlaceOptions<'_>,
    plan: Plan,
    shelf: &mut S,
) -> Result<Recount, Status>
    requires { IsTrue (is_line_size options.now.size) }
    ensures counted { IfOk result (λ recount. WasRead (place_meaning options.now)
        (λ items. RecountsFor (touches_in items) recount)
        (S.outside shelf.old) (S.outside shelf.new)) }
    ensures size { IfOk result (λ recount. recount.size ≡ options.now.size) }
    ensures plan { IfOk result (λ recount. recount.plan ≡ plan) }
    ensures stopped { IfErr result (IsStopped (place_readings (place_meaning options.now))
        (S.outside shelf.old) (S.outside shelf.new)) }
{
    let mut recount = match Recount::new(alloc, options.size, plan) {
        Ok(recount) => recount,
        Err(NoMemory) => return Err(Status::NoMemory),
    };
    match see_whole(alloc, shelf, options.trace, &mut recount) {
        Ok(_) => Ok(recount),
        Err(status) => Err(status),
    }
}

// What is reported of a plan for the object that is meant.
fn print_plan<S: Shelf>(
    alloc: Global,
    options: &PlaceOptions<'_>,
    owners: &Owners,
    plan: Plan,
    shelf: &mut S,
) -> Result<Vec<u8>, Status>
    requires size { IsTrue (is_line_size options.now.size) }
    requires meant { Known (S.outside shelf.old).held
        (λ files. AreFor (place_meaning options.now) owners.now
        (records_for (place_meaning options.now) files)) }
    requires small { IsFalse (is_too_large owners.now.extent) }
    requires room { IsTrue (has_room options.now.size owners.now) }
    requires planned { plan ≡ plan_of options.now.size owners.now }
    ensures answered { IfOk result (λ text. IsAnswered (asks (place_meaning options.now))
        (S.outside shelf.old) (S.outside shelf.new) text.items) }
    ensures faulty { IfErr result (IsFaulty (Some (asks (place_meaning options.now)))
        (S.outside shelf.old) (S.outside shelf.new)) }
{
    match count_moved(alloc, options, plan, shelf) {
        Ok(recount) => match write_place(alloc, options.name, owners, &recount) {
            Ok(text) => Ok(text),
            Err(NoMemory) => Err(Status::NoMemory),
        },
        Err(status) => Err(status),
    }
}

// What is reported of the object that is meant.
fn print_object<S: Shelf>(
    alloc: Global,
    options: &PlaceOptions<'_>,
    extent: Extent,
    shelf: &mut S,
) -> Result<Vec<u8>, Status>
    requires size { IsTrue (is_line_size options.now.size) }
    requires meant { Known (S.outside shelf.old).held
        (λ files. Means (place_meaning options.now) (Some extent)
        (records_for (place_meaning options.now) files)) }
    requires some { 1 ≤ extent.size }
    requires few { extent.size ≤ 2 ^ 24 }
    ensures answered { IfOk result (λ text. IsAnswered (asks (place_meaning options.now))
        (S.outside shelf.old) (S.outside shelf.new) text.items) }
    ensures faulty { IfErr result (IsFaulty (Some (asks (place_meaning options.now)))
        (S.outside shelf.old) (S.outside shelf.new)) }
{
    let owners = match own(alloc, options, extent, shelf) {
        Ok(owners) => owners,
        Err(status) => return Err(status),
    };
    match Plan::new(alloc, &owners, options.size) {
        Ok(plan) => print_plan(alloc, options, &owners, plan, shelf),
        Err(PlanFault::NoRoom) => Err(Status::Place(PlaceRefusal::NoRoom)),
        Err(PlanFault::NoMemory) => Err(Status::NoMemory),
    }
}

// What is reported, from the first reading on.
fn print_place<S: Shelf>(
    alloc: Global,
    options: &PlaceOptions<'_>,
    shelf: &mut S,
) -> Result<Vec<u8>, Status>
    requires { IsTrue (is_line_size options.now.size) }
    ensures answered { IfOk result (λ text. IsAnswered (asks (place_meaning options.now))
        (S.outside shelf.old) (S.outside shelf.new) text.items) }
    ensures faulty { IfErr result (IsFaulty (Some (asks (place_meaning options.now)))
        (S.outside shelf.old) (S.outside shelf.new)) }
{
    match seek(alloc, options, shelf) {
        Ok(Some(extent)) if extent.size <= MOST_BYTES => {
            print_object(alloc, options, extent, shelf)
        }
        Ok(Some(_)) => Err(Status::Place(PlaceRefusal::TooLarge)),
        Ok(None) => Err(Status::Place(PlaceRefusal::NoObject)),
        Err(status) => Err(status),
    }
}

/// Reports a new place for each word of an object in the trace of a name, by who touches it, and
/// what the accesses come to then. The trace is read three times.
pub fn place<S: Shelf>(alloc: Global, options: &PlaceOptions<'_>, shelf: &mut S) -> Status
    requires { IsTrue (is_line_size options.now.size) }
    ensures { Meets (Some (asks (place_meaning options.now)))
        (S.outside shelf.old) (S.outside shelf.new) result }
{
    match print_place(alloc, options, shelf) {
        Ok(text) => answer(shelf, &text),
        Err(status) => refuse(alloc, shelf, status),
    }
}
