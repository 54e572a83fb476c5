// What is kept of each hart that came to a line: a seat, which is found by the lowest bits of its
// number, and says whose it is.
ghost use Rattle.std.specs.Prelude.{◌≡◌, ℕ, ◌<◌, ◌^◌, None, Some, [], eqb, is_some, length, nat_eq};
ghost use Rattle.std.specs.Prelude.{OnOk, OnErr, IsOk, IsTrue, if◌then◌else◌, slice_set};
ghost use Rattle.std.specs.Map.{lookup};
ghost use Rattle.indexmap.specs.IndexMap.{insert_entry};
ghost use Rattle.misses.specs.MissCounts.{visits_of};
ghost use Rattle.misses.specs.Seats.{IsRound, is_its, is_open, place_among, seat_of, seen};

use crate::comers::Comers;
use crate::line_misses::Visits;
use crate::seat::{NO_HART, Seat};
use base::NoMemory;
use std::alloc::Global;
use std::marker::Model;

// How many seats there are at first.
const FEW: usize = 8;

/// The visits of each hart that came to a line, in the order in which they came.
#[derive(Drop)]
pub struct HartTable {
    seats: Vec<Seat>,
    came: Comers,
}

impl Model for HartTable {
    ghost use Rattle.std.specs.Prelude.{ℕ, List};
    ghost use Rattle.misses.specs.Seats.{AreSeated};
    ghost use Rattle.misses.specs.declared.line_misses.Visits.{Visits};

    ghost Value = { List (ℕ × Visits) };

    ghost view = { λ t. t.came.items };

    ghost invariant = { λ t. AreSeated t.seats.items t.came.items };
}

// The place of a hart.
#[inline(always)]
fn seat_index(seats: &Vec<Seat>, hart: u16) -> usize
    ensures { result ≡ place_among (length seats.now.items) hart }
{
    usize::from(hart) & seats.len().saturating_sub(1)
}

// The seat at a hart's place.
#[inline(always)]
fn seat_at(seats: &Vec<Seat>, hart: u16) -> Seat
    ensures { result ≡ seat_of seats.now.items hart }
{
    match seats.get(seat_index(seats, hart)) {
        Some(seat) => *seat,
        None => Seat::free(),
    }
}

// Puts a seat to a hart's place, if the one there is the hart's, and says whether it is.
#[inline(always)]
fn put_at(seats: &mut Vec<Seat>, hart: u16, seat: Seat) -> bool
    requires { hart < 256 }
    ensures found { result ≡ is_its seats.old.items hart }
    ensures put { seats.new.items ≡ if result then slice_set seats.old.items
        (place_among (length seats.old.items) hart) seat else seats.old.items }
{
    let place = seat_index(seats, hart);
    match seats.get_mut(place) {
        Some(old) => {
            if old.number() == hart {
                *old = seat;
                return true;
            }
            false
        }
        None => false,
    }
}

// Whether a hart may take the seat at its place: it is free, or its hart has another place now.
fn is_open(seats: &Vec<Seat>, hart: u16) -> bool
    ensures { result ≡ is_open seats.now.items hart }
{
    let number = seat_at(seats, hart).number();
    !seats.is_empty() && (number >= NO_HART || seat_index(seats, number) != seat_index(seats, hart))
}

// Makes twice as many seats, each the same as the one that its harts had.
fn spread(seats: &mut Vec<Seat>) -> Result<(), NoMemory>
    requires round { IsRound (length seats.old.items) }
    ensures round { IsRound (length seats.new.items) }
    ensures same { (h : ℕ) → h < 256 → seen seats.new.items h ≡ seen seats.old.items h }
    ensures more { OnOk result (length seats.old.items < length seats.new.items) }
{
    let count = seats.len();
    if count == 0 {
        return match seats.resize(FEW, Seat::free()) {
            Ok(()) => Ok(()),
            Err(_) => Err(NoMemory),
        };
    }
    match seats.extend_from_within(0..count) {
        Ok(()) => Ok(()),
        Err(_) => Err(NoMemory),
    }
}

// Makes twice as many seats until a hart may take the one at its place.
fn make_room(seats: &mut Vec<Seat>, hart: u16) -> Result<(), NoMemory>
    requires few { hart < 256 }
    requires round { IsRound (length seats.old.items) }
    requires absent { seen seats.old.items hart ≡ None }
    ensures round { IsRound (length seats.new.items) }
    ensures same { (h : ℕ) → h < 256 → seen seats.new.items h ≡ seen seats.old.items h }
    ensures room { OnOk result (IsTrue (is_open seats.new.items hart)) }
{
    while !is_open(seats, hart) {
        match spread(seats) {
            Ok(()) => {}
            Err(fault) => return Err(fault),
        }
    }
    Ok(())
}

// Notes the first visit of a hart.
#[inline(never)]
fn add(seats: &mut Vec<Seat>, hart: u16, visits: Visits) -> Result<(), NoMemory>
    requires few { hart < 256 }
    requires accessed { visits.accessed < 2 ^ 43 }
    requires loaded { visits.loaded < 2 ^ 43 }
    requires round { IsRound (length seats.old.items) }
    requires absent { seen seats.old.items hart ≡ None }
    ensures round { IsRound (length seats.new.items) }
    ensures refused { OnErr result
        ((h : ℕ) → h < 256 → seen seats.new.items h ≡ seen seats.old.items h) }
    ensures added { OnOk result ((h : ℕ) → h < 256 → seen seats.new.items h
        ≡ if eqb h hart then Some visits else seen seats.old.items h) }
{
    match make_room(seats, hart) {
        Ok(()) => {}
        Err(fault) => return Err(fault),
    }
    let place = seat_index(seats, hart);
    seats[place] = Seat::of(hart, visits);
    Ok(())
}

impl HartTable {
    /// No hart came.
    pub(crate) fn new(alloc: Global) -> HartTable
        ensures { result ≡ [] }
    {
        HartTable {
            seats: Vec::new(alloc),
            came: Comers::new(),
        }
    }

    /// What is kept of a hart.
    #[inline(always)]
    pub(crate) fn visits(&self, hart: u16) -> Visits
        requires { hart < 256 }
        ensures value { result ≡ visits_of self.now hart }
        ensures small { result.loaded < 2 ^ 43 }
    {
        let seat = seat_at(&self.seats, hart);
        if seat.number() == hart {
            seat.visits()
        } else {
            Visits {
                accessed: 0,
                loaded: 0,
            }
        }
    }

    /// Keeps these visits of a hart. It takes memory where the hart comes for the first time; where
    /// there is none, nothing changes.
    #[inline(always)]
    pub(crate) fn put(&mut self, hart: u16, visits: Visits) -> Result<(), NoMemory>
        requires few { hart < 256 }
        requires accessed { visits.accessed < 2 ^ 43 }
        requires loaded { visits.loaded < 2 ^ 43 }
        ensures noted { OnOk result (self.new ≡ insert_entry nat_eq self.old hart visits) }
        ensures refused { OnErr result (self.new ≡ self.old) }
        ensures known { IsTrue (is_some (lookup (eqb hart) self.old)) → IsOk result }
    {
        let came = self.came.and(&Seat::of(hart, visits));
        // Each has a seat of its own, so that none has to lie in memory.
        if put_at(&mut self.seats, hart, Seat::of(hart, visits)) {
            self.came = came;
            return Ok(());
        }
        match add(&mut self.seats, hart, visits) {
            Ok(()) => {
                self.came = came;
                Ok(())
            }
            Err(fault) => Err(fault),
        }
    }
}
