// Tables of sites and of invalidations.
ghost use Rattle.std.specs.Prelude.{◌≡◌, ◌<◌, ◌^◌, ◌||◌, IsFalse, IsOk, IsTrue, OnErr, OnOk, Some};
ghost use Rattle.std.specs.Prelude.{eqb, is_some, nat_eq};
ghost use Rattle.std.specs.Map.{lookup};
ghost use Rattle.indexmap.specs.IndexMap.{insert_entry};
ghost use Rattle.sharing_rules.specs.Words.{accesses};
ghost use Rattle.invalidations.specs.LineInvalidations.{CanNote, HasRoom, IsFew, IsSameTables};
ghost use Rattle.invalidations.specs.LineInvalidations.{has_sides, has_site};
ghost use Rattle.invalidations.specs.LineInvalidations.{is_new_site, is_new_invalidation};
ghost use Rattle.invalidations.specs.LineInvalidations.{note_sides};
ghost use Rattle.invalidations.specs.LineInvalidations.{note_since, note_site, note_taken};
ghost use Rattle.invalidations.specs.LineInvalidations.{note_invalidation, taken_at};
ghost use Rattle.invalidations.specs.LineInvalidations.{word_at};
ghost use Rattle.invalidations.specs.Invalidations.{harts_of, pcs_of};

use crate::sited::{Invalidation, Sides, Sited};
use base::{Access, NoMemory};
use indexmap::IndexMap;
use sharing_rules::{Owner, Word};

/// How many invalidations, and how many of them of one word.
#[derive(Clone, Copy, PartialEq, Eq, Debug)]
pub struct Taken {
    pub taken: u64,
    pub same: u64,
}

/// One invalidation more.
pub(crate) fn after(taken: Taken, same: bool) -> Taken
    requires { IsFew taken }
    ensures { result ≡ note_taken taken same }
{
    Taken {
        taken: taken.taken + 1,
        same: taken.same + u64::from(same),
    }
}

/// Makes room for two sides, where they are new.
pub(crate) fn make_room(table: &mut IndexMap<Sides, Taken>, sides: Sides) -> Result<(), NoMemory>
    ensures same { table.new.entries ≡ table.old.entries }
    ensures room { OnOk result (HasRoom table.new sides) }
    ensures known { IsTrue (has_sides table.old.entries sides) → IsOk result }
{
    if table.contains_key(&sides) {
        return Ok(());
    }
    match table.reserve(1) {
        Ok(()) => Ok(()),
        Err(_) => Err(NoMemory),
    }
}

// How many invalidations there were between two sides.
fn taken_between(table: &IndexMap<Sides, Taken>, sides: Sides) -> Taken
    ensures { result ≡ taken_at table.now.entries sides }
{
    match table.get(&sides) {
        Some(taken) => *taken,
        None => Taken { taken: 0, same: 0 },
    }
}

/// Notes an invalidation between two sides, for which there is room.
pub(crate) fn note_invalidation(table: &mut IndexMap<Sides, Taken>, sides: Sides, same: bool)
    requires room { HasRoom table.old sides }
    requires few { IsFew (taken_at table.old.entries sides) }
    ensures { table.new.entries ≡ note_invalidation table.old.entries sides same }
{
    let taken = after(taken_between(table, sides), same);
    match table.insert(sides, taken) {
        Ok(_) => {}
        Err(_) => unreachable!(),
    }
}

// What a site has done.
fn word_of_site(sites: &IndexMap<u32, Word>, pc: u32) -> Word
    ensures { result ≡ word_at sites.now.entries pc }
{
    match sites.get(&pc) {
        Some(word) => *word,
        None => Word {
            reads: 0,
            writes: 0,
            owner: Owner::None,
        },
    }
}

/// Puts a value at a site, or at the number of a line.
pub(crate) fn put<V: Copy>(sites: &mut IndexMap<u32, V>, pc: u32, value: V) -> Result<(), NoMemory>
    ensures put { OnOk result
        (sites.new.entries ≡ insert_entry nat_eq sites.old.entries pc value) }
    ensures refused { OnErr result (sites.new.entries ≡ sites.old.entries) }
    ensures known { IsTrue (is_some (lookup (eqb pc) sites.old.entries)) → IsOk result }
{
    match sites.insert(pc, value) {
        Ok(_) => Ok(()),
        Err(_) => Err(NoMemory),
    }
}

// Notes an access of a site. It takes memory where the site is new.
fn note_site(sites: &mut IndexMap<u32, Word>, pc: u32, access: &Access) -> Result<(), NoMemory>
    requires { accesses (word_at sites.old.entries pc) < 2 ^ 63 }
    ensures noted { OnOk result (sites.new.entries ≡ note_site sites.old.entries pc access.now) }
    ensures refused { OnErr result (sites.new.entries ≡ sites.old.entries) }
    ensures known { IsTrue (has_site sites.old.entries pc) → IsOk result }
{
    let mut word = word_of_site(sites, pc);
    word.note(access);
    put(sites, pc, word)
}

/// The tables of a line: its sites, the pairs of instructions and those of harts.
#[derive(Drop)]
pub(crate) struct Tables {
    pub sites: IndexMap<u32, Word>,
    pub pairs: IndexMap<Sides, Taken>,
    pub harts: IndexMap<Sides, Taken>,
}

// Notes an access of a site, if it is one from the start on.
fn note_site_since(
    sites: &mut IndexMap<u32, Word>,
    sited: &Sited,
    since: bool,
) -> Result<(), NoMemory>
    requires { accesses (word_at sites.old.entries sited.now.pc) < 2 ^ 63 }
    ensures noted { OnOk result (sites.new.entries
        ≡ note_since sites.old.entries sited.now since) }
    ensures refused { OnErr result (sites.new.entries ≡ sites.old.entries) }
    ensures known { IsFalse (is_new_site sites.old.entries sited.now since) → IsOk result }
{
    if since {
        note_site(sites, sited.pc, &sited.access)
    } else {
        Ok(())
    }
}

impl Tables {
    // Makes room for both sides of an invalidation, where they are new.
    fn make_room(&mut self, invalidation: &Invalidation) -> Result<(), NoMemory>
        ensures sites { self.new.sites.entries ≡ self.old.sites.entries }
        ensures pairs { self.new.pairs.entries ≡ self.old.pairs.entries }
        ensures harts { self.new.harts.entries ≡ self.old.harts.entries }
        ensures pairs_room { OnOk result (HasRoom self.new.pairs (pcs_of invalidation.now)) }
        ensures harts_room { OnOk result (HasRoom self.new.harts (harts_of invalidation.now)) }
        ensures known { IsFalse (is_new_invalidation self.old.pairs.entries self.old.harts.entries
            (Some invalidation.now)) → IsOk result }
    {
        match make_room(&mut self.pairs, invalidation.pcs()) {
            Ok(()) => make_room(&mut self.harts, invalidation.harts()),
            Err(fault) => Err(fault),
        }
    }

    // Notes an access that took the line.
    fn note_taker(
        &mut self,
        sited: &Sited,
        since: bool,
        invalidation: &Invalidation,
    ) -> Result<(), NoMemory>
        requires { CanNote self.old.sites.entries self.old.pairs.entries self.old.harts.entries
            sited.now (Some invalidation.now) }
        ensures sites { OnOk result (self.new.sites.entries
            ≡ note_since self.old.sites.entries sited.now since) }
        ensures pairs { OnOk result (self.new.pairs.entries
            ≡ note_sides pcs_of self.old.pairs.entries (Some invalidation.now)) }
        ensures harts { OnOk result (self.new.harts.entries
            ≡ note_sides harts_of self.old.harts.entries (Some invalidation.now)) }
        ensures refused { OnErr result (IsSameTables self.old.sites.entries self.old.pairs.entries
            self.old.harts.entries self.new.sites.entries self.new.pairs.entries
            self.new.harts.entries) }
        ensures known { IsFalse (is_new_site self.old.sites.entries sited.now since
            || is_new_invalidation self.old.pairs.entries self.old.harts.entries (Some invalidation.now))
            → IsOk result }
    {
        match self.make_room(invalidation) {
            Ok(()) => {}
            Err(fault) => return Err(fault),
        }
        match note_site_since(&mut self.sites, sited, since) {
            Ok(()) => {}
            Err(fault) => return Err(fault),
        }
        let same = invalidation.is_of_one_word();
        note_invalidation(&mut self.pairs, invalidation.pcs(), same);
        note_invalidation(&mut self.harts, invalidation.harts(), same);
        Ok(())
    }

    /// Notes an access of the line, whether it is one from the start on, and what it took. It takes
    /// memory where its site or its sides are new; where there is none, nothing changes.
    pub fn note(
        &mut self,
        sited: &Sited,
        since: bool,
        invalidation: Option<Invalidation>,
    ) -> Result<(), NoMemory>
        requires { CanNote self.old.sites.entries self.old.pairs.entries self.old.harts.entries
            sited.now invalidation }
        ensures sites { OnOk result (self.new.sites.entries
            ≡ note_since self.old.sites.entries sited.now since) }
        ensures pairs { OnOk result (self.new.pairs.entries
            ≡ note_sides pcs_of self.old.pairs.entries invalidation) }
        ensures harts { OnOk result (self.new.harts.entries
            ≡ note_sides harts_of self.old.harts.entries invalidation) }
        ensures refused { OnErr result (IsSameTables self.old.sites.entries self.old.pairs.entries
            self.old.harts.entries self.new.sites.entries self.new.pairs.entries
            self.new.harts.entries) }
        ensures known { IsFalse (is_new_site self.old.sites.entries sited.now since
            || is_new_invalidation self.old.pairs.entries self.old.harts.entries invalidation)
            → IsOk result }
    {
        match invalidation {
            Some(invalidation) => self.note_taker(sited, since, &invalidation),
            None => note_site_since(&mut self.sites, sited, since),
        }
    }
}
