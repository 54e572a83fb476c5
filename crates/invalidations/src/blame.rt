// The invalidations of all lines.
ghost use Rattle.std.specs.Prelude.{◌≡◌, ◌<◌, ◌^◌, ◌++◌, ◌∷◌, [], IsFalse, IsOk, List, OnErr, OnOk};
ghost use Rattle.std.specs.Prelude.{length};
ghost use Rattle.invalidations.specs.Blame.{all_invalidations};
ghost use Rattle.invalidations.specs.BlameKept.{StandsFor, note_access, nothing_blamed};
ghost use Rattle.invalidations.specs.BlameKept.{wants_memory};
ghost use Rattle.invalidations.specs.BlameRecords.{HasBlamed};
ghost use Rattle.invalidations.specs.declared.sited.Sited.{Sited as ASited};

use crate::blame_tables::{BlameTables, InLine, LineTaken};
use crate::recent::RecentRows;
use crate::sited::Sited;
use crate::tables::Taken;
use base::{Access, Layout, NoMemory};
use indexmap::IndexMap;
use std::alloc::Global;
use std::marker::Model;

/// The invalidations of all lines of a layout, so far.
///
/// Contracts see the layout, how many accesses there were, how many invalidations, and the parts:
/// of each line the two accesses that determine the next invalidation, and the tables of pairs of
/// instructions and of pairs of harts, each of all lines.
#[derive(Drop)]
pub struct Blame {
    layout: Layout,
    position: u64,
    total: u64,
    tables: BlameTables,
}

impl Model for Blame {
    ghost use Rattle.invalidations.specs.BlameKept.{Blamed};
    ghost use Rattle.invalidations.specs.BlameInside.{IsOfSome, blamed_in};

    ghost Value = { Blamed };

    ghost view = { blamed_in };

    ghost invariant = { IsOfSome };
}

impl Blame {
    /// No access so far, under a layout.
    pub fn new(alloc: Global, layout: Layout) -> Blame
        ensures kept { result ≡ nothing_blamed layout }
        ensures stands { StandsFor [] result }
        ensures begun { HasBlamed result result [] }
    {
        Blame {
            layout,
            position: 0,
            total: 0,
            tables: BlameTables {
                lines: IndexMap::new(alloc),
                pairs: IndexMap::new(alloc),
                harts: IndexMap::new(alloc),
                recent: RecentRows::new(alloc),
            },
        }
    }

    /// The layout of the lines.
    pub fn layout(&self) -> Layout
        ensures { result ≡ self.now.grid }
    {
        self.layout
    }

    /// How many accesses were noted.
    pub fn position(&self) -> u64
        ensures kept { result ≡ self.now.position }
        ensures stands { (u : List ASited) → StandsFor u self.now → result ≡ length u }
    {
        self.position
    }

    /// How many invalidations there were.
    pub fn total(&self) -> u64
        ensures kept { result ≡ self.now.total }
        ensures stands { (u : List ASited) → StandsFor u self.now
            → result ≡ all_invalidations self.now.grid u }
    {
        self.total
    }

    /// The lines that were accessed, in the order of their first accesses.
    pub(crate) fn lines(&self) -> &IndexMap<u32, LineTaken>
        ensures { result.now.entries ≡ self.now.parts.lines }
    {
        &self.tables.lines
    }

    /// The pairs of instructions of all lines.
    pub(crate) fn pairs(&self) -> &IndexMap<InLine, Taken>
        ensures { result.now.entries ≡ self.now.parts.pairs }
    {
        &self.tables.pairs
    }

    /// The pairs of harts of all lines.
    pub(crate) fn harts(&self) -> &IndexMap<InLine, Taken>
        ensures { result.now.entries ≡ self.now.parts.harts }
    {
        &self.tables.harts
    }

    /// Notes the next access, before position 2^40, with the pc of its hart at the step that made
    /// it. It takes memory where a line, or in a line a pair of instructions or two harts, are new;
    /// where there is none, nothing changes.
    pub fn on_access(&mut self, access: &Access, pc: u32) -> Result<(), NoMemory>
        requires { self.old.position < 2 ^ 40 }
        ensures noted { OnOk result (self.new ≡ note_access self.old
            (record { access = access.now; pc = pc })) }
        // so what is kept stands for the longer list
        ensures stands { (u : List ASited) → StandsFor u self.old
            → OnOk result (StandsFor (u ++ record { access = access.now; pc = pc } ∷ [])
            self.new) }
        ensures refused { OnErr result (self.new ≡ self.old) }
        ensures known { IsFalse (wants_memory self.old (record { access = access.now; pc = pc }))
            → IsOk result }
    {
        let sited = Sited {
            access: *access,
            pc,
        };
        let line = self.layout.number_of(access.addr()) as u32;
        let taken = match self.tables.note(line, self.position, sited) {
            Ok(taken) => taken,
            Err(fault) => return Err(fault),
        };
        self.total += u64::from(taken);
        self.position += 1;
        Ok(())
    }
}
