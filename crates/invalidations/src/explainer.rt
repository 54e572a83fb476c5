// The invalidations of one line.
ghost use Rattle.std.specs.Prelude.{◌≡◌, ◌+◌, ◌<◌, ◌^◌, ◌++◌, ◌∷◌, [], IsFalse, IsOk, IsTrue, List};
ghost use Rattle.std.specs.Prelude.{OnErr, OnOk};
ghost use Rattle.invalidations.specs.LineInvalidations.{StandsFor, kept_of, note_access};
ghost use Rattle.invalidations.specs.LineInvalidations.{note_visit, wants_memory};
ghost use Rattle.invalidations.specs.Invalidations.{is_in};
ghost use Rattle.invalidations.specs.declared.sited.Sited.{Sited as ASited};

use crate::latest::LatestTwo;
use crate::sited::{Sides, Sited};
use crate::tables::{Tables, Taken};
use base::{Access, NoMemory};
use indexmap::IndexMap;
use sharing_rules::{CacheLine, Word};
use std::alloc::Global;
use std::marker::Model;

/// The invalidations of one line above a start, so far.
///
/// Contracts see the line, the start, how many accesses there were, how many invalidations, the two
/// accesses that determine the next one, and the tables of sites, of pairs of instructions and of
/// pairs of harts.
#[derive(Drop)]
pub struct Explainer {
    line: CacheLine,
    start: u64,
    position: u64,
    count: u64,
    two: LatestTwo,
    tables: Tables,
}

impl Model for Explainer {
    ghost use Rattle.invalidations.specs.LineInvalidations.{LineInvalidations};
    ghost use Rattle.invalidations.specs.Inside.{IsOfSome, kept_in};

    ghost Value = { LineInvalidations };

    ghost view = { kept_in };

    ghost invariant = { IsOfSome };
}

impl Explainer {
    /// No access so far, of a line and from a start on.
    pub fn new(alloc: Global, line: CacheLine, start: u64) -> Explainer
        ensures { result ≡ kept_of line start [] }
    {
        Explainer {
            line,
            start,
            position: 0,
            count: 0,
            two: LatestTwo {
                latest: None,
                other: None,
                held: false,
            },
            tables: Tables {
                sites: IndexMap::new(alloc),
                pairs: IndexMap::new(alloc),
                harts: IndexMap::new(alloc),
            },
        }
    }

    /// The line.
    pub fn line(&self) -> CacheLine
        ensures { result ≡ self.now.line }
    {
        self.line
    }

    /// The start.
    pub fn start(&self) -> u64
        ensures { result ≡ self.now.start }
    {
        self.start
    }

    /// How many accesses were noted.
    pub fn position(&self) -> u64
        ensures { result ≡ self.now.position }
    {
        self.position
    }

    /// The sites, in the order in which they came.
    pub(crate) fn sites(&self) -> &IndexMap<u32, Word>
        ensures { result.now.entries ≡ self.now.sites }
    {
        &self.tables.sites
    }

    /// The pairs of instructions, in the order in which they came.
    pub(crate) fn pairs(&self) -> &IndexMap<Sides, Taken>
        ensures { result.now.entries ≡ self.now.pairs }
    {
        &self.tables.pairs
    }

    /// The pairs of harts, in the order in which they came.
    pub(crate) fn harts(&self) -> &IndexMap<Sides, Taken>
        ensures { result.now.entries ≡ self.now.harts }
    {
        &self.tables.harts
    }

    /// How many invalidations there were.
    pub fn count(&self) -> u64
        ensures { result ≡ self.now.count }
    {
        self.count
    }

    // Notes an access of the line.
    fn visit(&mut self, sited: Sited) -> Result<(), NoMemory>
        requires early { self.old.position < 2 ^ 40 }
        requires within { IsTrue (is_in self.old.line sited) }
        ensures noted { OnOk result (self.new ≡ note_visit self.old sited) }
        ensures refused { OnErr result (self.new ≡ self.old) }
        ensures known { IsFalse (wants_memory self.old sited) → IsOk result }
    {
        let invalidation = self.two.invalidation(self.start, self.position, sited);
        let since = self.start <= self.position;
        match self.tables.note(&sited, since, invalidation) {
            Ok(()) => {}
            Err(fault) => return Err(fault),
        }
        self.two.note(sited);
        self.count += u64::from(invalidation.is_some());
        self.position += 1;
        Ok(())
    }

    // Notes an access elsewhere.
    fn pass(&mut self, sited: Sited)
        requires early { self.old.position < 2 ^ 40 }
        requires elsewhere { IsFalse (is_in self.old.line sited) }
        ensures { self.new ≡ record self.old { position = self.old.position + 1 } }
    {
        self.position += 1;
    }

    /// Notes the next access, before position 2^40, with the pc of its hart at the step that made
    /// it. It takes memory where a site, a pair of instructions or two harts are new; where there
    /// is none, nothing changes.
    pub fn on_access(&mut self, access: &Access, pc: u32) -> Result<(), NoMemory>
        requires { self.old.position < 2 ^ 40 }
        ensures noted { OnOk result (self.new ≡ note_access self.old
            (record { access = access.now; pc = pc })) }
        // so what is kept is what the longer list makes
        ensures stands { (u : List ASited) → StandsFor u self.old
            → OnOk result (StandsFor (u ++ record { access = access.now; pc = pc } ∷ [])
            self.new) }
        ensures refused { OnErr result (self.new ≡ self.old) }
        ensures known { IsFalse (wants_memory self.old
            (record { access = access.now; pc = pc })) → IsOk result }
    {
        let sited = Sited {
            access: *access,
            pc,
        };
        if self.line.contains(access.addr()) {
            self.visit(sited)
        } else {
            self.pass(sited);
            Ok(())
        }
    }
}
