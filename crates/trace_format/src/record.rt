// What a trace is made of.
use base::{Access, Ending, Name, Outcome};
use objects::SymbolKind;

/// How a trace spells its accesses.
#[derive(Clone, Copy, PartialEq, Eq, Debug)]
pub enum Version {
    /// In 8 bytes each.
    One,
    /// Each against the address of the access before it, in 3 to 7 bytes.
    Two,
    /// As in version 2, and then the address of its instruction against that of its hart's access
    /// before, in 4 to 12 bytes.
    Three,
    /// As in version 3, of a filtered list: one without some of its redundant accesses.
    Four,
}

/// The beginning of a trace.
#[derive(Clone, Copy, PartialEq, Eq, Debug)]
pub struct Header {
    /// The position of the trace's first access, at most 2^40.
    pub first: u64,
    /// How many harts there are, from 1 to 256.
    pub harts: u16,
    /// In version 4 the accesses that are left out are redundant where regions have 2 to the power
    /// of this number of bytes, from 6 to 16. It is 0 in the others.
    pub near: u16,
}

/// The end of a trace.
#[derive(Clone, Copy, PartialEq, Eq, Debug)]
pub struct TraceEnd {
    /// What ended the run.
    pub outcome: Outcome,
    /// How many steps were taken.
    pub steps: u64,
    /// How many accesses the trace has.
    pub accesses: u64,
    /// In version 4 how many accesses there were before the list was filtered, and None in the
    /// others.
    pub whole: Option<u64>,
}

impl TraceEnd {
    ghost use Rattle.std.specs.Prelude.{◌≡◌};
    ghost use Rattle.trace_format.specs.Ends.{run_end, unfiltered};

    /// The end of a trace that has all accesses of a run.
    pub fn of(ending: &Ending) -> TraceEnd
        ensures { result ≡ unfiltered ending.now }
    {
        TraceEnd {
            outcome: ending.outcome,
            steps: ending.steps,
            accesses: ending.accesses,
            whole: None,
        }
    }

    /// The end of the run, with as many accesses as the trace has.
    pub fn ending(&self) -> Ending
        ensures { result ≡ run_end self.now }
    {
        Ending {
            outcome: self.outcome,
            steps: self.steps,
            accesses: self.accesses,
        }
    }
}

/// One record of a trace.
#[derive(PartialEq, Eq, Debug, Drop)]
pub enum TraceRecord {
    /// A read or a write, and the address of its instruction, its pc. A trace of version 3 or 4 has
    /// one of each access, and one of version 1 or 2 has none.
    Touch(Access, Option<u32>),
    /// A block was made.
    Alloc {
        /// Its first address.
        addr: u32,
        /// How many bytes were asked for.
        size: u32,
        /// The last four calls before, the newest first, and 0 where there was none.
        sites: [u32; 4],
    },
    /// The block at this address was given back.
    Free {
        /// Its first address.
        addr: u32,
    },
    /// What the program has at some addresses.
    Symbol {
        /// What it names.
        kind: SymbolKind,
        /// Its first address.
        addr: u32,
        /// How many bytes it has, at least 1.
        size: u32,
        /// Its name, with no zero byte.
        name: Name,
    },
    /// The end, the last record.
    End(TraceEnd),
}
