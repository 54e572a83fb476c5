// A trace cut in two.
ghost use Rattle.std.specs.Prelude.{◌≡◌, ◌^◌, ◌+◌, ◌≤◌};

use crate::{Header, TraceEnd, TraceRecord};
use base::Outcome;
use std::marker::Model;

/// Which half of a trace a record goes to.
#[derive(Clone, Copy, PartialEq, Eq, Debug)]
pub enum Side {
    /// The half before the cut.
    First,
    /// The half that begins with the access at the cut.
    Second,
    /// Neither: each half has an end of its own.
    Neither,
}

/// Cuts a trace in two at an access, counted from 0.
///
/// Contracts see the header, how many accesses there are, the cut, and how many accesses were met,
/// up to one more than the cut.
#[derive(Clone, Copy, Debug)]
pub struct Splitter {
    header: Header,
    total: u64,
    cut: u64,
    met: u64,
}

impl Model for Splitter {
    ghost use Rattle.std.specs.Prelude.{◌^◌, ◌+◌, ◌≤◌};
    ghost use Rattle.trace_format.specs.Splits.{Split};

    ghost Value = { Split };

    ghost view = { λ s. record { header = s.header; total = s.total; cut = s.cut; met = s.met } };

    ghost invariant = { λ s. (s.header.first + s.total ≤ 2 ^ 40) × (s.cut ≤ s.total)
        × (s.met ≤ s.cut + 1) };

    ghost inverse = { λ s. record {
      header = s.header;
      total = s.total;
      cut = s.cut;
      met
          = s.met;
    } };
}

impl Splitter {
    ghost use Rattle.std.specs.Prelude.{List, [], ◌∷◌, ◌++◌, length, min};
    ghost use Rattle.trace_format.specs.declared.record.TraceRecord.{TraceRecord};
    ghost use Rattle.trace_format.specs.Rules.{touches_in};
    ghost use Rattle.trace_format.specs.Splits.{HasSeen, SameCut, begin_split, endings_of};
    ghost use Rattle.trace_format.specs.Splits.{headers_of, side_after};

    /// Cuts a trace with this header and so many accesses at access number `at`, or at its end
    /// where there are fewer.
    pub fn new(header: Header, total: u64, at: u64) -> Splitter
        requires { header.first + total ≤ 2 ^ 40 }
        ensures value { result ≡ begin_split header total at }
        ensures seen { HasSeen [] result }
    {
        Splitter {
            header,
            total,
            cut: at.min(total),
            met: 0,
        }
    }

    /// The headers of the two halves: the second begins at the position of the access at the cut.
    pub fn headers(&self) -> (Header, Header)
        ensures { result ≡ headers_of self.now }
    {
        let second = Header {
            first: self.header.first + self.cut,
            harts: self.header.harts,
            near: self.header.near,
        };
        (self.header, second)
    }

    // How many accesses are met with this record, up to one more than the cut.
    fn met_with(&self, item: &TraceRecord) -> u64
        ensures met { (seen : List TraceRecord) → HasSeen seen self.now →
            result ≡ min (length (touches_in (seen ++ item.now ∷ []))) (self.now.cut + 1) }
        ensures low { result ≤ self.now.cut + 1 }
    {
        match item {
            TraceRecord::Touch(_, _) => self.met.min(self.cut) + 1,
            _ => self.met,
        }
    }

    /// Which half the next record goes to: the first until the access at the cut is met, and the
    /// second from that access on. An end goes to neither.
    pub fn side(&mut self, item: &TraceRecord) -> Side
        // Whatever records came before, the side is that of this one behind them.
        ensures side { (seen : List TraceRecord) → HasSeen seen self.old →
            result ≡ side_after self.old.cut seen item.now }
        ensures seen { (seen : List TraceRecord) → HasSeen seen self.old →
            HasSeen (seen ++ item.now ∷ []) self.new }
        ensures same { SameCut self.old self.new }
    {
        self.met = self.met_with(item);
        match item {
            TraceRecord::End(_) => Side::Neither,
            _ if self.met <= self.cut => Side::First,
            _ => Side::Second,
        }
    }

    /// The ends of the two halves of a trace with this end: the first half has not ended.
    pub fn endings(&self, whole: TraceEnd) -> (TraceEnd, TraceEnd)
        ensures { result ≡ endings_of self.now whole }
    {
        let first = TraceEnd {
            outcome: Outcome::Part,
            steps: 0,
            accesses: self.cut,
            whole: None,
        };
        let second = TraceEnd {
            outcome: whole.outcome,
            steps: whole.steps,
            accesses: self.total - self.cut,
            whole: None,
        };
        (first, second)
    }
}
