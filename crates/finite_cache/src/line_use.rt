// Who came to a line, and how often it was evicted.
ghost use Rattle.std.specs.Prelude.{◌≡◌, ◌+◌, ◌-◌, ◌<◌, ◌==◌, ◌^◌, ◌∷◌, [], eqb, length, not, take};
ghost use Rattle.std.specs.Prelude.{IfOk, IsOk, IsTrue, OnErr, OnOk};
ghost use Rattle.std.specs.List.{list_any};
ghost use Rattle.sharing_rules.specs.Arrivals.{note_arrival};

use base::{Hart, NoMemory};
use std::alloc::Global;
use std::marker::Model;

/// Of a line the harts that came since its last write, or since the beginning where there is none,
/// and how often it was evicted from the cache of any.
#[derive(Drop)]
pub struct LineUse {
    harts: Vec<Hart>,
    evicted: u64,
}

impl Model for LineUse {
    ghost use Rattle.finite_cache.specs.CacheState.{LineUse as Used};

    ghost Value = { Used };

    ghost view = { λ l. record { harts = l.harts.items; evicted = l.evicted } };
}

impl LineUse {
    /// A line to which one hart came.
    pub(crate) fn by(alloc: Global, hart: Hart) -> Result<LineUse, NoMemory>
        ensures { IfOk result (λ l. l ≡ record { harts = hart ∷ []; evicted = 0 }) }
    {
        let mut harts = Vec::new(alloc);
        harts.push(hart)?;
        Ok(LineUse { harts, evicted: 0 })
    }

    /// The harts that came.
    pub(crate) fn harts(&self) -> &[Hart]
        ensures { result.now ≡ self.now.harts }
    {
        &self.harts
    }

    /// How often it was evicted.
    pub(crate) fn evicted(&self) -> u64
        ensures { result ≡ self.now.evicted }
    {
        self.evicted
    }

    // Whether a hart came.
    fn has(&self, hart: Hart) -> bool
        ensures { result ≡ list_any (eqb hart) self.now.harts }
    {
        self.harts
            .iter()
            .any(|other| hart.number() == other.number())
    }

    /// Whether another hart came.
    pub(crate) fn has_another(&self, hart: Hart) -> bool
        ensures { result ≡ list_any (λ g. not (g == hart)) self.now.harts }
    {
        self.harts
            .iter()
            .any(|other| other.number() != hart.number())
    }

    /// A hart comes: true where it wasn't among them. It takes memory only there; where there is
    /// none, nothing changes.
    pub(crate) fn arrive(&mut self, hart: Hart) -> Result<bool, NoMemory>
        ensures arrived { OnOk result (self.new ≡ record self.old {
          harts = note_arrival self.old.harts hart;
        }) }
        ensures stated { IfOk result (λ new. new ≡ not (list_any (eqb hart) self.old.harts)) }
        ensures refused { OnErr result (self.new ≡ self.old) }
        ensures known { IsTrue (list_any (eqb hart) self.old.harts) → IsOk result }
    {
        if self.has(hart) {
            return Ok(false);
        }
        match self.harts.push(hart) {
            Ok(()) => Ok(true),
            Err(_) => Err(NoMemory),
        }
    }

    /// The hart that came last didn't come.
    pub(crate) fn take_back(&mut self)
        ensures { self.new ≡ record self.old {
          harts = take (length self.old.harts - 1) self.old.harts;
        } }
    {
        self.harts.pop();
    }

    /// A hart writes: it is the only one that came since.
    pub(crate) fn settle(&mut self, hart: Hart)
        requires { 0 < length self.old.harts }
        ensures { self.new ≡ record self.old { harts = hart ∷ [] } }
    {
        self.harts[0] = hart;
        self.harts.truncate(1);
    }

    /// It is evicted once more.
    pub(crate) fn evict(&mut self)
        requires { self.old.evicted < 2 ^ 40 }
        ensures { self.new ≡ record self.old { evicted = self.old.evicted + 1 } }
    {
        self.evicted += 1;
    }
}
