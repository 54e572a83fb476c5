// The command `caches`: how many of the invalidations of each line in the trace of a name are left
// in private caches of a shape, and how often the line was evicted from them.
use crate::counter::Counter;
use crate::counting::WHOLE;
use base::{NoMemory, Shape};
use finite_cache::{Caches, write_caches};
use std::alloc::Global;
use trace_passes::Wanted;

impl Counter for Caches {
    ghost use Rattle.std.specs.Prelude.{◌≡◌, refl};
    ghost use Rattle.command_line.specs.Words.{caches};
    ghost use Rattle.finite_cache.specs.CacheState.{nothing_kept};
    ghost use Rattle.predator_cli.specs.Caches.{caches_text};
    ghost use Rattle.predator_cli.specs.Replay.{whole as whole_trace};

    type Under = Shape;

    ghost WANTED = { λ shape. whole_trace };

    ghost says = { caches_text };

    ghost asks = { λ name shape. caches (record { trace = name; shape = shape }) };

    ghost blank = { λ shape counter. counter ≡ nothing_kept shape };

    fn wanted(_under: &Shape) -> Wanted {
        WHOLE
    }

    fn begin(alloc: Global, under: Shape) -> Result<Self, NoMemory> {
        Ok(Caches::new(alloc, under))
    }

    fn text(&self, alloc: Global, _whole: Option<u64>) -> Result<Vec<u8>, NoMemory> {
        write_caches(alloc, self)
    }

    ghost whole = { λ shape. refl };

    ghost answers = { λ name shape. record {
      reads = refl;
      first = refl;
      works = λ files. refl;
      repeats = λ files. tt;
    } };
}
