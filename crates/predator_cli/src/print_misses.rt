// The command `misses`: what the sharing of each line costs in the trace of a name, its cold
// misses, those that bring what a hart needs, and those for nothing.
use crate::counter::Counter;
use crate::counting::whole_for;
use base::{Layout, NoMemory};
use misses::MissObservations;
use std::alloc::Global;
use trace_passes::Wanted;

impl Counter for MissObservations {
    ghost use Rattle.std.specs.Prelude.{◌≡◌, refl};
    ghost use Rattle.command_line.specs.Words.{misses};
    ghost use Rattle.misses.specs.Seen.{nothing_missed};
    ghost use Rattle.predator_cli.specs.Misses.{misses_text};
    ghost use Rattle.predator_cli.specs.Replay.{whole_for as whole_under};

    type Under = Layout;

    ghost WANTED = { λ layout. whole_under layout.size };

    ghost says = { misses_text };

    ghost asks = { λ name layout. misses (record { trace = name; layout = layout }) };

    ghost blank = { λ layout counter. counter ≡ nothing_missed layout };

    fn wanted(under: &Layout) -> Wanted {
        whole_for(under.size())
    }

    fn begin(alloc: Global, under: Layout) -> Result<Self, NoMemory> {
        Ok(MissObservations::new(alloc, under))
    }

    fn text(&self, alloc: Global, whole: Option<u64>) -> Result<Vec<u8>, NoMemory> {
        MissObservations::text(self, alloc, whole)
    }

    ghost whole = { λ layout. refl };

    ghost answers = { λ name layout. record {
      reads = refl;
      first = refl;
      works = λ files. refl;
      repeats = λ files. tt;
    } };
}
