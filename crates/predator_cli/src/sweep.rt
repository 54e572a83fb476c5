// The command `sweep`: what every shift of a line size counts in the trace of a name, and which
// counts least.
use crate::counter::Counter;
use crate::counting::whole_for;
use base::NoMemory;
use layout_sweep::{Sweep, write_sweep};
use std::alloc::Global;
use trace_passes::Wanted;

impl Counter for Sweep {
    ghost use Rattle.std.specs.Prelude.{◌≡◌, [], IsTrue, refl};
    ghost use Rattle.command_line.specs.Sweep.{is_swept_size};
    ghost use Rattle.command_line.specs.Words.{sweep};
    ghost use Rattle.layout_sweep.specs.Standing.{StandsFor};
    ghost use Rattle.predator_cli.specs.Replay.{whole_for as whole_under};
    ghost use Rattle.predator_cli.specs.Sweep.{sweep_text_of};

    type Under = u32;

    ghost allowed = { λ size. IsTrue (is_swept_size size) };

    ghost WANTED = { λ size. whole_under size };

    ghost says = { sweep_text_of };

    ghost asks = { λ name size. sweep (record { trace = name; size = size }) };

    ghost blank = { λ size counter. (counter.size ≡ size) × StandsFor [] counter };

    fn wanted(under: &u32) -> Wanted {
        whole_for(*under)
    }

    fn begin(alloc: Global, under: u32) -> Result<Self, NoMemory> {
        Sweep::new(alloc, under)
    }

    fn text(&self, alloc: Global, whole: Option<u64>) -> Result<Vec<u8>, NoMemory> {
        write_sweep(alloc, self, whole)
    }

    ghost whole = { λ size. refl };

    ghost answers = { λ name size. record {
      reads = refl;
      first = refl;
      works = λ files. refl;
      repeats = λ files. tt;
    } };
}
