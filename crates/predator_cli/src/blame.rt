// The command `blame`: how often each line is taken in the trace of a name, by which instructions
// and by which harts. The accesses of the trace have their pcs, as those of versions 3 and 4.
use crate::counter::Counter;
use crate::counting::whole_for;
use base::{Layout, NoMemory};
use invalidations::{Blame, write_blame};
use std::alloc::Global;
use trace_passes::Wanted;

impl Counter for Blame {
    ghost use Rattle.std.specs.Prelude.{◌≡◌, refl};
    ghost use Rattle.command_line.specs.Words.{blame};
    ghost use Rattle.predator_cli.specs.Blame.{blame_text, whole_with_pcs};
    ghost use Rattle.invalidations.specs.BlameKept.{nothing_blamed};

    type Under = Layout;

    ghost WANTED = { λ layout. whole_with_pcs layout.size };

    ghost says = { blame_text };

    ghost asks = { λ name layout. blame (record { trace = name; layout = layout }) };

    ghost blank = { λ layout counter. counter ≡ nothing_blamed layout };

    fn wanted(under: &Layout) -> Wanted {
        Wanted {
            pcs: true,
            ..whole_for(under.size())
        }
    }

    fn begin(alloc: Global, under: Layout) -> Result<Self, NoMemory> {
        Ok(Blame::new(alloc, under))
    }

    fn text(&self, alloc: Global, whole: Option<u64>) -> Result<Vec<u8>, NoMemory> {
        write_blame(alloc, self, whole)
    }

    ghost whole = { λ layout. refl };

    ghost answers = { λ name layout. record {
      reads = refl;
      first = refl;
      works = λ files. refl;
      repeats = λ files. tt;
    } };
}
