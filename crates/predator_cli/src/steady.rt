// Over a shelf that never fails, no fault of the outside is answered.
ghost use Rattle.std.specs.Prelude.{◌≡◌, ◌≢◌, ◌⊎◌};
ghost use Rattle.predator_cli.specs.Answer.{answer_of};
ghost use Rattle.command_line.specs.Demands.{texts};
ghost use Rattle.command_line.specs.Words.{demand_of};
ghost use Rattle.shelf.specs.NeverFails.{never_fails_outside};
ghost use Rattle.shelf.specs.Shelf.{Known};

use crate::predator;
use command_io::Status;
use shelf::NeverFails;
use std::alloc::Global;

/// The program over a shelf that never fails: it ends as the words and the files ask, unless memory
/// runs out.
pub fn predator_steady(alloc: Global, words: &[String], shelf: &mut NeverFails) -> Status
    ensures read { result ≢ Status.ReadFault }
    ensures write { result ≢ Status.WriteFault }
    ensures ends { Known (never_fails_outside shelf.new).held
        (λ files. (result ≡ (answer_of (demand_of (texts words.now)) files).status) ⊎ (result
        ≡ Status.NoMemory)) }
{
    predator(alloc, words, shelf)
}
