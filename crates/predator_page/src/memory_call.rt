// The top call over files in memory.
ghost use Rattle.std.specs.Prelude.{◌≡◌, ◌⊎◌, IfOk, None};
ghost use Rattle.command_io.specs.Statuses.{kind_of};
ghost use Rattle.command_line.specs.Demands.{texts};
ghost use Rattle.command_line.specs.Words.{demand_of};
ghost use Rattle.predator_cli.specs.Again.{WhereDone};
ghost use Rattle.predator_cli.specs.Answer.{outputs};
ghost use Rattle.predator_cli.specs.Commands.{RepeatsReport, ReportIsRecounted};
ghost use Rattle.predator_cli.specs.Commands.{StaysWithinBudget};
ghost use Rattle.predator_cli.specs.Meets.{EndsAs, IsCaused, IsComplete, Prints};
ghost use Rattle.predator_cli.specs.Written.{OnlyAt, Writes};
ghost use Rattle.shelf.specs.MemoryShelf.{fresh_outside, memory_outside};
ghost use Rattle.shelf.specs.Shelf.{Files, Narrows, Known};

use base::NoMemory;
use predator_cli::{Status, predator};
use shelf::{HeldFile, MemoryShelf};
use std::alloc::Global;

/// What came of a call: how it ended, and the shelf with what it printed and wrote.
#[derive(Drop)]
pub struct Answer {
    pub status: Status,
    pub shelf: MemoryShelf,
}

/// All that the program does, by the words after its name, over these files. Nothing fails on the
/// shelf but the reading of a file that isn't among them.
///
/// The clauses are those of [`predator`], from a shelf with nothing written or printed.
pub fn call_in_memory(
    alloc: Global,
    words: &[String],
    files: Vec<HeldFile>,
) -> Result<Answer, NoMemory>
    // It ends as the words and the files ask, or by a fault of the outside before which nothing is
    // refused.
    ensures ends { IfOk result (λ answer. Known (memory_outside answer.shelf).held
        (λ held. EndsAs (demand_of (texts words.now)) held (fresh_outside files.items)
        (memory_outside answer.shelf) (kind_of answer.status) answer.status)) }
    // What the shelf holds then are these files.
    ensures held { IfOk result (λ answer. Narrows (fresh_outside files.items).held
        (memory_outside answer.shelf).held) }
    // Usage comes only where the words are refused, and then nothing but want of memory else.
    ensures usage { IfOk result (λ answer.
        answer.status ≡ Status.Usage → demand_of (texts words.now) ≡ None) }
    ensures refuses { IfOk result (λ answer. demand_of (texts words.now) ≡ None →
        (answer.status ≡ Status.Usage) ⊎ (answer.status ≡ Status.NoMemory)) }
    // A fault of the outside has its cause, and none is passed over.
    ensures caused { IfOk result (λ answer. IsCaused (demand_of (texts words.now))
        (fresh_outside files.items) (memory_outside answer.shelf) (kind_of answer.status)) }
    // What is printed.
    ensures prints { IfOk result (λ answer. Prints (demand_of (texts words.now))
        (fresh_outside files.items) (memory_outside answer.shelf) (kind_of answer.status)
        answer.status) }
    // What stands in the files that are written, and in no other.
    ensures writes { IfOk result (λ answer. Writes (demand_of (texts words.now))
        (fresh_outside files.items) (memory_outside answer.shelf) (kind_of answer.status)) }
    ensures only { IfOk result (λ answer. OnlyAt (outputs (demand_of (texts words.now)))
        (fresh_outside files.items) (memory_outside answer.shelf)) }
    // What other calls repeat of it, how long a run is at most, and what holds of each count.
    ensures again { IfOk result (λ answer. Known (memory_outside answer.shelf).held (λ held.
        WhereDone RepeatsReport (demand_of (texts words.now)) held (kind_of answer.status))) }
    ensures within { IfOk result (λ _. (held : Files)
        → StaysWithinBudget (demand_of (texts words.now)) held) }
    ensures recounts { IfOk result (λ _. (held : Files)
        → ReportIsRecounted (demand_of (texts words.now)) held) }
    // Where no number of faults rose it ends as it is asked, unless memory runs out.
    ensures complete { IfOk result (λ answer. Known (memory_outside answer.shelf).held
        (λ held. IsComplete (demand_of (texts words.now)) held (fresh_outside files.items)
        (memory_outside answer.shelf) answer.status)) }
{
    let mut shelf = MemoryShelf::new(alloc, files, Vec::new(alloc))?;
    let status = predator(alloc, words, &mut shelf);
    Ok(Answer { status, shelf })
}
