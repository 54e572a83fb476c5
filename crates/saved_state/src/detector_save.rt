// A detector, saved.
ghost use Rattle.std.specs.Prelude.{◌≡◌, ◌+◌, ◌*◌, IfOk, length};
ghost use Rattle.sharing_rules.specs.AccessLists.{AccessList};
ghost use Rattle.saved_state.specs.Counted.{AreInRange};
ghost use Rattle.saved_state.specs.OfLists.{state_of_list};
ghost use Rattle.saved_state.specs.Spelling.{spell_state};
ghost use Rattle.detector.specs.Amounts.{word_count};
ghost use Rattle.detector.specs.Standing.{StandsFor};
ghost use Rattle.saved_state.specs.Saving.{counted_lines, line_count, state_of};

use crate::{CountedLine, StateParts, write_state};
use base::NoMemory;
use detector::{Detector, LineIndex};
use std::alloc::Global;

// The lines that were written, in order of their numbers.
//
// NoMemory comes only where there is no memory for 16 bytes a line.
fn written_lines<I: LineIndex>(
    alloc: Global,
    detector: &Detector<I>,
) -> Result<Vec<CountedLine>, NoMemory>
    ensures value { IfOk result (λ lines. lines.items ≡ counted_lines detector.now.writes) }
    ensures in_range { IfOk result (λ lines. AreInRange lines.items) }
{
    let mut lines = Vec::new(alloc);
    let mut from = 0;
    while let Some(number) = detector.next_written(from) {
        let writes = detector.writes_of(number);
        lines.push(CountedLine { number, writes })?;
        from = number + 1;
    }
    Ok(lines)
}

/// The detector part of a saved state, with a number of harts: what `state_grammar` says.
///
/// NoMemory comes only where there is no memory for these bytes, for 16 bytes a written line, for 8
/// bytes a track, or for the sort of the tracks.
pub fn save_detector<I: LineIndex>(
    alloc: Global,
    detector: &Detector<I>,
    harts: u16,
) -> Result<Vec<u8>, NoMemory>
    ensures state { IfOk result (λ bytes.
        bytes.items ≡ spell_state (state_of harts detector.now)) }
    ensures length { IfOk result (λ bytes. length bytes.items ≡ 64 + 16 * line_count detector.now
        + 32 * length detector.now.tracks + 20 * word_count detector.now) }
    // for each list that it stands for, it is the state of the list
    ensures of_list { (t : AccessList) → StandsFor t detector.now → IfOk result (λ bytes.
        bytes.items ≡ state_of_list detector.now.grid detector.now.levels harts t) }
{
    let lines = written_lines(alloc, detector)?;
    let layout = detector.layout();
    // A layout has whole words, as its size says.
    let _size = layout.size();
    write_state(
        alloc,
        &StateParts {
            layout,
            thresholds: detector.thresholds(),
            harts,
            position: detector.position(),
            lines: &lines,
            tracks: detector.tracks(),
        },
    )
}
