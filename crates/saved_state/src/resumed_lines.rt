// The written lines of a state, read into a detector one by one.
ghost use Rattle.std.specs.Prelude.{◌≡◌, ◌≢◌, ◌+◌, ◌<◌, ◌≤◌, ◌^◌, ℕ, suc, [], drop, Err, Ok};
ghost use Rattle.std.specs.Prelude.{IfErr, IfOk, IsTrue, OnOk, length, Some};
ghost use Rattle.base.specs.declared.faults.ResumeFault.TheVariants as faults;
ghost use Rattle.saved_state.specs.Parts.{IsLast, header_meant};
ghost use Rattle.saved_state.specs.Units.{is_good_line};
ghost use Rattle.detector.specs.Adding.{with_written};
ghost use Rattle.saved_state.specs.Ready.{IsReady, due_numbers, lines_at, lines_read};
ghost use Rattle.saved_state.specs.Saving.{counted_lines};

use crate::part_rest::{Rest, behind, fault_at};
use crate::{CountedLine, StateHeader, read_line};
use base::{NoMemory, ResumeFault};
use detector::{Detector, LineIndex};

// How many bytes a line has.
const LINE_LENGTH: usize = 16;

// Adds a line, and its number where it is due.
fn add_line<I: LineIndex>(
    detector: &mut Detector<I>,
    due: &mut Vec<u64>,
    header: &StateHeader,
    line: CountedLine,
) -> Result<(), NoMemory>
    requires ready { IsReady (header_meant header.now) detector.old }
    requires due { due.old.items ≡ due_numbers (header_meant header.now) detector.old }
    requires good { IsTrue (is_good_line (header_meant header.now)
        (counted_lines detector.old.writes) line) }
    ensures added { OnOk result (detector.new ≡ with_written detector.old line.number line.writes) }
    ensures due { OnOk result
        (due.new.items ≡ due_numbers (header_meant header.now) detector.new) }
{
    match detector.add_written(line.number, line.writes) {
        Ok(()) => {}
        Err(refused) => return Err(refused),
    }
    if line.writes >= header.thresholds.tracking() {
        due.push(line.number)?;
    }
    Ok(())
}

// Reads one line, behind one of a number or as the first one, and gives its number.
fn next_line<I: LineIndex>(
    detector: &mut Detector<I>,
    due: &mut Vec<u64>,
    header: &StateHeader,
    last: Option<u64>,
    rest: Rest<'_>,
) -> Result<u64, ResumeFault>
    requires ready { IsReady (header_meant header.now) detector.old }
    requires due { due.old.items ≡ due_numbers (header_meant header.now) detector.old }
    requires last { IsLast (counted_lines detector.old.writes) last }
    ensures read { (more : ℕ) → OnOk result
        (lines_read (header_meant header.now) (suc more) detector.old rest.entry.place
        rest.entry.bytes.now
        ≡ lines_read (header_meant header.now) more detector.new (rest.entry.place + 16)
        (drop 16 rest.entry.bytes.now)) }
    ensures long { OnOk result (16 ≤ length rest.entry.bytes.now) }
    ensures ready { OnOk result (IsReady (header_meant header.now) detector.new) }
    ensures due { OnOk result
        (due.new.items ≡ due_numbers (header_meant header.now) detector.new) }
    ensures last { IfOk result (λ number.
        IsLast (counted_lines detector.new.writes) (Some number)) }
    ensures tracks { OnOk result (detector.new.tracks ≡ detector.old.tracks) }
    ensures levels { OnOk result (detector.new.levels ≡ detector.old.levels) }
    ensures refused { (more : ℕ) → IfErr result (λ fault. fault ≢ faults.NoMemory
        → lines_read (header_meant header.now) (suc more) detector.old rest.entry.place
        rest.entry.bytes.now
        ≡ Err fault) }
{
    let line = match read_line(header, last, rest.bytes) {
        Some(line) => line,
        None => return Err(fault_at(rest)),
    };
    match add_line(detector, due, header, line) {
        Ok(()) => Ok(line.number),
        Err(NoMemory) => Err(ResumeFault::NoMemory),
    }
}

/// Reads all lines that a header states, into a detector that has none, and gathers the numbers of
/// those that are due. It takes memory for the lines that are there alone.
pub fn read_lines<'a, I: LineIndex>(
    detector: &mut Detector<I>,
    due: &mut Vec<u64>,
    header: &StateHeader,
    rest: Rest<'a>,
) -> Result<Rest<'a>, ResumeFault>
    requires ready { IsReady (header_meant header.now) detector.old }
    requires none { counted_lines detector.old.writes ≡ [] }
    requires due { due.old.items ≡ due_numbers (header_meant header.now) detector.old }
    requires few { rest.place + length rest.bytes.now < 2 ^ 64 }
    ensures read { IfOk result (λ after.
        lines_read (header_meant header.now) header.now.lines detector.old rest.entry.place
        rest.entry.bytes.now
        ≡ Ok (lines_at detector.new after.place after.bytes.now)) }
    ensures few { IfOk result (λ after. after.place + length after.bytes.now < 2 ^ 64) }
    ensures ready { OnOk result (IsReady (header_meant header.now) detector.new) }
    ensures due { OnOk result
        (due.new.items ≡ due_numbers (header_meant header.now) detector.new) }
    ensures tracks { OnOk result (detector.new.tracks ≡ detector.old.tracks) }
    ensures levels { OnOk result (detector.new.levels ≡ detector.old.levels) }
    ensures refused { IfErr result (λ fault. fault ≢ faults.NoMemory
        → lines_read (header_meant header.now) header.now.lines detector.old rest.entry.place
        rest.entry.bytes.now ≡ Err fault) }
{
    let (mut last, mut rest) = (None, rest);
    for _ in 0..header.lines {
        match next_line(detector, due, header, last, rest) {
            Ok(number) => {
                last = Some(number);
                rest = behind(rest, LINE_LENGTH);
            }
            Err(fault) => return Err(fault),
        }
    }
    Ok(rest)
}
