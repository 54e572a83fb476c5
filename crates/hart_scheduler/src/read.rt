// How the text of a schedule is read.
ghost use Rattle.std.specs.Prelude.{◌≡◌, ◌≢◌, ◌≤◌, ◌<◌, ◌↔◌, ◌++◌, length, [], None, Some};
ghost use Rattle.std.specs.Prelude.{Err, Ok, IfOk, IfErr, OnOk, slice_get};
ghost use Rattle.std.specs.Option.{option_to_list};
ghost use Rattle.hart_scheduler.specs.Texts.{longest_content, line_fault, entry_of, faults_from};
ghost use Rattle.hart_scheduler.specs.Texts.{entries_of, schedule_of, UnlessMemory};
ghost use Rattle.hart_scheduler.specs.Spelling.{LinesAreWritten};

use crate::entry::{Entry, cut_at, judge_line};
use crate::fault::ScheduleFault;
use crate::schedule::Schedule;
use std::alloc::Global;

// How many bytes a schedule may have.
const LONGEST_CONTENT: usize = 1 << 20;

// Adds the entry of a numbered line, unless the line is empty or has a fault.
fn read_line(
    entries: &mut Vec<Entry>,
    line: &[u8],
    number: u64,
    harts: u16,
) -> Result<(), ScheduleFault>
    requires { harts ≤ 256 }
    ensures good { OnOk result (line_fault harts (number, line.now) ≡ None) }
    ensures added { OnOk result (entries.new.items ≡ entries.old.items ++ option_to_list
        (entry_of line.now)) }
    ensures bad { IfErr result
        (λ fault. UnlessMemory fault (line_fault harts (number, line.now) ≡ Some fault)) }
    ensures of_a_line { IfErr result (λ fault. fault ≢ ScheduleFault.TooLong) }
{
    match judge_line(line, number, harts) {
        Err(fault) => Err(fault),
        Ok(None) => Ok(()),
        Ok(Some(entry)) => match entries.push(entry) {
            Ok(()) => Ok(()),
            Err(_) => Err(ScheduleFault::NoMemory),
        },
    }
}

// The entries of a text, or the fault of its first line that has one.
fn read_entries(alloc: Global, content: &[u8], harts: u16) -> Result<Vec<Entry>, ScheduleFault>
    requires bound { harts ≤ 256 }
    requires short { length content.now ≤ longest_content }
    ensures good { IfOk result (λ entries. faults_from harts 1 content.now ≡ []) }
    ensures read { IfOk result (λ entries. entries.items ≡ entries_of content.now) }
    ensures bad { IfErr result
        (λ fault. UnlessMemory fault (slice_get (faults_from harts 1 content.now) 0 ≡ Some fault)) }
    ensures of_a_line { IfErr result (λ fault. fault ≢ ScheduleFault.TooLong) }
{
    let mut entries = Vec::new(alloc);
    let mut number: u64 = 1;
    let mut rest = content;
    while !rest.is_empty() {
        let (line, after) = cut_at(rest, b'\n');
        match read_line(&mut entries, line, number, harts) {
            Ok(()) => {}
            Err(fault) => return Err(fault),
        }
        rest = after;
        number += 1;
    }
    Ok(entries)
}

impl Schedule {
    /// The schedule of a file's content, for harts 0 to `harts` - 1 and turns in a row of
    /// `quantum`, or its first fault. `harts` is from 1 to 256, `quantum` and `seed` any numbers.
    /// With a quantum of 0 no hart goes on by itself. A `seed` other than 0 draws the turns after
    /// the list; with 0 none is drawn.
    ///
    /// Lines end at a line feed, which the last may lack, and empty lines are skipped. Each other
    /// line is a hart, one space and a count, in decimal without leading zeros. `TooLong` comes
    /// exactly where there is more than 1 MiB; else the first line that has a fault is named. Want
    /// of memory may come before any fault but `TooLong`.
    pub fn read(
        alloc: Global,
        content: &[u8],
        harts: u16,
        quantum: u32,
        seed: u32,
    ) -> Result<Schedule, ScheduleFault>
        requires some { 1 ≤ harts }
        requires bound { harts ≤ 256 }
        ensures accepted { IfOk result (λ plan. schedule_of harts quantum seed content.now
            ≡ Ok plan) }
        ensures refused { IfErr result
            (λ fault. UnlessMemory fault
            (schedule_of harts quantum seed content.now ≡ Err fault)) }
        // A line is a hart and a count just where it is written as `{hart} {count}`.
        ensures written { LinesAreWritten }
        ensures harts { IfOk result (λ plan. plan.harts ≡ harts) }
        ensures quantum { IfOk result (λ plan. plan.quantum ≡ quantum) }
        ensures too_long { (result ≡ Err ScheduleFault.TooLong)
            ↔ (longest_content < length content.now) }
    {
        if content.len() > LONGEST_CONTENT {
            return Err(ScheduleFault::TooLong);
        }
        match read_entries(alloc, content, harts) {
            Ok(entries) => Ok(Schedule::of_entries(entries, harts, quantum, seed)),
            Err(fault) => Err(fault),
        }
    }
}
